// Reading recipients and identities. The verdict comes first, then the bytes, so that nothing is written where the text is refused.
ghost use Rattle.std.specs.Prelude.{◌≡◌, Some, None, ℕ, slice_index, ◌+◌, ◌-◌, ◌<◌, ◌≤◌, ◌&&◌, ◌||◌, map, eqb, length, drop, take};
ghost use Rattle.refusal.specs.Pick.{pick};
ghost use Rattle.refusal.specs.Number.{number_of};
ghost use Rattle.refusal.specs.Run.{all, run, is_graphic};
ghost use Rattle.refusal.specs.Verdict.{verdict_said};
ghost use Rattle.symbols.specs.Charset.{lower};
ghost use Rattle.symbols.specs.Steps.{Values};
ghost use Rattle.bech32.specs.Text.{no_lower, no_upper, is_cased, is_not_one, separator, has_tail, is_closed, place_in, parse};
ghost use Rattle.bech32.specs.Calls.{form_of, is_sound, read_said, place_said, IsGiven, IsNamed, read_answer, place_given, read_buffer, read_name, text_number, mark_of};
ghost use Rattle.bech32.specs.Steps.{name_at, tail_number};

use crate::human::{Name, is_lowered, name_in};
use crate::{CHECKSUM, LONGEST, TAIL, TextKind};
use refusal::Refusal;
use symbols::{
    are_characters, bytes_length, character_run, decode, fold_human, is_closed, is_lower, is_upper,
    is_whole, values,
};

// A text that was read: how long the payload at the buffer's front is, and the name.
#[derive(Clone, Copy)]
pub struct ReadText {
    pub length: usize,
    pub name: Name,
}

// Why a text was not read: 16 with the place, 21, 22 or 15.
#[derive(Clone, Copy)]
pub struct ReadFault {
    pub refusal: Refusal,
    pub place: Option<usize>,
}

// Whether no letter is in lower case. No early exit, so that the loop is vectorised.
fn no_lower(text: &[u8]) -> bool
    ensures { result ≡ no_lower text.now }
{
    text.iter().fold(true, |good, b| good & !is_lower(*b))
}

// Whether no letter is in upper case.
fn no_upper(text: &[u8]) -> bool
    ensures { result ≡ no_upper text.now }
{
    text.iter().fold(true, |good, b| good & !is_upper(*b))
}

// Whether no letter is of the wrong case.
fn is_cased(kind: TextKind, text: &[u8]) -> bool
    ensures { result ≡ is_cased (form_of kind) text.now }
{
    match kind {
        TextKind::Recipient => no_upper(text),
        TextKind::Identity => no_lower(text),
    }
}

// Whether no letters of both cases are in a text.
fn is_one_case(text: &[u8]) -> bool
    ensures { result ≡ (no_lower text.now || no_upper text.now) }
{
    no_lower(text) || no_upper(text)
}

// Whether none of 8 bytes is a "1". No early exit, so that the loop is vectorised.
fn eight_without_one(eight: &[u8; 8]) -> bool
    ensures { result ≡ all is_not_one eight.now }
{
    eight.iter().fold(true, |good, b| good & (*b != b'1'))
}

// Where the last "1" stands, looked for from the right; the length where there is none, as `separator` says.
fn find_separator(text: &[u8]) -> usize
    ensures { result ≡ separator text.now }
{
    let mut front = text;
    while let Some((before, eight)) = front.split_last_chunk::<8>() {
        if !eight_without_one(eight) {
            break;
        }
        front = before;
    }
    while let Some((last, before)) = front.split_last() {
        if *last == b'1' {
            return before.len();
        }
        front = before;
    }
    text.len()
}

// A text, and where its separator stands.
#[derive(Drop)]
struct Separated<'a> {
    text: &'a [u8],
    at: usize,
    ghost at_separator: { at ≡ separator text.now },
    ghost in_bounds: { at ≤ length text.now },
    ghost bytes: { (i : ℕ) → slice_index text.now i < 256 },
}

impl<'a> Separated<'a> {
    fn of(text: &'a [u8]) -> Separated<'a>
        ensures { result.text.now ≡ text.now }
    {
        Separated {
            text: text,
            at: find_separator(text),
        }
    }

    // What stands before the separator, what behind it, and that less the checksum.
    fn head(&self) -> &'a [u8]
        ensures { result.now ≡ take (separator self.now.text.now) self.now.text.now }
    {
        &self.text[..self.at]
    }

    fn data(&self) -> &'a [u8]
        requires { separator self.now.text.now < length self.now.text.now }
        ensures { result.now ≡ drop (separator self.now.text.now + 1) self.now.text.now }
    {
        &self.text[self.at + 1..]
    }

    fn payload(&self) -> &'a [u8]
        requires { separator self.now.text.now + 7 ≤ length self.now.text.now }
        ensures { result.now ≡
            take (length self.now.text.now - 6 - (separator self.now.text.now + 1))
            (drop (separator self.now.text.now + 1) self.now.text.now) }
    {
        &self.text[self.at + 1..self.text.len() - CHECKSUM]
    }

    // Whether the checksum holds over the lower-case form.
    fn is_checked(&self, table: &[u8; 256]) -> bool
        requires { Values table.now }
        ensures { result ≡ (has_tail (map lower self.now.text.now) && is_closed (map lower self.now.text.now)) }
    {
        if self.text.len() - self.at < TAIL {
            return false;
        }
        is_closed(table, self.data(), fold_human(self.head()))
    }

    // The name of a text of the kind, by what stands before its tail.
    fn name(&self, kind: TextKind) -> Option<Name>
        ensures { IsGiven result (name_at (form_of kind) self.now.text.now) }
    {
        if LONGEST < self.text.len()
            || self.text.len() - self.at < TAIL
            || !is_cased(kind, self.text)
        {
            return None;
        }
        name_in(kind, self.head())
    }

    // What is wrong with the tail: 16 for a byte outside the alphabet, 21, or 22. The alphabet is looked through only where the checksum does not hold.
    fn judge_tail(&self, table: &[u8; 256]) -> Result<(), Refusal>
        requires values { Values table.now }
        requires in_bounds { separator self.now.text.now + 7 ≤ length self.now.text.now }
        ensures { verdict_said result ≡ tail_number (map lower self.now.text.now) }
    {
        if self.is_checked(table) {
            if is_whole(table, self.payload()) {
                return Ok(());
            }
            return Err(Refusal::LeftoverBits);
        }
        if are_characters(table, self.data()) {
            return Err(Refusal::BadChecksum);
        }
        Err(Refusal::Malformed)
    }

    // The place of the first byte outside 33 to 126 or, behind the separator, outside the alphabet; the length where there is none.
    fn place(&self) -> usize
        ensures { result ≡ place_in self.now.text.now }
    {
        let graphic = graphic_run(self.text);
        if graphic <= self.at {
            return graphic;
        }
        graphic.min(self.at + 1 + character_run(&values(), self.data()))
    }

    // A refusal, with the place where it is 16.
    fn refuse(&self, r: Refusal) -> ReadFault
        ensures refusal { result.refusal ≡ r }
        ensures place { result.place ≡ pick (eqb (number_of r) 16) (Some (place_in self.now.text.now)) None }
    {
        let place = match r {
            Refusal::Malformed => Some(self.place()),
            _ => None,
        };
        ReadFault {
            refusal: r,
            place: place,
        }
    }
}

// Whether a text's checksum holds, and no letters of both cases are in it.
pub fn holds(text: &[u8]) -> bool
    ensures { result ≡ is_sound text.now }
{
    is_one_case(text) && Separated::of(text).is_checked(&values())
}

// How many bytes from 33 to 126 stand at a text's front.
fn graphic_run(text: &[u8]) -> usize
    ensures { result ≡ run is_graphic text.now }
{
    text.iter().take_while(|b| b.is_ascii_graphic()).count()
}

// The payload of a text of the kind at the front of `out`, and its name: 16 with the place, 21 or 22 if it isn't one, then 15; nothing written then.
pub fn read(kind: TextKind, text: &[u8], out: &mut [u8]) -> Result<ReadText, ReadFault>
    ensures answer { read_said result ≡ read_answer (parse (form_of kind) text.now) out.old }
    ensures place { place_said result ≡ place_given (parse (form_of kind) text.now) }
    ensures name { IsNamed result (read_name (parse (form_of kind) text.now) out.old) }
    ensures buffer { out.new ≡ read_buffer (parse (form_of kind) text.now) out.old }
{
    let text = Separated::of(text);
    let Some(name) = text.name(kind) else {
        return Err(text.refuse(Refusal::Malformed));
    };
    let table = values();
    // Not `map_err(|r| text.refuse(r))?`: tried, and the proof didn't close, since nothing of `refuse` comes with the closure.
    if let Err(r) = text.judge_tail(&table) {
        return Err(text.refuse(r));
    }
    let payload = text.payload();
    let n = bytes_length(payload.len());
    if out.len() < n {
        return Err(ReadFault {
            refusal: Refusal::ShortOutput,
            place: None,
        });
    }
    decode(&table, payload, out);
    Ok(ReadText {
        length: n,
        name: name,
    })
}

// What the reader says of a text of the kind, of any plugin: nothing, or 16, 21, 22.
pub fn judge(kind: TextKind, text: &[u8]) -> Result<(), Refusal>
    ensures { verdict_said result ≡ text_number (parse (form_of kind) text.now) }
{
    let text = Separated::of(text);
    if text.name(kind).is_none() {
        return Err(Refusal::Malformed);
    }
    let table = values();
    text.judge_tail(&table)
}

// The mark of a text of the kind for a plugin's name, in either case: 16 where it has no human part of that name; else what the reader says.
pub fn mark(kind: TextKind, text: &[u8], plugin: &[u8]) -> Result<(), Refusal>
    ensures { verdict_said result ≡ mark_of (parse (form_of kind) text.now) plugin.now }
{
    let text = Separated::of(text);
    let Some(name) = text.name(kind) else {
        return Err(Refusal::Malformed);
    };
    if !is_lowered(plugin, &name.bytes[..name.length]) {
        return Err(Refusal::Malformed);
    }
    let table = values();
    text.judge_tail(&table)
}
