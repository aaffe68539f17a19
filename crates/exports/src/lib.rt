// The library for C and Rust (a static library): a slice is a pointer and a length, and a reference to a number is a pointer.
// Each function returns the paper's number, 0 where nothing was refused; its other results go to numbers and buffers that the caller lends,
// and a refused call leaves all of these as they were. There is no `requires`: any text, numbers and lengths will do. What a reference is stays
// the caller's to keep, as in Rust: no null pointer, also with a length of 0, and what is lent to be written overlaps nothing else.
#![tactic(auto)]

ghost use Rattle.std.specs.Prelude.{◌≡◌};
ghost use Rattle.stanza.specs.Index.{read_index};
ghost use Rattle.stanza.specs.Reading.{read_first};
ghost use Rattle.stanza.specs.Writing.{written, buffer_after};
ghost use Rattle.bech32.specs.Text.{recipient, identity, parse};
ghost use Rattle.bech32.specs.Calls.{form_of, read_answer, read_place, read_buffer, write_answer, write_buffer};
ghost use Rattle.refusal.specs.Output.{said, answered, filled};
ghost use Rattle.identity_file.specs.Files.{file_answer, file_buffer, keys_given, faults_given, faults_listed};
ghost use Rattle.exports.specs.Results.{number_in, length_or, count_or, body_at};
ghost use Rattle.exports.specs.Results.{read_number, line_or, body_or, taken_or};
ghost use Rattle.exports.specs.Results.{index_number, value_or};
ghost use Rattle.exports.specs.Results.{name_or, named_or};

use bech32::{LONGEST_NAME, TextKind};
use identity_file::MOST_FAULTS;
use refusal::Refusal;
use stanza::Stanza;

// No refusal.
const ACCEPTED: u8 = 0;

// What writing to a lent buffer came to: the number, and how many bytes where nothing was refused.
fn tell(w: Result<usize, Refusal>, length: &mut usize) -> u8
    ensures number { result ≡ number_in (said w) }
    ensures length { length.new ≡ length_or length.old (said w) }
{
    match w {
        Ok(n) => {
            *length = n;
            ACCEPTED
        }
        Err(r) => refusal::number(r),
    }
}

// The first stanza of a text: where the LF of its first line stands, so that its arguments are text[3..line]; how many bytes its body
// has; and how many bytes of the text it is. Or 1, 2 or 3.
#[unsafe(no_mangle)]
pub extern "C" fn flugremio_read(
    text: &[u8],
    line: &mut usize,
    body: &mut usize,
    taken: &mut usize,
) -> u8
    ensures number { result ≡ read_number (read_first text.now) }
    ensures line { line.new ≡ line_or line.old (read_first text.now) }
    ensures body { body.new ≡ body_or body.old (read_first text.now) }
    ensures taken { taken.new ≡ taken_or taken.old (read_first text.now) }
{
    let first = stanza::read(text);
    match first {
        Ok(s) => {
            *line = s.line;
            *body = s.body;
            *taken = s.taken;
            ACCEPTED
        }
        Err(r) => refusal::number(r),
    }
}

// The decoded body of a stanza that flugremio_read found, at the front of `out`, and how many bytes that is. Or 15.
// Of a text and numbers that do not belong together it makes what the definition says.
#[unsafe(no_mangle)]
pub extern "C" fn flugremio_body(
    text: &[u8],
    line: usize,
    taken: usize,
    out: &mut [u8],
    length: &mut usize,
) -> u8
    ensures number { result ≡ number_in (answered (body_at text.now line taken) out.old) }
    ensures buffer { out.new ≡ filled (body_at text.now line taken) out.old }
    ensures length { length.new ≡ length_or length.old (answered (body_at text.now line taken) out.old) }
{
    let s = Stanza {
        line,
        body: 0,
        taken,
    };
    let w = stanza::body_of(text, s, out);
    tell(w, length)
}

// A stanza with these arguments, separated by single spaces, the command first, and this body, at the front of `out`, and how many bytes
// that is. Or 17, then 15.
#[unsafe(no_mangle)]
pub extern "C" fn flugremio_write(
    arguments: &[u8],
    body: &[u8],
    out: &mut [u8],
    length: &mut usize,
) -> u8
    ensures number { result ≡ number_in (written arguments.now body.now out.old) }
    ensures buffer { out.new ≡ buffer_after arguments.now body.now out.old }
    ensures length { length.new ≡ length_or length.old (written arguments.now body.now out.old) }
{
    let w = stanza::write(arguments, body, out);
    tell(w, length)
}

// The index that a text is. Or 5.
#[unsafe(no_mangle)]
pub extern "C" fn flugremio_index(text: &[u8], value: &mut u32) -> u8
    ensures number { result ≡ index_number (read_index text.now) }
    ensures value { value.new ≡ value_or value.old (read_index text.now) }
{
    let i = stanza::read_index(text);
    match i {
        Ok(n) => {
            *value = n;
            ACCEPTED
        }
        Err(r) => refusal::number(r),
    }
}

// The recipient that a text is: its name in lower case at the front of `name`, zeros behind it, and how many bytes the name has; its payload
// at the front of `out`, and how many bytes that is. Or 16, with the place, 21 or 22, then 15; the place is 0 but with 16.
#[unsafe(no_mangle)]
pub extern "C" fn flugremio_read_recipient(
    text: &[u8],
    name: &mut [u8; LONGEST_NAME],
    named: &mut usize,
    out: &mut [u8],
    length: &mut usize,
    place: &mut usize,
) -> u8
    ensures number { result ≡ number_in (read_answer (parse recipient text.now) out.old) }
    ensures name { name.new ≡ name_or name.old (parse recipient text.now) out.old }
    ensures named { named.new ≡ named_or named.old (parse recipient text.now) out.old }
    ensures buffer { out.new ≡ read_buffer (parse recipient text.now) out.old }
    ensures length { length.new ≡ length_or length.old (read_answer (parse recipient text.now) out.old) }
    ensures place { place.new ≡ read_place (parse recipient text.now) }
{
    read_text(TextKind::Recipient, text, name, named, out, length, place)
}

// The same for an identity; its name is given in lower case too.
#[unsafe(no_mangle)]
pub extern "C" fn flugremio_read_identity(
    text: &[u8],
    name: &mut [u8; LONGEST_NAME],
    named: &mut usize,
    out: &mut [u8],
    length: &mut usize,
    place: &mut usize,
) -> u8
    ensures number { result ≡ number_in (read_answer (parse identity text.now) out.old) }
    ensures name { name.new ≡ name_or name.old (parse identity text.now) out.old }
    ensures named { named.new ≡ named_or named.old (parse identity text.now) out.old }
    ensures buffer { out.new ≡ read_buffer (parse identity text.now) out.old }
    ensures length { length.new ≡ length_or length.old (read_answer (parse identity text.now) out.old) }
    ensures place { place.new ≡ read_place (parse identity text.now) }
{
    read_text(TextKind::Identity, text, name, named, out, length, place)
}

// The same for a text of the kind. Its parameters are no struct: they are those of the C functions.
fn read_text(
    kind: TextKind,
    text: &[u8],
    name: &mut [u8; LONGEST_NAME],
    named: &mut usize,
    out: &mut [u8],
    length: &mut usize,
    place: &mut usize,
) -> u8
    ensures number { result ≡ number_in (read_answer (parse (form_of kind) text.now) out.old) }
    ensures name { name.new ≡ name_or name.old (parse (form_of kind) text.now) out.old }
    ensures named { named.new ≡ named_or named.old (parse (form_of kind) text.now) out.old }
    ensures buffer { out.new ≡ read_buffer (parse (form_of kind) text.now) out.old }
    ensures length { length.new ≡ length_or length.old (read_answer (parse (form_of kind) text.now) out.old) }
    ensures place { place.new ≡ read_place (parse (form_of kind) text.now) }
{
    match bech32::read(kind, text, out) {
        Ok(reading) => {
            let found = reading.name;
            let bytes = found.bytes;
            *name = bytes;
            *named = found.length;
            *length = reading.length;
            *place = 0;
            ACCEPTED
        }
        Err(fault) => {
            *place = fault.place.unwrap_or(0);
            refusal::number(fault.refusal)
        }
    }
}

// The recipient of a name in lower case and a payload, at the front of `out`, and how many bytes that is. Or 17, then 15.
#[unsafe(no_mangle)]
pub extern "C" fn flugremio_write_recipient(
    name: &[u8],
    payload: &[u8],
    out: &mut [u8],
    length: &mut usize,
) -> u8
    ensures number { result ≡ number_in (write_answer recipient name.now payload.now out.old) }
    ensures buffer { out.new ≡ write_buffer recipient name.now payload.now out.old }
    ensures length { length.new ≡
        length_or length.old (write_answer recipient name.now payload.now out.old) }
{
    write_text(TextKind::Recipient, name, payload, out, length)
}

// The same for an identity; its name is taken in lower case too.
#[unsafe(no_mangle)]
pub extern "C" fn flugremio_write_identity(
    name: &[u8],
    payload: &[u8],
    out: &mut [u8],
    length: &mut usize,
) -> u8
    ensures number { result ≡ number_in (write_answer identity name.now payload.now out.old) }
    ensures buffer { out.new ≡ write_buffer identity name.now payload.now out.old }
    ensures length { length.new ≡
        length_or length.old (write_answer identity name.now payload.now out.old) }
{
    write_text(TextKind::Identity, name, payload, out, length)
}

// The same for a text of the kind.
fn write_text(kind: TextKind, name: &[u8], payload: &[u8], out: &mut [u8], length: &mut usize) -> u8
    ensures number { result ≡ number_in (write_answer (form_of kind) name.now payload.now out.old) }
    ensures buffer { out.new ≡ write_buffer (form_of kind) name.now payload.now out.old }
    ensures length { length.new ≡
        length_or length.old (write_answer (form_of kind) name.now payload.now out.old) }
{
    let w = bech32::write(kind, name, payload, out);
    tell(w, length)
}

// The identities of an old identity file as commands of phase one at the front of `out`, ended by done, and how many bytes that is; how many secret keys were
// skipped, how many lines are invalid, and the first 64 of these, each with its refusal's number and its line's, counted from 0. Or 8, then 15.
#[unsafe(no_mangle)]
pub extern "C" fn flugremio_identity_file(
    text: &[u8],
    keys: &mut usize,
    invalid: &mut usize,
    faults: &mut [[usize; 2]; MOST_FAULTS],
    out: &mut [u8],
    length: &mut usize,
) -> u8
    ensures number { result ≡ number_in (file_answer text.now out.old) }
    ensures keys { keys.new ≡
        count_or keys.old (keys_given text.now out.old) (file_answer text.now out.old) }
    ensures invalid { invalid.new ≡
        count_or invalid.old (faults_given text.now out.old) (file_answer text.now out.old) }
    ensures faults { faults.new ≡ faults_listed text.now out.old faults.old }
    ensures buffer { out.new ≡ file_buffer text.now out.old }
    ensures length { length.new ≡ length_or length.old (file_answer text.now out.old) }
{
    let reading = identity_file::read(text, faults, out);
    let answer = reading.answer;
    match answer {
        Ok(n) => {
            *keys = reading.keys;
            *invalid = reading.invalid;
            *length = n;
            ACCEPTED
        }
        Err(r) => refusal::number(r),
    }
}
