// Reading a stanza that comes in pieces: where the reading stands between two of them, and reading on from there, so that no byte is read twice.
ghost use Rattle.std.specs.Prelude.{◌≡◌};
ghost use Rattle.refusal.specs.Pick.{pick};
ghost use Rattle.strict_base64.specs.Alphabet.{value_of};
ghost use Rattle.stanza.specs.Automaton.{word, line, dead, next};
ghost use Rattle.stanza.specs.Resuming.{place_said, continued_said, continued};

use crate::LONGEST;
use crate::arguments::is_graphic;
use refusal::Refusal;

// Where the reading of a stanza stands.
#[derive(Clone, Copy)]
pub enum Place {
    // before "-", before ">" and before the space of "-> "
    Start,
    Hyphen,
    Arrow,
    // before an argument, and in one
    Gap,
    Word,
    // in a body line: how many characters it has so far, and the last of them, 0 where there is none
    Line(usize, u8),
    // behind the stanza
    Ended,
    // no stanza goes on so
    Dead,
}

// Where reading on comes to: the stanza has ended behind so many of the bytes, or where the reading stands.
#[derive(Clone, Copy)]
pub enum Continued {
    Whole(usize),
    Unfinished(Place),
}

// Reads on from a place, behind `kept` bytes of the same stanza. 1 or 3 where it is refused.
pub fn read_on(place: Place, kept: usize, bytes: &[u8]) -> Result<Continued, Refusal>
    ensures { continued_said result ≡ continued (place_said place) kept bytes.now }
{
    let left = LONGEST.saturating_sub(kept);
    let n = left.min(bytes.len());
    let mut at = place;
    for (i, &b) in bytes[..n].iter().enumerate() {
        at = next_place(at, b);
        match at {
            Place::Dead => return Err(Refusal::NotStanza),
            Place::Ended => return Ok(Continued::Whole(i + 1)),
            _ => {}
        }
    }
    if n == left {
        return Err(Refusal::TooLong);
    }
    Ok(Continued::Unfinished(at))
}

// One byte on.
fn next_place(place: Place, b: u8) -> Place
    ensures { place_said result ≡ next (place_said place) b }
{
    match place {
        Place::Start => place_if(b == b'-', Place::Hyphen),
        Place::Hyphen => place_if(b == b'>', Place::Arrow),
        Place::Arrow => place_if(b == b' ', Place::Gap),
        Place::Gap => place_if(is_graphic(b), Place::Word),
        Place::Word => next_in_word(b),
        Place::Line(k, last) => next_in_line(k, last, b),
        Place::Ended => Place::Dead,
        Place::Dead => Place::Dead,
    }
}

// The place that a byte leads to if it passes its test.
fn place_if(test: bool, place: Place) -> Place
    ensures { place_said result ≡ pick test (place_said place) dead }
{
    if test { place } else { Place::Dead }
}

// One byte on in an argument.
fn next_in_word(b: u8) -> Place
    ensures { place_said result ≡ next word b }
{
    if is_graphic(b) {
        return Place::Word;
    }
    if b == b' ' {
        return Place::Gap;
    }
    if b == b'\n' {
        return Place::Line(0, 0);
    }
    Place::Dead
}

// One byte on in a body line of k characters, the last of them `last`.
fn next_in_line(k: usize, last: u8, b: u8) -> Place
    ensures { place_said result ≡ next (line k (value_of last)) b }
{
    if strict_base64::is_character(b) {
        if k < strict_base64::LINE_CHARACTERS {
            return Place::Line(k + 1, b);
        }
        return Place::Dead;
    }
    if b != b'\n' {
        return Place::Dead;
    }
    if k == strict_base64::LINE_CHARACTERS {
        return Place::Line(0, 0);
    }
    if strict_base64::ends_well(k, last) {
        return Place::Ended;
    }
    Place::Dead
}
