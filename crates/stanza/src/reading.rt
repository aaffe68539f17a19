// Reading the first stanza of a text: one pass over at most 8,192 bytes, by runs of bytes of one class. Nothing is copied.
ghost use Rattle.std.specs.Prelude.{◌≡◌, ℕ, List, false, ◌+◌, ◌<◌, ◌≤◌, ltb, length, drop};
ghost use Rattle.refusal.specs.Number.{number_of};
ghost use Rattle.refusal.specs.Pick.{pick};
ghost use Rattle.strict_base64.specs.Lines.{is_full};
ghost use Rattle.stanza.specs.Automaton.{scan, start, gap, line};
ghost use Rattle.stanza.specs.Reading.{read_said, read_first, refused, found, line_end};
ghost use Rattle.stanza.specs.Steps.{fault_said, goes_on, EndsAt, body_said};

use crate::arguments::graphic_end;
use crate::{FRONT, LONGEST};
use refusal::Refusal;

// A stanza at the front of a text: its arguments are text[3..line], text[line] is the LF behind them, its body has `body` bytes in the
// lines text[line + 1..taken].
#[derive(Clone, Copy)]
pub struct Stanza {
    pub line: usize,
    pub body: usize,
    pub taken: usize,
}

// Why a part of a text has no end: no stanza goes on so, or the text is too short.
#[derive(Clone, Copy)]
enum Fault {
    Bad,
    Short,
}

// The first stanza of a text, or 1, 2 or 3.
pub fn read(text: &[u8]) -> Result<Stanza, Refusal>
    ensures { read_said result ≡ read_first text.now }
{
    let n = text.len().min(LONGEST);
    let w = &text[..n];
    let l = first_line(w);
    match l {
        Err(fault) => Err(refusal_of(fault, w.len())),
        Ok(e) => read_body(w, e),
    }
}

// The stanza of a window whose first line ends at e, by its body.
fn read_body(w: &[u8], e: usize) -> Result<Stanza, Refusal>
    requires w_value { line_end w.now ≡ e }
    requires e_in_bounds { e < length w.now }
    ensures { read_said result ≡ found (length w.now) w.now (scan (line 0 0) (e + 1) (drop (e + 1) w.now)) }
{
    let b = body_end(w, e + 1);
    match b {
        Err(fault) => Err(refusal_of(fault, w.len())),
        Ok(taken) => {
            let size = strict_base64::body_length(taken - e - 1);
            Ok(Stanza {
                line: e,
                body: size,
                taken: taken,
            })
        }
    }
}

// What a part without an end makes of a window of n bytes.
fn refusal_of(fault: Fault, n: usize) -> Refusal
    ensures { (w : List ℕ) → refused (number_of result) ≡ found n w (fault_said fault) }
{
    match fault {
        Fault::Bad => Refusal::NotStanza,
        Fault::Short => unfinished(n),
    }
}

// The fault of n bytes in which the stanza has not ended.
fn unfinished(n: usize) -> Refusal
    ensures { number_of result ≡ pick (ltb n 8192) 2 3 }
{
    if n < LONGEST {
        return Refusal::Unfinished;
    }
    Refusal::TooLong
}

// "-> " and the arguments up to their LF.
fn first_line(text: &[u8]) -> Result<usize, Fault>
    ensures text_value { scan start 0 text.now ≡ goes_on result text.now }
    ensures ends_at { EndsAt result (line_end text.now) (length text.now) }
{
    if text.starts_with(b"-> ") {
        return words(text, FRONT);
    }
    if b"-> ".starts_with(text) {
        return Err(Fault::Short);
    }
    Err(Fault::Bad)
}

// The arguments from `from` on, up to their LF.
fn words(text: &[u8], from: usize) -> Result<usize, Fault>
    requires { from ≤ length text.now }
    ensures text_value { scan gap from (drop from text.now) ≡ goes_on result text.now }
    ensures ends_at { EndsAt result (from + line_end (drop from text.now)) (length text.now) }
{
    // A turn passes over a word and the byte behind it, so that no `for` serves.
    let mut i = from;
    while i < text.len() {
        let e = graphic_end(text, i);
        if e == i {
            return Err(Fault::Bad);
        }
        if e == text.len() {
            return Err(Fault::Short);
        }
        let b = text[e];
        if b == b'\n' {
            return Ok(e);
        }
        if b != b' ' {
            return Err(Fault::Bad);
        }
        i = e + 1;
    }
    Err(Fault::Short)
}

// The body's lines from `from` on: full ones, and then the last.
fn body_end(text: &[u8], from: usize) -> Result<usize, Fault>
    requires { from ≤ length text.now }
    ensures { scan (line 0 0) from (drop from text.now) ≡ body_said result }
{
    // By index: `full_line` takes the text and a place, and a chain over chunks is no plainer.
    let mut i = from;
    while strict_base64::full_line(text, i) {
        i += strict_base64::LINE_LENGTH;
    }
    last_line(text, i)
}

// The line from `from` on, which is no full one.
fn last_line(text: &[u8], from: usize) -> Result<usize, Fault>
    requires from_in_bounds { from ≤ length text.now }
    requires text_value { is_full (drop from text.now) ≡ false }
    ensures { scan (line 0 0) from (drop from text.now) ≡ body_said result }
{
    let e = strict_base64::characters(text, from);
    let k = e - from;
    if strict_base64::LINE_CHARACTERS < k {
        return Err(Fault::Bad);
    }
    if e == text.len() {
        return Err(Fault::Short);
    }
    if text[e] != b'\n' {
        return Err(Fault::Bad);
    }
    if k == 0 {
        return Ok(e + 1);
    }
    if strict_base64::ends_well(k, text[e - 1]) {
        return Ok(e + 1);
    }
    Err(Fault::Bad)
}
