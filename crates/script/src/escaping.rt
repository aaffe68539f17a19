// Printing a byte string as a word: its length first, then the bytes, so that nothing is written where they do not fit.
ghost use Rattle.std.specs.Prelude.{◌≡◌, ◌++◌, ◌+◌, ◌≤◌, ◌<◌, length, drop};
ghost use Rattle.std.proofs.lemmas.List.Edits.{sets};
ghost use Rattle.refusal.specs.Output.{said, answered, filled};
ghost use Rattle.script.specs.Escape.{hex_digit, letter_of, some_letter, printed, spelled, escaped, sized};

use refusal::Refusal;
use stanza::is_graphic;

// A hex digit of a value below 16.
#[tactic(auto, unfolding(crate::specs::Escape::hex_digit))]
fn hex_digit(v: u8) -> u8
    requires { v < 16 }
    ensures { result ≡ hex_digit v }
{
    if v < 10 {
        return b'0' + v;
    }
    b'a' - 10 + v
}

// The letter of a byte that has one.
#[tactic(auto, unfolding(crate::specs::Escape::letter_of))]
fn letter_of(b: u8) -> Option<u8>
    ensures { result ≡ some_letter (letter_of b) }
{
    match b {
        b' ' => Some(b's'),
        b'\n' => Some(b'n'),
        b'\\' => Some(b'\\'),
        _ => None,
    }
}

// How many bytes print a byte. It stays apart from `put`: one function for both would give the bytes in an array with their length beside it.
fn width(b: u8) -> usize
    ensures { result ≡ length (printed b) }
{
    match letter_of(b) {
        Some(_) => 2,
        None if is_graphic(b) => 1,
        None => 4,
    }
}

// A byte printed at `at`, where it has space; where the next one goes.
fn put(b: u8, out: &mut [u8], at: usize) -> usize
    requires { at + length (printed b) ≤ length out.old }
    ensures next { result ≡ at + length (printed b) }
    ensures buffer { out.new ≡ sets out.old at (printed b) }
{
    if let Some(letter) = letter_of(b) {
        out[at..at + 2].copy_from_slice(&[b'\\', letter]);
        return at + 2;
    }
    if is_graphic(b) {
        out[at] = b;
        return at + 1;
    }
    let digits = [b'\\', b'x', hex_digit(b / 16), hex_digit(b % 16)];
    out[at..at + 4].copy_from_slice(&digits);
    at + 4
}

// How many bytes print some bytes, or 15 where that is more than `limit`. It stays apart from `spell`: a pass over no buffer, as unescaping has it,
// would count past the limit, and the sum could wrap.
fn spelled_length(bytes: &[u8], limit: usize) -> Result<usize, Refusal>
    ensures { said result ≡ sized (length (spelled bytes.now)) limit }
{
    let mut n: usize = 0;
    for &b in bytes {
        let w = width(b);
        if limit - n < w {
            return Err(Refusal::ShortOutput);
        }
        n += w;
    }
    Ok(n)
}

// Some bytes printed at the front of `out`, which is long enough.
fn spell(bytes: &[u8], out: &mut [u8])
    requires { length (spelled bytes.now) ≤ length out.old }
    ensures { out.new ≡ spelled bytes.now ++ drop (length (spelled bytes.now)) out.old }
{
    let mut n: usize = 0;
    for &b in bytes {
        n = put(b, out, n);
    }
}

// The word of a byte string at the front of `out`: how many bytes, or 15 and nothing written.
pub fn escape(bytes: &[u8], out: &mut [u8]) -> Result<usize, Refusal>
    ensures answer { said result ≡ answered (escaped bytes.now) out.old }
    ensures buffer { out.new ≡ filled (escaped bytes.now) out.old }
{
    if bytes.is_empty() {
        if out.len() < 2 {
            return Err(Refusal::ShortOutput);
        }
        out[..2].copy_from_slice(b"\\e");
        return Ok(2);
    }
    let w = spelled_length(bytes, out.len());
    match w {
        Err(_) => w,
        Ok(_) => {
            spell(bytes, out);
            w
        }
    }
}
