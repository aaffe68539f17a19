// Reading a word: its byte string, by a pass with no buffer, which checks and measures, and one that writes, so that nothing is written where it is refused.
// Both go byte by byte through the same states; specs/Escape has them.
ghost use Rattle.std.specs.Prelude.{◌≡◌, true};
ghost use Rattle.script.specs.Escape.{hex_value, some_digit, plain, letter, effect, state_said, step_said, unescaped, measured, size_said, fits, unescaped_said, answered_by, filled_by};

use refusal::Refusal;
use stanza::is_graphic;

// Where a reader stands: between two escapes, behind a backslash, or behind "\x", and maybe a digit of this value. Three variants, which are told apart by
// comparing: with the digit as a fourth each byte took a jump through a table, and words of escapes took 1.4 times as long.
#[derive(Clone, Copy)]
enum State {
    Plain,
    Escape,
    Hex(Option<u8>),
}

// What a byte does to a reader: it takes it to a state, or it completes a byte of the string.
#[derive(Clone, Copy)]
enum Step {
    Moves(State),
    Gives(u8),
}

// The value of a hex digit of either case.
#[tactic(auto, unfolding(crate::specs::Escape::hex_value))]
fn hex_value(b: u8) -> Option<u8>
    ensures { result ≡ some_digit (hex_value b) }
{
    match b {
        b'0'..=b'9' => Some(b - b'0'),
        b'a'..=b'f' => Some(b - b'a' + 10),
        b'A'..=b'F' => Some(b - b'A' + 10),
        _ => None,
    }
}

// A byte between two escapes.
#[tactic(auto, unfolding(crate::specs::Escape::plain))]
fn read_plain(b: u8) -> Option<Step>
    ensures { step_said result ≡ plain b }
{
    if b == b'\\' {
        return Some(Step::Moves(State::Escape));
    }
    if is_graphic(b) {
        return Some(Step::Gives(b));
    }
    None
}

// A byte behind a backslash.
#[tactic(auto, unfolding(crate::specs::Escape::letter))]
fn read_letter(b: u8) -> Option<Step>
    ensures { step_said result ≡ letter b }
{
    match b {
        b's' => Some(Step::Gives(b' ')),
        b'n' => Some(Step::Gives(b'\n')),
        b'\\' => Some(Step::Gives(b'\\')),
        b'e' => Some(Step::Moves(State::Plain)),
        b'x' => Some(Step::Moves(State::Hex(None))),
        _ => None,
    }
}

// A byte in any state, or none where no word goes on so.
#[tactic(auto, unfolding(crate::specs::Escape::effect, crate::specs::Escape::digit))]
fn read_byte(state: State, b: u8) -> Option<Step>
    ensures { step_said result ≡ effect (state_said state) b }
{
    match state {
        State::Plain => read_plain(b),
        State::Escape => read_letter(b),
        State::Hex(None) => {
            let v = hex_value(b)?;
            Some(Step::Moves(State::Hex(Some(v))))
        }
        State::Hex(Some(first)) => {
            let v = hex_value(b)?;
            // The remainder is `first` itself, which the state's type does not say.
            Some(Step::Gives(first % 16 * 16 + v))
        }
    }
}

// How many bytes a word stands for, if it is one; they come to the front of `out` where it has space for all of them.
fn unescape_into(word: &[u8], out: &mut [u8]) -> Option<usize>
    ensures size { size_said result ≡ measured (unescaped word.now) }
    ensures buffer { fits (unescaped word.now) out.old ≡ true →
        out.new ≡ filled_by (unescaped word.now) out.old }
{
    let mut state = State::Plain;
    let mut n: usize = 0;
    for &b in word {
        let step = read_byte(state, b)?;
        match step {
            Step::Moves(next) => state = next,
            Step::Gives(byte) => {
                state = State::Plain;
                if n < out.len() {
                    out[n] = byte;
                }
                n += 1;
            }
        }
    }
    match state {
        State::Plain => Some(n),
        _ => None,
    }
}

// The bytes of a word at the front of `out`: how many, or 15, or that it is no word; nothing is written then.
pub fn unescape(word: &[u8], out: &mut [u8]) -> Option<Result<usize, Refusal>>
    ensures answer { unescaped_said result ≡ answered_by (unescaped word.now) out.old }
    ensures buffer { out.new ≡ filled_by (unescaped word.now) out.old }
{
    let n = unescape_into(word, &mut [])?;
    if out.len() < n {
        return Some(Err(Refusal::ShortOutput));
    }
    unescape_into(word, out);
    Some(Ok(n))
}
