// Decoding: whether a text is base64 and how many bytes it makes, and the bytes of a text.
ghost use Rattle.std.specs.Prelude.{◌≡◌, ◌≤◌, ◌<◌, length, drop, ◌++◌};
ghost use Rattle.strict_base64.specs.Code.{decoded, measured, size_said};
ghost use Rattle.strict_base64.specs.Tables.{decoded_size};
ghost use Rattle.refusal.specs.Output.{said, answered, filled};

use crate::alphabet::{characters, ends_well, value};
use refusal::Refusal;

// How many bytes a text decodes to, or that it is no base64.
pub fn measure(text: &[u8]) -> Option<usize>
    ensures { size_said result ≡ measured text.now }
{
    let n = text.len();
    if n == 0 {
        return Some(0);
    }
    if characters(text, 0) < n {
        return None;
    }
    if ends_well(n, text[n - 1]) {
        return Some(decoded_length(n));
    }
    None
}

// How many bytes n characters make.
pub(crate) fn decoded_length(n: usize) -> usize
    ensures { result ≡ decoded_size n }
{
    n / 4 * 3 + n % 4 * 3 / 4
}

// The bytes of a text at the front of `out`: how many, or 15 and nothing written. Of a text that is no base64 it makes what the definition says.
pub fn decode(text: &[u8], out: &mut [u8]) -> Result<usize, Refusal>
    ensures answer { said result ≡ answered (decoded text.now) out.old }
    ensures buffer { out.new ≡ filled (decoded text.now) out.old }
{
    let n = decoded_length(text.len());
    if out.len() < n {
        return Err(Refusal::ShortOutput);
    }
    decode_into(text, out);
    Ok(n)
}

// The bytes of a text at the front of `out`, which is long enough; any text.
pub(crate) fn decode_into(text: &[u8], out: &mut [u8])
    requires { decoded_size (length text.now) ≤ length out.old }
    ensures { out.new ≡ decoded text.now ++ drop (length (decoded text.now)) out.old }
{
    let n = text.len() / 4;
    for i in 0..n {
        let a = value(text[4 * i]);
        let b = value(text[4 * i + 1]);
        let c = value(text[4 * i + 2]);
        let d = value(text[4 * i + 3]);
        out[3 * i] = a * 4 + b / 16;
        out[3 * i + 1] = b % 16 * 16 + c / 4;
        out[3 * i + 2] = c % 4 * 64 + d;
    }
    decode_rest(&text[4 * n..], &mut out[3 * n..]);
}

// The same for a text of fewer than four characters.
fn decode_rest(text: &[u8], out: &mut [u8])
    requires text_len_bound { length text.now < 4 }
    requires text_in_bounds { decoded_size (length text.now) ≤ length out.old }
    ensures { out.new ≡ decoded text.now ++ drop (length (decoded text.now)) out.old }
{
    let n = text.len();
    if n < 2 {
        return;
    }
    let a = value(text[0]);
    let b = value(text[1]);
    out[0] = a * 4 + b / 16;
    if n == 3 {
        let c = value(text[2]);
        out[1] = b % 16 * 16 + c / 4;
    }
}
