// Base64 in lines of 64 characters: a stanza's body. Reading it is total: of bytes that are no such lines it makes what the definition says.
ghost use Rattle.std.specs.Prelude.{◌≡◌, ◌<◌, ◌≤◌, ◌+◌, ◌/◌, length, take, drop, ◌++◌};
ghost use Rattle.strict_base64.specs.Lines.{lines_of, body_of, is_full};
ghost use Rattle.strict_base64.specs.Tables.{body_size, encoded_size};
ghost use Rattle.refusal.specs.Output.{said, answered, filled};

use crate::alphabet::is_character;
use crate::decoding::{decode_into, decoded_length};
use crate::encoding::{encode_into, encoded_length};
use crate::runs::are_all;
use refusal::Refusal;

// A full line: its characters, its bytes with the LF, and how many bytes of the body it has.
pub const LINE_CHARACTERS: usize = 64;

pub const LINE_LENGTH: usize = LINE_CHARACTERS + 1;

const LINE_BYTES: usize = 48;

// Whether a full line stands at `at`: 64 characters and an LF.
pub fn full_line(text: &[u8], at: usize) -> bool
    ensures { result ≡ is_full (drop at text.now) }
{
    let n = text.len();
    if n < at {
        return false;
    }
    if n - at < LINE_LENGTH {
        return false;
    }
    if !are_all(&text[at..at + LINE_CHARACTERS], &is_character) {
        return false;
    }
    text[at + LINE_CHARACTERS] == b'\n'
}

// How many bytes the body of n bytes of lines has.
pub fn body_length(n: usize) -> usize
    ensures { result ≡ body_size n }
{
    if n == 0 {
        return 0;
    }
    let m = n - 1;
    decoded_length(m - m / LINE_LENGTH)
}

// The body of some lines at the front of `out`: how many bytes, or 15 and nothing written.
pub fn decode_lines(lines: &[u8], out: &mut [u8]) -> Result<usize, Refusal>
    ensures answer { said result ≡ answered (body_of lines.now) out.old }
    ensures buffer { out.new ≡ filled (body_of lines.now) out.old }
{
    let n = body_length(lines.len());
    if out.len() < n {
        return Err(Refusal::ShortOutput);
    }
    body_into(lines, out);
    Ok(n)
}

// The same where the buffer is long enough: line by line, the last without its LF.
fn body_into(lines: &[u8], out: &mut [u8])
    requires { body_size (length lines.now) ≤ length out.old }
    ensures { out.new ≡ body_of lines.now ++ drop (length (body_of lines.now)) out.old }
{
    let n = lines.len();
    if n == 0 {
        return;
    }
    let full = (n - 1) / LINE_LENGTH;
    for i in 0..full {
        let a = LINE_LENGTH * i;
        let e = a + LINE_CHARACTERS;
        let b = LINE_BYTES * i;
        decode_into(&lines[a..e], &mut out[b..]);
    }
    let a = LINE_LENGTH * full;
    let e = n - 1;
    let b = LINE_BYTES * full;
    decode_into(&lines[a..e], &mut out[b..]);
}

// How many bytes the lines of a body have.
pub fn lines_length(body: &[u8]) -> usize
    ensures { result ≡ length (lines_of body.now) }
{
    let c = encoded_length(body);
    c + c / LINE_CHARACTERS + 1
}

// The lines of a body at the front of `out`: how many bytes, or 15 and nothing written.
pub fn encode_lines(body: &[u8], out: &mut [u8]) -> Result<usize, Refusal>
    ensures answer { said result ≡ answered (lines_of body.now) out.old }
    ensures buffer { out.new ≡ filled (lines_of body.now) out.old }
{
    let n = lines_length(body);
    if out.len() < n {
        return Err(Refusal::ShortOutput);
    }
    lines_into(body, out);
    Ok(n)
}

// The same where the buffer is long enough: 48 bytes to a full line, and the rest to the last.
fn lines_into(body: &[u8], out: &mut [u8])
    requires { encoded_size (length body.now) + encoded_size (length body.now) / 64 + 1 ≤ length out.old }
    ensures { out.new ≡ lines_of body.now ++ drop (length (lines_of body.now)) out.old }
{
    let full = body.len() / LINE_BYTES;
    for i in 0..full {
        let a = LINE_BYTES * i;
        let e = a + LINE_BYTES;
        let b = LINE_LENGTH * i;
        encode_into(&body[a..e], &mut out[b..]);
        let end = b + LINE_CHARACTERS;
        out[end] = b'\n';
    }
    let a = LINE_BYTES * full;
    let b = LINE_LENGTH * full;
    last_line(&body[a..], &mut out[b..]);
}

// The last line, of fewer than 48 bytes.
fn last_line(body: &[u8], out: &mut [u8])
    requires body_len_bound { length body.now < 48 }
    requires body_in_bounds { encoded_size (length body.now) + 1 ≤ length out.old }
    ensures { out.new ≡ lines_of body.now ++ drop (length (lines_of body.now)) out.old }
{
    let n = encoded_length(body);
    encode_into(body, out);
    out[n] = b'\n';
}
