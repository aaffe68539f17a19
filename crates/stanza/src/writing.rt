// Writing a stanza into a lent buffer, from the text of its arguments and its body. Whether it can be written is decided first.
ghost use Rattle.std.specs.Prelude.{◌≡◌, ◌∷◌, ◌++◌, ◌+◌, ◌≤◌, length, drop};
ghost use Rattle.refusal.specs.Output.{said, answered, filled};
ghost use Rattle.stanza.specs.Arguments.{line_with};
ghost use Rattle.stanza.specs.Grammar.{first_line, stanza_text};
ghost use Rattle.stanza.specs.Writing.{sized, written, buffer_after};

use crate::arguments::is_line;
use crate::{AROUND, FRONT, LONGEST};
use refusal::Refusal;

// How many bytes a stanza has, or 17 where arguments and body make no stanza of at most 8,192 bytes. `line` is the arguments' text, the command first.
pub fn size(line: &[u8], body: &[u8]) -> Result<usize, Refusal>
    ensures { said result ≡ sized line.now body.now }
{
    if !is_line(line) {
        return Err(Refusal::Unwritable);
    }
    // No sum below can wrap then.
    if LONGEST < line.len() {
        return Err(Refusal::Unwritable);
    }
    if LONGEST < body.len() {
        return Err(Refusal::Unwritable);
    }
    let n = line.len() + AROUND + strict_base64::lines_length(body);
    if LONGEST < n {
        return Err(Refusal::Unwritable);
    }
    Ok(n)
}

// A stanza at the front of `out`: how many bytes, or 17 as above, or 15; nothing is written then.
pub fn write(line: &[u8], body: &[u8], out: &mut [u8]) -> Result<usize, Refusal>
    ensures answer { said result ≡ written line.now body.now out.old }
    ensures buffer { out.new ≡ buffer_after line.now body.now out.old }
{
    let size = size(line, body);
    match size {
        Err(_) => size,
        Ok(n) => {
            if out.len() < n {
                return Err(Refusal::ShortOutput);
            }
            write_into(line, body, out);
            size
        }
    }
}

// The same where the buffer is long enough.
fn write_into(line: &[u8], body: &[u8], out: &mut [u8])
    requires { length (stanza_text line.now body.now) ≤ length out.old }
    ensures { out.new ≡
        stanza_text line.now body.now ++ drop (length (stanza_text line.now body.now)) out.old }
{
    write_line(line, out);
    let at = line.len() + AROUND;
    let _ = strict_base64::encode_lines(body, &mut out[at..]);
}

// "-> ", the arguments and LF.
fn write_line(line: &[u8], out: &mut [u8])
    requires { length line.now + 4 ≤ length out.old }
    ensures { out.new ≡ first_line line.now ++ drop (length line.now + 4) out.old }
{
    copy(b"-> ", out);
    copy(line, &mut out[FRONT..]);
    let at = line.len() + FRONT;
    out[at] = b'\n';
}

// The arguments' text of a command and what stands behind it at the front of `out`: how many bytes, or 15 and nothing written.
pub fn join(command: &[u8], arguments: &[u8], out: &mut [u8]) -> Result<usize, Refusal>
    ensures answer { said result ≡ answered (line_with command.now arguments.now) out.old }
    ensures buffer { out.new ≡ filled (line_with command.now arguments.now) out.old }
{
    let n = command.len();
    let m = arguments.len();
    let capacity = out.len();
    if capacity < n {
        return Err(Refusal::ShortOutput);
    }
    let left = capacity - n;
    if m == 0 {
        copy(command, out);
        return Ok(n);
    }
    if left <= m {
        return Err(Refusal::ShortOutput);
    }
    join_into(command, arguments, out);
    Ok(n + 1 + m)
}

// The two with a space between them at the front of `out`, which is long enough.
fn join_into(command: &[u8], arguments: &[u8], out: &mut [u8])
    requires { length command.now + 1 + length arguments.now ≤ length out.old }
    ensures { out.new ≡
        (command.now ++ 32 ∷ arguments.now) ++ drop (length command.now + 1 + length arguments.now) out.old }
{
    let n = command.len();
    copy(command, out);
    out[n] = b' ';
    let from = n + 1;
    copy(arguments, &mut out[from..]);
}

// A part at the front of `out`; nothing where it is too short.
pub fn copy(part: &[u8], out: &mut [u8])
    ensures { out.new ≡ filled part.now out.old }
{
    if out.len() < part.len() {
        return;
    }
    // By index: `copy_from_slice` has the archive for C ask for `memmove`, which it did not need before.
    for i in 0..part.len() {
        out[i] = part[i];
    }
}
