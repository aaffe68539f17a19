// The parts of a stanza that was read: the arguments' text, with no copy, and the body, decoded. Of a text and a `Stanza` that do not belong
// together they make what the definitions say.
ghost use Rattle.std.specs.Prelude.{◌≡◌, ◌+◌, take, drop};
ghost use Rattle.refusal.specs.Output.{said, answered, filled};
ghost use Rattle.stanza.specs.Parts.{arguments_in, lines_in, body_in};

use crate::FRONT;
use crate::reading::Stanza;
use refusal::Refusal;

// The text of the arguments, a part of the stanza's text: between "-> " and the first LF.
pub fn arguments_of<'a>(text: &'a [u8], s: Stanza) -> &'a [u8]
    ensures { result.now ≡ arguments_in text.now s }
{
    let end = s.line.min(text.len());
    let from = end.min(FRONT);
    &text[from..end]
}

// The decoded body at the front of `out`: how many bytes, or 15 and nothing written.
pub fn body_of(text: &[u8], s: Stanza, out: &mut [u8]) -> Result<usize, Refusal>
    ensures answer { said result ≡ answered (body_in text.now s) out.old }
    ensures buffer { out.new ≡ filled (body_in text.now s) out.old }
{
    strict_base64::decode_lines(lines_of(text, s), out)
}

// The lines of base64 that the body is, a part of the stanza's text.
pub fn lines_of<'a>(text: &'a [u8], s: Stanza) -> &'a [u8]
    ensures { result.now ≡ lines_in text.now s }
{
    let end = s.taken.min(text.len());
    if s.line < end {
        let from = s.line + 1;
        return &text[from..end];
    }
    &text[end..end]
}
