// What the client writes at once to a command of phase two that it accepts.
ghost use Rattle.std.specs.Prelude.{◌≡◌, length};
ghost use Rattle.refusal.specs.Output.{filled};
ghost use Rattle.conversation.specs.ReceivingTwo.{at_once, text_of, writes};
ghost use Rattle.phase_two_commands.specs.Commands.{command_said};
ghost use Rattle.phase_two.specs.AtOnce.{at_once_said};

use phase_two_commands::CommandTwo;
use refusal::Refusal;
use responses::Response;

// What a client with or without a screen answers at once.
pub fn answer_at_once(screen: bool, command: Result<CommandTwo, Refusal>) -> Option<Response>
    ensures { at_once_said result ≡ at_once screen (command_said command) }
{
    match command {
        Ok(CommandTwo::Ask(_)) => {
            if screen {
                return None;
            }
            Some(Response::Fail)
        }
        Ok(CommandTwo::Stanza(_)) => Some(Response::Ok),
        Ok(CommandTwo::Key(_)) => Some(Response::Ok),
        Ok(CommandTwo::Error(_)) => Some(Response::Ok),
        Ok(CommandTwo::Done) => None,
        Ok(CommandTwo::Other) => Some(Response::Unsupported),
        Err(_) => None,
    }
}

// The responses with no body, as they are written.
const OK: [u8; 7] = *b"-> ok\n\n";

const OK_YES: [u8; 11] = *b"-> ok yes\n\n";

const OK_NO: [u8; 10] = *b"-> ok no\n\n";

const FAIL: [u8; 9] = *b"-> fail\n\n";

const UNSUPPORTED: [u8; 16] = *b"-> unsupported\n\n";

// How many bytes a response with no body has.
fn size_of(response: Response) -> usize
    ensures { result ≡ length (text_of (writes response)) }
{
    match response {
        Response::Ok => 7,
        Response::Yes => 11,
        Response::No => 10,
        Response::Fail => 9,
        Response::Unsupported => 16,
    }
}

// A response with no body at the front of `out`; nothing where it is too short.
fn write_bare(response: Response, out: &mut [u8])
    ensures { out.new ≡ filled (text_of (writes response)) out.old }
{
    match response {
        Response::Ok => stanza::copy(&OK, out),
        Response::Yes => stanza::copy(&OK_YES, out),
        Response::No => stanza::copy(&OK_NO, out),
        Response::Fail => stanza::copy(&FAIL, out),
        Response::Unsupported => stanza::copy(&UNSUPPORTED, out),
    }
}

// How many bytes it has.
pub fn at_once_size(answer: Option<Response>) -> usize
    ensures { result ≡ length (text_of (at_once_said answer)) }
{
    match answer {
        Some(response) => size_of(response),
        None => 0,
    }
}

// Its text at the front of `out`; nothing where it is too short.
pub fn write_at_once(answer: Option<Response>, out: &mut [u8])
    ensures { out.new ≡ filled (text_of (at_once_said answer)) out.old }
{
    match answer {
        Some(response) => write_bare(response, out),
        None => {}
    }
}
