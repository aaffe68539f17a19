// The call of a line; and those that keep what a session says: each end sends in its phase and receives in the other's, and the client's host
// replies. Each is lent the session's buffers, and an output buffer of the length that the line names.
use crate::settings::{End, Open, open_session};
use intake::Received;
use phase_one::WordOne;
use refusal::Refusal;
use replay_answers::{Answer, Memory, Output, answer_received, look};
use replay_calls::call_plain;
use replay_lines::{
    Failure, Look, Request, SessionCall, Words, arguments, command_one, command_two, front,
    front_mut, read_request,
};
use responses::Response;
use session::WordTwo;

// Makes the call of a line. Not inlined: bench/ counts in it, by its name.
#[inline(never)]
pub fn make_call<'a>(
    words: &Words,
    host: &mut Option<Open>,
    memory: &'a mut Memory,
    buffer: &'a mut [u8; 65536],
    out: &mut Output,
) -> Result<Answer<'a>, Failure> {
    let request = read_request(words)?;
    match request {
        Request::Plain(call) => call_plain(call, words, buffer, out),
        Request::Open(opened, lengths) => {
            *host = Some(open_session(opened, lengths, words, memory)?);
            Ok(Answer::Accepted)
        }
        Request::Session(call) => match host {
            Some(open) => call_session(call, words, open, memory, buffer, out),
            None => Err(Failure::NoSession),
        },
    }
}

// Makes a call of the session that is open. The client alone has replies, and a command that awaits one.
fn call_session<'a>(
    call: SessionCall,
    words: &Words,
    open: &mut Open,
    memory: &'a mut Memory,
    buffer: &'a mut [u8; 65536],
    out: &mut Output,
) -> Result<Answer<'a>, Failure> {
    match call {
        SessionCall::Buffers(lengths) => {
            memory.set_lengths(lengths);
            Ok(Answer::Accepted)
        }
        SessionCall::Send(n) => {
            let written = send(words, open, memory, front_mut(buffer, n))?;
            Ok(Answer::Word(front(buffer, written)))
        }
        SessionCall::Receive(n) => {
            let received = receive(words, open, memory, front_mut(buffer, n));
            Ok(answer_received(received, buffer))
        }
        SessionCall::Reply(response, n) => match open.end {
            End::Client => {
                let received = reply(response, words, open, memory, front_mut(buffer, n));
                Ok(answer_received(received, buffer))
            }
            End::Plugin => Err(Failure::NoSession),
        },
        SessionCall::Look(Look::Awaited) => match open.end {
            End::Client => look(Look::Awaited, open.session, memory, out),
            End::Plugin => Err(Failure::NoSession),
        },
        SessionCall::Look(what) => look(what, open.session, memory, out),
    }
}

// send COMMAND ARGS BODY OUT: how many bytes were written.
fn send(
    words: &Words,
    open: &mut Open,
    memory: &mut Memory,
    out: &mut [u8],
) -> Result<usize, Refusal> {
    match open.end {
        End::Client => {
            let command = command_one(words.get(1));
            let sent = client_sending::send(
                open.session,
                command,
                arguments(matches!(command, WordOne::Other), words),
                words.get(3),
                &mut memory.slots,
                &mut memory.header_slots,
                memory.recipients.lend_mut(),
                memory.identities.lend_mut(),
                memory.keys.lend_mut(),
                memory.headers.lend_mut(),
                out,
            );
            open.session = sent.session;
            sent.answer
        }
        End::Plugin => {
            let command = command_two(words.get(1));
            let sent = plugin_sending::send(
                open.session,
                command,
                arguments(matches!(command, WordTwo::Other), words),
                words.get(3),
                &mut memory.slots,
                &memory.header_slots,
                memory.errors.lend_mut(),
                memory.stanzas.lend_mut(),
                memory.returned.lend_mut(),
                out,
            );
            open.session = sent.session;
            sent.answer
        }
    }
}

// chunk BYTES OUT
fn receive(words: &Words, open: &mut Open, memory: &mut Memory, out: &mut [u8]) -> Received {
    let received = match open.end {
        End::Client => client_receiving::receive(
            open.session,
            words.get(1),
            &mut memory.client_input,
            &mut memory.slots,
            &memory.header_slots,
            memory.errors.lend_mut(),
            memory.stanzas.lend_mut(),
            memory.returned.lend_mut(),
            out,
        ),
        End::Plugin => plugin_receiving::receive(
            open.session,
            words.get(1),
            &mut memory.plugin_input,
            &mut memory.slots,
            &mut memory.header_slots,
            memory.recipients.lend_mut(),
            memory.identities.lend_mut(),
            memory.keys.lend_mut(),
            memory.headers.lend_mut(),
            out,
        ),
    };
    open.session = received.session;
    received
}

// reply ANSWER BODY OUT, at the client end
fn reply(
    response: Response,
    words: &Words,
    open: &mut Open,
    memory: &mut Memory,
    out: &mut [u8],
) -> Received {
    let received = client_receiving::reply(
        open.session,
        response,
        words.get(2),
        &mut memory.client_input,
        &mut memory.slots,
        &memory.header_slots,
        memory.errors.lend_mut(),
        memory.stanzas.lend_mut(),
        memory.returned.lend_mut(),
        out,
    );
    open.session = received.session;
    received
}
