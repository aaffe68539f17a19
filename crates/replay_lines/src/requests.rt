// What a line asks for, by its words alone: they are judged before any session is looked at.
use crate::failure::Failure;
use crate::lengths::{Lengths, read_lengths};
use crate::words::Words;
use bech32::TextKind;
use responses::Response;
use script::{Call, EndChoice, KindChoice, ReplyChoice, ScreenChoice};

// A call that needs no session; one that opens a session, whose buffers have some lengths; or one of the session that is open.
#[derive(Clone, Copy)]
pub enum Request {
    Plain(Call),
    Open(Opened, Lengths),
    Session(SessionCall),
}

// The end that is opened: the client with what the line says of its screen, or the plugin.
#[derive(Clone, Copy)]
pub enum Opened {
    Client(ScreenChoice),
    Plugin,
}

// The buffers get other lengths; the end sends, receives a chunk, or its host replies, lent an output buffer of some length; or the session is looked into.
#[derive(Clone, Copy)]
pub enum SessionCall {
    Buffers(Lengths),
    Send(usize),
    Receive(usize),
    Reply(Response, usize),
    Look(Look),
}

// An entry by kind and number, all tables, the text that awaits an answer, or the end of the input.
#[derive(Clone, Copy)]
pub enum Look {
    Entry(TextKind, usize),
    Show,
    Awaited,
    Finish,
}

// What a line asks for.
pub fn read_request(words: &Words) -> Result<Request, Failure> {
    let call = script::choose_call(words.get(0)).ok_or(Failure::BadLine)?;
    match call {
        Call::Open => read_open(words),
        Call::Buffers => read_buffers(words),
        Call::Send => read_send(words),
        Call::Chunk => read_chunk(words),
        Call::Reply => read_reply(words),
        Call::Awaited => read_alone(Look::Awaited, words),
        Call::Finish => read_alone(Look::Finish, words),
        Call::Entry => read_entry(words),
        Call::Show => read_alone(Look::Show, words),
        _ => Ok(Request::Plain(call)),
    }
}

// open client MACHINE NAME SCREEN R I K H E S F, open plugin MACHINE NAME R I K H E S F
fn read_open(words: &Words) -> Result<Request, Failure> {
    let end = script::choose_end(words.get(1)).ok_or(Failure::BadLine)?;
    let opened = match end {
        EndChoice::Client => {
            words.check_count(12)?;
            let screen = script::choose_screen(words.get(4));
            Opened::Client(screen.ok_or(Failure::BadLine)?)
        }
        EndChoice::Plugin => {
            words.check_count(11)?;
            Opened::Plugin
        }
    };
    Ok(Request::Open(opened, read_lengths(words)?))
}

// buffers R I K H E S F
fn read_buffers(words: &Words) -> Result<Request, Failure> {
    words.check_count(8)?;
    Ok(Request::Session(SessionCall::Buffers(read_lengths(words)?)))
}

// send COMMAND ARGS BODY OUT
fn read_send(words: &Words) -> Result<Request, Failure> {
    words.check_count(5)?;
    Ok(Request::Session(SessionCall::Send(words.last_length()?)))
}

// chunk BYTES OUT
fn read_chunk(words: &Words) -> Result<Request, Failure> {
    words.check_count(3)?;
    Ok(Request::Session(SessionCall::Receive(words.last_length()?)))
}

// reply ANSWER BODY OUT
fn read_reply(words: &Words) -> Result<Request, Failure> {
    words.check_count(4)?;
    let n = words.last_length()?;
    let reply = script::choose_reply(words.get(1)).ok_or(Failure::BadLine)?;
    let response = match reply {
        ReplyChoice::Ok => Response::Ok,
        ReplyChoice::Yes => Response::Yes,
        ReplyChoice::No => Response::No,
        ReplyChoice::Fail => Response::Fail,
        ReplyChoice::Unsupported => Response::Unsupported,
    };
    Ok(Request::Session(SessionCall::Reply(response, n)))
}

// entry recipient N, entry identity N
fn read_entry(words: &Words) -> Result<Request, Failure> {
    words.check_count(3)?;
    let number = script::read_number(words.get(2), u64::MAX);
    let n = number.ok_or(Failure::BadLine)?;
    let choice = script::choose_kind(words.get(1)).ok_or(Failure::BadLine)?;
    let kind = match choice {
        KindChoice::Recipient => TextKind::Recipient,
        KindChoice::Identity => TextKind::Identity,
    };
    Ok(Request::Session(SessionCall::Look(Look::Entry(kind, n as usize))))
}

// show, awaited, finish
fn read_alone(look: Look, words: &Words) -> Result<Request, Failure> {
    words.check_count(1)?;
    Ok(Request::Session(SessionCall::Look(look)))
}
