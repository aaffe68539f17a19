// What a line came to, and the line that is printed for it.
use crate::print::Output;
use intake::{Last, Received};
use phase_one::WordOne;
use refusal::Refusal;
use replay_lines::{Failure, front};
use responses::Response;
use session::WordTwo;

// A line that is accepted: its answer is printed already; or it has nothing to tell, a number, a word, or what was received.
#[derive(Clone, Copy)]
pub enum Answer<'a> {
    Printed,
    Accepted,
    Number(usize),
    Word(&'a [u8]),
    Received(Receipt<'a>),
}

// What was received: whether it was refused, how many stanzas were taken, the last one, and what was written to the buffer lent.
#[derive(Clone, Copy)]
pub struct Receipt<'a> {
    verdict: Result<(), Refusal>,
    count: usize,
    last: Option<Last>,
    written: &'a [u8],
}

// The answer of a call that received, lent a buffer.
pub fn answer_received(received: Received, buffer: &[u8]) -> Answer<'_> {
    Answer::Received(Receipt {
        verdict: received.verdict,
        count: received.count,
        last: received.last,
        written: front(buffer, received.written),
    })
}

// The word of a command of phase one.
fn word_one(word: WordOne) -> &'static [u8] {
    match word {
        WordOne::AddRecipient => b"add-recipient",
        WordOne::AddIdentity => b"add-identity",
        WordOne::WrapFileKey => b"wrap-file-key",
        WordOne::RecipientStanza => b"recipient-stanza",
        WordOne::Done => b"done",
        WordOne::Other => b"other",
    }
}

// The word of a command of phase two.
pub fn word_two(word: WordTwo) -> &'static [u8] {
    match word {
        WordTwo::Msg => b"msg",
        WordTwo::Confirm => b"confirm",
        WordTwo::RequestPublic => b"request-public",
        WordTwo::RequestSecret => b"request-secret",
        WordTwo::RecipientStanza => b"recipient-stanza",
        WordTwo::FileKey => b"file-key",
        WordTwo::Error => b"error",
        WordTwo::Done => b"done",
        WordTwo::Other => b"other",
    }
}

// A response's word.
fn word_response(response: Response) -> &'static [u8] {
    match response {
        Response::Ok => b"ok",
        Response::Yes => b"yes",
        Response::No => b"no",
        Response::Fail => b"fail",
        Response::Unsupported => b"unsupported",
    }
}

// The word of what was received last.
fn word_last(last: Option<Last>) -> &'static [u8] {
    match last {
        Some(Last::CommandOne(word)) => word_one(word),
        Some(Last::CommandTwo(word)) => word_two(word),
        Some(Last::Response(response)) => word_response(response),
        None => b"-",
    }
}

// Prints the answer of a line, which has a number.
pub fn print_answer(answer: Result<Answer<'_>, Failure>, line: usize, out: &mut Output) {
    match answer {
        Ok(Answer::Printed) => {}
        Ok(Answer::Accepted) => out.print(b"ok\n"),
        Ok(Answer::Number(n)) => out.print_number(b"ok", n),
        Ok(Answer::Word(word)) => out.print_word(b"ok", word),
        Ok(Answer::Received(receipt)) => print_receipt(receipt, out),
        Err(Failure::BadLine) => out.print_number(b"bad line", line),
        Err(Failure::NoSession) => out.print(b"none\n"),
        Err(Failure::Refused(r)) => out.print_number(b"refused", refusal::number(r) as usize),
    }
}

// The line of what was received.
fn print_receipt(receipt: Receipt<'_>, out: &mut Output) {
    let word = word_last(receipt.last);
    match receipt.verdict {
        Ok(()) => out.print_row(b"ok", receipt.count, word, receipt.written, b""),
        Err(r) => {
            out.room()
                .put_number(b"refused", refusal::number(r) as usize);
            out.print_row(b"", receipt.count, word, receipt.written, b"");
        }
    }
}
