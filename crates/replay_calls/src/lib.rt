// The calls that need no session, a function for each: it judges the words of the line and makes the call.
#![tactic(auto)]

mod identity_files;

use bech32::TextKind;
use identity_files::call_identity_file;
use profile::Conformity;
use replay_answers::{Answer, Output};
use replay_lines::{Failure, Words, front, front_mut};
use script::Call;

// Makes a call that needs no session.
pub fn call_plain<'a>(
    call: Call,
    words: &Words,
    buffer: &'a mut [u8; 65536],
    out: &mut Output,
) -> Result<Answer<'a>, Failure> {
    match call {
        Call::Stanza => call_stanza(words, buffer, out),
        Call::Index => call_index(words),
        Call::Checksum => call_checksum(words),
        Call::Profile => call_profile(words),
        Call::Judge => call_judge(words, out),
        _ => {
            let n = words.last_length()?;
            call_buffered(call, words, front_mut(buffer, n), out)
        }
    }
}

// Makes a call that writes to a buffer of the length OUT, which is the line's last word.
fn call_buffered<'a>(
    call: Call,
    words: &Words,
    buffer: &'a mut [u8],
    out: &mut Output,
) -> Result<Answer<'a>, Failure> {
    match call {
        Call::Write => call_write(words, buffer),
        Call::Recipient => call_read(TextKind::Recipient, words, buffer, out),
        Call::Identity => call_read(TextKind::Identity, words, buffer, out),
        Call::WriteRecipient => call_encode(TextKind::Recipient, words, buffer),
        Call::WriteIdentity => call_encode(TextKind::Identity, words, buffer),
        Call::IdentityFile => call_identity_file(words, buffer, out),
        _ => Err(Failure::BadLine),
    }
}

// stanza TEXT
fn call_stanza<'a>(
    words: &Words,
    buffer: &'a mut [u8; 65536],
    out: &mut Output,
) -> Result<Answer<'a>, Failure> {
    words.check_count(2)?;
    let text = words.get(1);
    let read = stanza::read(text)?;
    let n = stanza::body_of(text, read, buffer)?;
    let line = stanza::arguments_of(text, read);
    out.print_row(b"ok", read.taken, line, front(buffer, n), b"");
    Ok(Answer::Printed)
}

// write ARGS BODY OUT
fn call_write<'a>(words: &Words, buffer: &'a mut [u8]) -> Result<Answer<'a>, Failure> {
    words.check_count(4)?;
    let n = stanza::write(words.get(1), words.get(2), buffer)?;
    Ok(Answer::Word(front(buffer, n)))
}

// index TEXT
fn call_index(words: &Words) -> Result<Answer<'static>, Failure> {
    words.check_count(2)?;
    let n = stanza::read_index(words.get(1))?;
    Ok(Answer::Number(n as usize))
}

// checksum TEXT
fn call_checksum(words: &Words) -> Result<Answer<'static>, Failure> {
    words.check_count(2)?;
    if bech32::holds(words.get(1)) {
        return Ok(Answer::Word(b"holds"));
    }
    Ok(Answer::Word(b"fails"))
}

// profile NAME LINE BODY
fn call_profile(words: &Words) -> Result<Answer<'static>, Failure> {
    words.check_count(4)?;
    let found = profile::check(words.get(1), words.get(2), words.get(3).len());
    Ok(Answer::Word(match found {
        Conformity::Conforming => b"conforming",
        Conformity::Nonconforming => b"nonconforming",
        Conformity::Unknown => b"unknown",
    }))
}

// judge TEXT, lent buffers as the judging program lends them
fn call_judge(words: &Words, out: &mut Output) -> Result<Answer<'static>, Failure> {
    words.check_count(2)?;
    let mut recipients = [0u8; 16384];
    let mut identities = [0u8; 16384];
    let mut keys = [0u8; 1024];
    let judged = judging::judge(words.get(1), &mut recipients, &mut identities, &mut keys);
    let numbers = [
        judged.recipients,
        judged.identities,
        judged.keys,
        judged.headers,
        judged.answer as usize,
    ];
    out.print_numbers(b"ok", &numbers);
    Ok(Answer::Printed)
}

// recipient TEXT OUT, identity TEXT OUT: the name and the payload, or a refusal; 16 comes with the place.
fn call_read<'a>(
    kind: TextKind,
    words: &Words,
    buffer: &'a mut [u8],
    out: &mut Output,
) -> Result<Answer<'a>, Failure> {
    words.check_count(3)?;
    match bech32::read(kind, words.get(1), buffer) {
        Ok(reading) => {
            out.print(b"ok ");
            out.print(front(&reading.name.bytes, reading.name.length));
            out.print_word(b"", front(buffer, reading.length));
            Ok(Answer::Printed)
        }
        Err(fault) => {
            let Some(place) = fault.place else {
                return Err(Failure::Refused(fault.refusal));
            };
            let number = refusal::number(fault.refusal) as usize;
            out.print_numbers(b"refused", &[number, place]);
            Ok(Answer::Printed)
        }
    }
}

// write-recipient NAME PAYLOAD OUT, write-identity NAME PAYLOAD OUT
fn call_encode<'a>(
    kind: TextKind,
    words: &Words,
    buffer: &'a mut [u8],
) -> Result<Answer<'a>, Failure> {
    words.check_count(4)?;
    let n = bech32::write(kind, words.get(1), words.get(2), buffer)?;
    Ok(Answer::Word(front(buffer, n)))
}
