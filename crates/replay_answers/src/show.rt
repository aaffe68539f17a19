// What the lines `entry` and `show` print: texts and tables as the buffers lent now show them; those of phase two have a file of their own.
use crate::answers::{Answer, word_two};
use crate::memory::Memory;
use crate::print::{Output, Page};
use crate::returned::{print_errors, print_keys, print_stanzas};
use refusal::Refusal;
use replay_lines::{Failure, Look};
use session::{Kind, Mark, Phase, Session, Tables};

// The kinds of phase one.
#[derive(Clone, Copy)]
enum Listed {
    Recipients,
    Identities,
    FileKeys,
    Headers,
}

// A line that looks into a session.
pub fn look<'a>(
    what: Look,
    session: Session,
    memory: &'a Memory,
    out: &mut Output,
) -> Result<Answer<'a>, Failure> {
    match what {
        Look::Entry(kind, n) => Ok(Answer::Word(look_up::entry(
            session.tables,
            kind,
            n,
            &memory.slots,
            memory.recipients.lend(),
            memory.identities.lend(),
        ))),
        Look::Awaited => Ok(Answer::Word(awaited::awaited_text(session, &memory.client_input))),
        Look::Show => {
            show(session, memory, out);
            Ok(Answer::Printed)
        }
        Look::Finish => {
            intake::finish(session)?;
            Ok(Answer::Accepted)
        }
    }
}

// show: the phase, then the tables
fn show(session: Session, memory: &Memory, out: &mut Output) {
    let tables = session.tables;
    print_phase(session.phase, out);
    print_table(Listed::Recipients, tables, memory, out);
    print_table(Listed::Identities, tables, memory, out);
    print_table(Listed::FileKeys, tables, memory, out);
    print_table(Listed::Headers, tables, memory, out);
    print_errors(tables, memory, out);
    print_stanzas(tables, memory, out);
    print_keys(tables, memory, out);
    out.print(b"end\n");
}

// The lines of the phase, and of the command that awaits an answer.
fn print_phase(phase: Phase, out: &mut Output) {
    out.print_word(b"phase", word_phase(phase));
    let awaited = look_up::awaited_command(phase);
    let word = match awaited {
        Some(word) => word_two(word),
        None => b"-",
    };
    out.print_word(b"awaits", word);
}

fn word_phase(phase: Phase) -> &'static [u8] {
    match phase {
        Phase::One => b"one",
        Phase::Two | Phase::Awaiting(_) => b"two",
        Phase::Ended => b"ended",
        Phase::Closed => b"closed",
    }
}

// The entries of a kind of phase one: none has more slots than the header stanzas.
fn print_table(listed: Listed, tables: Tables, memory: &Memory, out: &mut Output) {
    let buffer = listed.buffer(memory);
    for n in 0..Session::HEADER_STANZAS {
        let found = look_up::find(
            tables,
            listed.kind(),
            n,
            &memory.slots,
            &memory.header_slots,
        );
        let Some(entry) = found else {
            return;
        };
        let index = listed.index(entry.index);
        out.print_row(
            listed.word(),
            n,
            index.text(),
            tables::payload(found, buffer),
            listed.mark(entry.mark),
        );
    }
}

impl Listed {
    fn kind(self) -> Kind {
        match self {
            Listed::Recipients => Kind::Recipients,
            Listed::Identities => Kind::Identities,
            Listed::FileKeys => Kind::Keys,
            Listed::Headers => Kind::Headers,
        }
    }

    fn buffer(self, memory: &Memory) -> &[u8] {
        match self {
            Listed::Recipients => memory.recipients.lend(),
            Listed::Identities => memory.identities.lend(),
            Listed::FileKeys => memory.keys.lend(),
            Listed::Headers => memory.headers.lend(),
        }
    }

    fn word(self) -> &'static [u8] {
        match self {
            Listed::Recipients => b"recipient",
            Listed::Identities => b"identity",
            Listed::FileKeys => b"file-key",
            Listed::Headers => b"header",
        }
    }

    // The index of a header stanza; of another entry nothing.
    fn index(self, index: usize) -> Page<20> {
        let mut page = Page::new();
        if let Listed::Headers = self {
            page.put_decimal(index);
        }
        page
    }

    // A mark's word: a recipient's or an identity's mark is 0 or the reader's number; a file key has none.
    fn mark(self, mark: usize) -> &'static [u8] {
        match self {
            Listed::Recipients | Listed::Identities => word_text(mark),
            Listed::FileKeys => b"",
            Listed::Headers => match mark {
                Mark::CONFORMING => b"conforming",
                Mark::NONCONFORMING => b"nonconforming",
                _ => b"unknown",
            },
        }
    }
}

fn word_text(mark: usize) -> &'static [u8] {
    if mark == refusal::number(Refusal::Malformed) as usize {
        return b"invalid-16";
    }
    if mark == refusal::number(Refusal::BadChecksum) as usize {
        return b"invalid-21";
    }
    if mark == refusal::number(Refusal::LeftoverBits) as usize {
        return b"invalid-22";
    }
    b"valid"
}
