// Look-up for a host: what stands at a number of a kind's table; which command awaits an answer; errors by number; returned stanzas and keys by file. A table's
// count is its field.
ghost use Rattle.std.specs.Prelude.{◌≡◌, List, ℕ, Some};
ghost use Rattle.tables.specs.Tables.{table_in, found_said, found as found_in};
ghost use Rattle.session.specs.Tables.{tables_in};
ghost use Rattle.conversation.specs.PhaseTwo.{labels, is_file, stanzas_for, has_key};
ghost use Rattle.look_up.specs.LookUp.{table_of, entry_text, awaited_said, awaited_in, name_said, named_by, error_named, number_of, message_of, stanza_of, key_of};

use crate::entries::{count_file, has_file};
use bech32::TextKind;
use session::{Kind, Mark, Phase, Tables, WordTwo, span_of};
use tables::{Entry, Span, Table, payload};

// What stands at a number of a kind's table.
pub fn find(
    tables: Tables,
    kind: Kind,
    n: usize,
    slots: &[[usize; 4]],
    header_slots: &[[usize; 4]],
) -> Option<Entry>
    ensures { found_said result ≡ found_in (table_of kind (tables_in tables slots.now header_slots.now)) n }
{
    let (table, slots) = match kind {
        Kind::Recipients => (tables.recipients, slots),
        Kind::Identities => (tables.identities, slots),
        Kind::Keys => (tables.keys, slots),
        Kind::Headers => (tables.headers, header_slots),
        Kind::Errors => (tables.errors, slots),
        Kind::Stanzas => (tables.stanzas, slots),
        Kind::Returned => (tables.returned, slots),
    };
    table.find(span_of(kind), n, slots)
}

// The text of a recipient or an identity, a part of its kind's buffer; empty where there is none, or the buffer is too short for it.
pub fn entry<'a>(
    tables: Tables,
    kind: TextKind,
    n: usize,
    slots: &[[usize; 4]],
    recipients: &'a [u8],
    identities: &'a [u8],
) -> &'a [u8]
    ensures { (hs : List (List ℕ)) → result.now ≡ entry_text (tables_in tables slots.now hs) kind n recipients.now
        identities.now }
{
    match kind {
        TextKind::Recipient => payload(
            tables.recipients.find(span_of(Kind::Recipients), n, slots),
            recipients,
        ),
        TextKind::Identity => payload(
            tables.identities.find(span_of(Kind::Identities), n, slots),
            identities,
        ),
    }
}

// Which command awaits an answer.
pub fn awaited_command(phase: Phase) -> Option<WordTwo>
    ensures { awaited_said result ≡ awaited_in phase }
{
    match phase {
        Phase::One => None,
        Phase::Two => None,
        Phase::Awaiting(word) => Some(word),
        Phase::Ended => None,
        Phase::Closed => None,
    }
}

// What an error names: nothing, an identity, a recipient, or of a file a header stanza.
#[derive(Clone, Copy)]
pub enum ErrorNamed {
    Internal,
    Identity(usize),
    Recipient(usize),
    Header(usize, usize),
}

// How many errors there are.
pub fn count_errors(tables: Tables) -> usize
    ensures { result ≡ tables.errors.count }
{
    tables.errors.count
}

// How many stanzas a file has got.
pub fn count_stanzas(tables: Tables, file: usize, slots: &[[usize; 4]]) -> usize
    ensures { (hs : List (List ℕ)) → result ≡ stanzas_for (tables_in tables slots.now hs) file }
{
    count_file(tables.stanzas, span_of(Kind::Stanzas), file, slots)
}

// Whether a file has got its key.
pub fn has_key(tables: Tables, file: usize, slots: &[[usize; 4]]) -> bool
    ensures { (hs : List (List ℕ)) → result ≡ has_key (tables_in tables slots.now hs) file }
{
    has_file(tables.returned, span_of(Kind::Returned), file, slots)
}

// What an error names, by its mark and its index.
fn named_by(e: Entry) -> ErrorNamed
    ensures { name_said (Some result) ≡ named_by e }
{
    let mark = e.mark;
    let index = e.index;
    if mark == Mark::INTERNAL {
        return ErrorNamed::Internal;
    }
    if mark == Mark::IDENTITY {
        return ErrorNamed::Identity(index);
    }
    if mark == Mark::RECIPIENT {
        return ErrorNamed::Recipient(index);
    }
    ErrorNamed::Header(mark - Mark::STANZA, index)
}

// What the k-th error names; of a header stanza its file, and its number there.
pub fn error_named(tables: Tables, k: usize, slots: &[[usize; 4]]) -> Option<ErrorNamed>
    ensures { (hs : List (List ℕ)) → name_said result ≡ error_named (tables_in tables slots.now hs) k }
{
    let error = tables.errors.find(span_of(Kind::Errors), k, slots);
    match error {
        None => None,
        Some(e) => Some(named_by(e)),
    }
}

// The message of the k-th error, a part of the errors' buffer; empty where it is empty, there is none, or the buffer is too short for it.
pub fn error_message<'a>(
    tables: Tables,
    k: usize,
    slots: &[[usize; 4]],
    errors: &'a [u8],
) -> &'a [u8]
    ensures { (hs : List (List ℕ)) → result.now ≡ message_of (tables_in tables slots.now hs) k errors.now }
{
    payload(tables.errors.find(span_of(Kind::Errors), k, slots), errors)
}

// The number, among all entries, of the k-th of a file; as many as there are where there is none.
pub fn number_of(table: Table, span: Span, file: usize, k: usize, slots: &[[usize; 4]]) -> usize
    ensures { result ≡ number_of (is_file file) (labels (table_in span table slots.now)) k }
{
    let entries = table.entries(span, slots);
    let mut left = k;
    for (i, slot) in entries.iter().enumerate() {
        if Entry::from(*slot).index == file {
            if left == 0 {
                return i;
            }
            left -= 1;
        }
    }
    entries.len()
}

// The k-th stanza of a file, a part of the stanzas' buffer; empty where there is none, or the buffer is too short for it.
pub fn stanza_of<'a>(
    tables: Tables,
    file: usize,
    k: usize,
    slots: &[[usize; 4]],
    stanzas: &'a [u8],
) -> &'a [u8]
    ensures { (hs : List (List ℕ)) → result.now ≡ stanza_of (tables_in tables slots.now hs) file k stanzas.now }
{
    let span = span_of(Kind::Stanzas);
    let n = number_of(tables.stanzas, span, file, k, slots);
    payload(tables.stanzas.find(span, n, slots), stanzas)
}

// The key of a file, a part of the returned keys' buffer; empty where there is none, or the buffer is too short for it.
pub fn key_of<'a>(tables: Tables, file: usize, slots: &[[usize; 4]], returned: &'a [u8]) -> &'a [u8]
    ensures { (hs : List (List ℕ)) → result.now ≡ key_of (tables_in tables slots.now hs) file returned.now }
{
    let span = span_of(Kind::Returned);
    let n = number_of(tables.returned, span, file, 0, slots);
    payload(tables.returned.find(span, n, slots), returned)
}
