// What the decision of phase two asks of the tables, each question by the tables that it needs.
ghost use Rattle.std.specs.Prelude.{◌≡◌, not, ◌||◌, [], ◌+◌, ltb, take};
ghost use Rattle.tables.specs.Tables.{table_in};
ghost use Rattle.session.specs.Tables.{span_of, tables_in};
ghost use Rattle.conversation.specs.PhaseTwo.{
  label_of,
  labels,
  how_many,
  is_any,
  passes,
  among,
  is_file,
  is_naming,
  is_about,
  is_invalid,
  is_nonconforming,
  is_unknown,
  are_reported,
  are_stanzas_reported,
  all_reported,
};

use look_up::{count_before, count_file, number_of};
use session::{Kind, Mark, Tables, span_of};
use tables::{Entry, Span, Table};

// Whether a file has a header stanza of a number: more than so many.
pub(crate) fn has_header(headers: Table, file: usize, i: usize, header_slots: &[[usize; 4]]) -> bool
    ensures { result ≡ ltb i (how_many (is_file file) (labels (table_in (span_of Kind.Headers) headers header_slots.now))) }
{
    i < count_file(headers, span_of(Kind::Headers), file, header_slots)
}

// Whether the header stanza of a number, of all, is unknown.
fn is_unknown_at(headers: Table, n: usize, header_slots: &[[usize; 4]]) -> bool
    ensures { result ≡ passes is_unknown (labels (table_in (span_of Kind.Headers) headers header_slots.now)) n }
{
    headers
        .entries(span_of(Kind::Headers), header_slots)
        .get(n)
        .is_some_and(|slot| Entry::from(*slot).mark == Mark::UNKNOWN)
}

// Whether the i-th header stanza of a file is unknown.
pub(crate) fn is_unknown_in(
    headers: Table,
    file: usize,
    i: usize,
    header_slots: &[[usize; 4]],
) -> bool
    ensures { result ≡ passes is_unknown (among (is_file file) (labels (table_in (span_of Kind.Headers) headers header_slots.now))) i }
{
    let span = span_of(Kind::Headers);
    let n = number_of(headers, span, file, i, header_slots);
    is_unknown_at(headers, n, header_slots)
}

// Whether an entry is an error for a header stanza of a file.
fn is_about(file: usize, e: Entry) -> bool
    ensures { result ≡ is_about file (label_of e) }
{
    Mark::STANZA <= e.mark && e.mark - Mark::STANZA == file
}

// Whether there is an error for a header stanza of a file.
pub(crate) fn has_error_for(errors: Table, file: usize, slots: &[[usize; 4]]) -> bool
    ensures { result ≡ is_any (is_about file) (labels (table_in (span_of Kind.Errors) errors slots.now)) }
{
    errors
        .entries(span_of(Kind::Errors), slots)
        .iter()
        .any(|slot| is_about(file, Entry::from(*slot)))
}

// Whether a recipient or an identity is invalid.
pub(crate) fn any_invalid(table: Table, span: Span, slots: &[[usize; 4]]) -> bool
    ensures { result ≡ is_any is_invalid (labels (table_in span table slots.now)) }
{
    table
        .entries(span, slots)
        .iter()
        .any(|slot| Entry::from(*slot).mark != Mark::VALID)
}

// Whether an entry has a mark and an index.
fn is_labelled(mark: usize, index: usize, e: Entry) -> bool
    ensures { result ≡ is_naming mark index (label_of e) }
{
    e.mark == mark && e.index == index
}

// Whether an entry of a table has a mark and an index: an error that names a number, a nonconforming header stanza of a file.
pub(crate) fn has_labelled(
    table: Table,
    span: Span,
    mark: usize,
    index: usize,
    slots: &[[usize; 4]],
) -> bool
    ensures { result ≡ is_any (is_naming mark index) (labels (table_in span table slots.now)) }
{
    table
        .entries(span, slots)
        .iter()
        .any(|slot| is_labelled(mark, index, Entry::from(*slot)))
}

// Whether an entry owes no error, or has had it.
fn is_settled(owing: bool, errors: Table, mark: usize, n: usize, slots: &[[usize; 4]]) -> bool
    ensures { result ≡ (not owing || is_any (is_naming mark n) (labels (table_in (span_of Kind.Errors) errors slots.now))) }
{
    !owing || has_labelled(errors, span_of(Kind::Errors), mark, n, slots)
}

// Whether each invalid entry of a table has had its error.
fn are_reported(table: Table, span: Span, errors: Table, mark: usize, slots: &[[usize; 4]]) -> bool
    ensures { result ≡
        are_reported is_invalid mark 0 (labels (table_in span table slots.now)) (labels (table_in (span_of Kind.Errors) errors slots.now)) }
{
    table.entries(span, slots).iter().enumerate().all(|(n, slot)| {
        let e = Entry::from(*slot);
        is_settled(e.mark != Mark::VALID, errors, mark, n, slots)
    })
}

// Whether an entry is the error for the i-th header stanza of a file.
fn names_stanza(file: usize, i: usize, e: Entry) -> bool
    ensures { result ≡ is_naming (3 + file) i (label_of e) }
{
    is_about(file, e) && e.index == i
}

// Whether the i-th header stanza of a file has had its error.
fn has_stanza_error(errors: Table, file: usize, i: usize, slots: &[[usize; 4]]) -> bool
    ensures { result ≡ is_any (is_naming (3 + file) i) (labels (table_in (span_of Kind.Errors) errors slots.now)) }
{
    errors
        .entries(span_of(Kind::Errors), slots)
        .iter()
        .any(|slot| names_stanza(file, i, Entry::from(*slot)))
}

// Whether a header stanza, the n-th of all, conforms or is unknown, or has had its error: the one of its file and its number there.
fn is_stanza_settled(
    headers: Table,
    e: Entry,
    n: usize,
    header_slots: &[[usize; 4]],
    errors: Table,
    slots: &[[usize; 4]],
) -> bool
    ensures { result ≡ (not (is_nonconforming (label_of e)) || is_any
        (is_naming (3 + e.index) (how_many (is_file e.index) (take n (labels (table_in (span_of Kind.Headers) headers header_slots.now)))))
        (labels (table_in (span_of Kind.Errors) errors slots.now))) }
{
    if e.mark != Mark::NONCONFORMING {
        return true;
    }
    let i = count_before(headers, span_of(Kind::Headers), e.index, n, header_slots);
    has_stanza_error(errors, e.index, i, slots)
}

// Whether each nonconforming header stanza has had its error.
fn are_stanzas_reported(
    headers: Table,
    header_slots: &[[usize; 4]],
    errors: Table,
    slots: &[[usize; 4]],
) -> bool
    ensures { result ≡
        are_stanzas_reported [] (labels (table_in (span_of Kind.Headers) headers header_slots.now))
        (labels (table_in (span_of Kind.Errors) errors slots.now)) }
{
    headers
        .entries(span_of(Kind::Headers), header_slots)
        .iter()
        .enumerate()
        .all(|(n, slot)| {
            is_stanza_settled(headers, Entry::from(*slot), n, header_slots, errors, slots)
        })
}

// Whether all that is invalid or nonconforming has had its error.
pub(crate) fn all_reported(
    tables: Tables,
    slots: &[[usize; 4]],
    header_slots: &[[usize; 4]],
) -> bool
    ensures { result ≡ all_reported (tables_in tables slots.now header_slots.now) }
{
    let errors = tables.errors;
    are_reported(
        tables.recipients,
        span_of(Kind::Recipients),
        errors,
        Mark::RECIPIENT,
        slots,
    ) && are_reported(
        tables.identities,
        span_of(Kind::Identities),
        errors,
        Mark::IDENTITY,
        slots,
    ) && are_stanzas_reported(tables.headers, header_slots, errors, slots)
}
