// How many entries a table has, and how many of them are of a file.
ghost use Rattle.std.specs.Prelude.{◌≡◌, count_by, length, take};
ghost use Rattle.tables.specs.Slots.{entry_of};
ghost use Rattle.tables.specs.Tables.{table_in};
ghost use Rattle.conversation.specs.PhaseTwo.{label_of, labels, how_many, is_any, is_file};

use tables::{Entry, Span, Table};

// How many entries a table has.
pub fn count_entries(table: Table, span: Span, slots: &[[usize; 4]]) -> usize
    ensures { result ≡ length (labels (table_in span table slots.now)) }
{
    table.entries(span, slots).len()
}

// How many of these entries are of a file.
fn count_of(file: usize, entries: &[[usize; 4]]) -> usize
    ensures { result ≡ count_by (λ slot. is_file file (label_of (entry_of slot))) entries.now }
{
    entries
        .iter()
        .filter(|slot| Entry::from(**slot).index == file)
        .count()
}

// How many of the first n entries are of a file.
pub fn count_before(table: Table, span: Span, file: usize, n: usize, slots: &[[usize; 4]]) -> usize
    ensures { result ≡ how_many (is_file file) (take n (labels (table_in span table slots.now))) }
{
    let entries = table.entries(span, slots);
    count_of(file, entries.get(..n).unwrap_or(entries))
}

// How many entries are of a file.
pub fn count_file(table: Table, span: Span, file: usize, slots: &[[usize; 4]]) -> usize
    ensures { result ≡ how_many (is_file file) (labels (table_in span table slots.now)) }
{
    count_of(file, table.entries(span, slots))
}

// Whether an entry is of a file.
pub fn has_file(table: Table, span: Span, file: usize, slots: &[[usize; 4]]) -> bool
    ensures { result ≡ is_any (is_file file) (labels (table_in span table slots.now)) }
{
    table
        .entries(span, slots)
        .iter()
        .any(|slot| Entry::from(*slot).index == file)
}
