// Tables of entries. A payload lies in a buffer that is lent to each call, its entry in slots that are lent too; the table has how many there are. One table
// for every kind and width: a span says where its slots are.
ghost use Rattle.std.specs.Prelude.{◌≡◌, true, ◌&&◌, ◌∷◌, ◌++◌, ◌+◌, ltb, leb, eqb, length, map, take, option_copied};
ghost use Rattle.refusal.specs.Pick.{pick};
ghost use Rattle.refusal.specs.Verdict.{verdict_said};
ghost use Rattle.tables.specs.Bodies.{body_from, payload_from};
ghost use Rattle.tables.specs.Slots.{are_apart, entry_of, slots_of};
ghost use Rattle.tables.specs.declared.slots.Span.{Span as AnySpan};
ghost use Rattle.tables.specs.Repeats.{repeats};
ghost use Rattle.tables.specs.Tables.{table_in, storing, entered, kept, found_said, found, shown, part_in};

use crate::copying::{Body, payload_size, put_payload};
use crate::slots::{Entry, Span, entry_at, put_entry, slots_in};
use refusal::Refusal;

// What a session keeps of a kind: the first `count` of its slots are entries, whose payloads take the first `used` bytes of the buffer.
#[derive(Clone, Copy)]
pub struct Table {
    pub count: usize,
    pub used: usize,
}

// What storing came to: the number if it is refused, and the table.
#[derive(Clone, Copy)]
pub struct Stored {
    pub verdict: Result<(), Refusal>,
    pub table: Table,
}

// Whether a kind has a slot, and its buffer space for n bytes more.
fn has_space(count: usize, width: usize, used: usize, n: usize, capacity: usize) -> bool
    ensures { result ≡ (ltb count width && leb (used + n) capacity) }
{
    count < width && used <= capacity && n <= capacity - used
}

impl Table {
    // No entry.
    pub fn open() -> Table
        ensures { (result.count ≡ 0) × (result.used ≡ 0) }
    {
        Table { count: 0, used: 0 }
    }

    // What stands at a number.
    pub fn find(self, span: Span, n: usize, slots: &[[usize; 4]]) -> Option<Entry>
        ensures { found_said result ≡ found (table_in span self slots.now) n }
    {
        if self.count <= n {
            return None;
        }
        if span.width <= n {
            return None;
        }
        Some(entry_at(span, n, slots))
    }

    // The slots of its entries.
    pub fn entries<'a>(self, span: Span, slots: &'a [[usize; 4]]) -> &'a [[usize; 4]]
        ensures { map entry_of result.now ≡ take self.count (slots_of span slots.now) }
    {
        let all = span.slots(slots);
        all.get(..self.count).unwrap_or(all)
    }

    // Whether an entry already shows a text. One that the buffer is too short for shows none. Bytes are compared from the last: recipients have their front
    // in common, and differ in the checksum.
    pub fn is_repeated(self, span: Span, text: &[u8], slots: &[[usize; 4]], buffer: &[u8]) -> bool
        ensures { result ≡ repeats (table_in span self slots.now) buffer.now text.now }
    {
        'search: {
            'entries: for slot in self.entries(span, slots) {
                let e = Entry::from(*slot);
                if e.length != text.len() {
                    continue 'entries;
                }
                let Some(shown) = part(e.start, e.length, buffer) else {
                    continue 'entries;
                };
                for (a, b) in shown.iter().rev().zip(text.iter().rev()) {
                    if a != b {
                        continue 'entries;
                    }
                }
                break 'search true;
            }
            false
        }
    }

    // One entry more, of n bytes of a buffer of `capacity` bytes. 8 where it does not fit, then the late fault: table and slots stay as they were.
    pub fn enter(
        self,
        span: Span,
        late: Result<(), Refusal>,
        n: usize,
        index: usize,
        mark: usize,
        capacity: usize,
        slots: &mut [[usize; 4]],
    ) -> Stored
        ensures number { verdict_said result.verdict ≡ storing (table_in span self slots.old) n capacity (verdict_said late) }
        ensures table { table_in span result.table slots.new ≡
            pick (eqb (storing (table_in span self slots.old) n capacity (verdict_said late)) 0)
            (entered (table_in span self slots.old) n index mark capacity) (table_in span self slots.old) }
        ensures others { (k : AnySpan) → are_apart span k ≡ true → slots_of k slots.new ≡ slots_of k slots.old }
    {
        let count = self.count;
        let used = self.used;
        if !has_space(count, span.width, used, n, capacity) {
            return Stored {
                verdict: Err(Refusal::NoSpace),
                table: self,
            };
        }
        match late {
            Err(_) => Stored {
                verdict: late,
                table: self,
            },
            Ok(()) => {
                let e = Entry {
                    start: used,
                    length: n,
                    index: index,
                    mark: mark,
                };
                put_entry(span, count, e, slots);
                Stored {
                    verdict: late,
                    table: Table {
                        count: count + 1,
                        used: used + n,
                    },
                }
            }
        }
    }

    // One entry more with its payload behind the others in the buffer. 8 where it does not fit, then the late fault: nothing changes then.
    fn keep(
        self,
        span: Span,
        late: Result<(), Refusal>,
        line: Option<&[u8]>,
        body: Body<'_>,
        index: usize,
        mark: usize,
        slots: &mut [[usize; 4]],
        buffer: &mut [u8],
    ) -> Stored
        ensures number { verdict_said result.verdict ≡
            storing (table_in span self slots.old) (length (payload_from (option_copied line.entry) body.entry))
            (length buffer.old) (verdict_said late) }
        ensures table { table_in span result.table slots.new ≡
            pick (eqb (storing (table_in span self slots.old) (length (payload_from (option_copied line.entry) body.entry))
            (length buffer.old) (verdict_said late)) 0)
            (entered (table_in span self slots.old) (length (payload_from (option_copied line.entry) body.entry)) index mark
            (length buffer.old)) (table_in span self slots.old) }
        ensures others { (k : AnySpan) → are_apart span k ≡ true → slots_of k slots.new ≡ slots_of k slots.old }
        ensures buffer { buffer.new ≡
            pick (eqb (storing (table_in span self slots.old) (length (payload_from (option_copied line.entry) body.entry))
            (length buffer.old) (verdict_said late)) 0)
            (kept (table_in span self slots.old) (payload_from (option_copied line.entry) body.entry) buffer.old)
            buffer.old }
    {
        let used = self.used;
        let n = payload_size(line, body);
        let stored = self.enter(span, late, n, index, mark, buffer.len(), slots);
        let verdict = stored.verdict;
        match verdict {
            Err(_) => stored,
            Ok(()) => {
                put_payload(line, body, &mut buffer[used..]);
                stored
            }
        }
    }

    // One entry more, its payload a body.
    pub fn store(
        self,
        span: Span,
        late: Result<(), Refusal>,
        body: Body<'_>,
        index: usize,
        mark: usize,
        slots: &mut [[usize; 4]],
        buffer: &mut [u8],
    ) -> Stored
        ensures number { verdict_said result.verdict ≡
            storing (table_in span self slots.old) (length (body_from body.entry)) (length buffer.old) (verdict_said late) }
        ensures table { table_in span result.table slots.new ≡
            pick (eqb (storing (table_in span self slots.old) (length (body_from body.entry)) (length buffer.old)
            (verdict_said late)) 0) (entered (table_in span self slots.old) (length (body_from body.entry)) index mark
            (length buffer.old)) (table_in span self slots.old) }
        ensures others { (k : AnySpan) → are_apart span k ≡ true → slots_of k slots.new ≡ slots_of k slots.old }
        ensures buffer { buffer.new ≡
            pick (eqb (storing (table_in span self slots.old) (length (body_from body.entry)) (length buffer.old)
            (verdict_said late)) 0) (kept (table_in span self slots.old) (body_from body.entry) buffer.old)
            buffer.old }
    {
        self.keep(span, late, None, body, index, mark, slots, buffer)
    }

    // One entry more, its payload a line, an LF and a body.
    pub fn store_lines(
        self,
        span: Span,
        late: Result<(), Refusal>,
        line: &[u8],
        body: Body<'_>,
        index: usize,
        mark: usize,
        slots: &mut [[usize; 4]],
        buffer: &mut [u8],
    ) -> Stored
        ensures number { verdict_said result.verdict ≡
            storing (table_in span self slots.old) (length (line.now ++ 10 ∷ body_from body.entry))
            (length buffer.old) (verdict_said late) }
        ensures table { table_in span result.table slots.new ≡
            pick (eqb (storing (table_in span self slots.old) (length (line.now ++ 10 ∷ body_from body.entry))
            (length buffer.old) (verdict_said late)) 0)
            (entered (table_in span self slots.old) (length (line.now ++ 10 ∷ body_from body.entry)) index mark
            (length buffer.old)) (table_in span self slots.old) }
        ensures others { (k : AnySpan) → are_apart span k ≡ true → slots_of k slots.new ≡ slots_of k slots.old }
        ensures buffer { buffer.new ≡
            pick (eqb (storing (table_in span self slots.old) (length (line.now ++ 10 ∷ body_from body.entry))
            (length buffer.old) (verdict_said late)) 0)
            (kept (table_in span self slots.old) (line.now ++ 10 ∷ body_from body.entry) buffer.old)
            buffer.old }
    {
        self.keep(span, late, Some(line), body, index, mark, slots, buffer)
    }
}

// The payload of what was found, a part of its kind's buffer; empty where there is no entry, or the buffer is too short for it.
pub fn payload<'a>(found: Option<Entry>, buffer: &'a [u8]) -> &'a [u8]
    ensures { result.now ≡ shown (found_said found) buffer.now }
{
    match found {
        None => &[],
        Some(e) => part(e.start, e.length, buffer).unwrap_or_default(),
    }
}

// `length` bytes from `start` on, or none where the buffer is too short.
fn part<'a>(start: usize, length: usize, buffer: &'a [u8]) -> Option<&'a [u8]>
    ensures { option_copied result ≡ part_in start length buffer.now }
{
    let behind = buffer.get(start..)?;
    behind.get(..length)
}
