// Slots, lent as arrays of four numbers each. Several kinds may have theirs in one array, each in a span of its own.
ghost use Rattle.std.specs.Prelude.{◌≡◌, [], ◌∷◌, ◌+◌, length, take, drop, get_or, set};
ghost use Rattle.tables.specs.Slots.{entry_of, slots_of};
ghost use Rattle.tables.specs.Tables.{empty};

// A slot's four numbers: where the payload starts and how long it is, the index that the command gave, and a mark.
#[derive(Clone, Copy)]
pub struct Entry {
    pub start: usize,
    pub length: usize,
    pub index: usize,
    pub mark: usize,
}

impl From<[usize; 4]> for Entry {
    ghost from_gives = { λ slot e. e ≡ entry_of slot };

    fn from(slot: [usize; 4]) -> Entry {
        let [start, length, index, mark] = slot;
        Entry {
            start,
            length,
            index,
            mark,
        }
    }
}

impl From<Entry> for [usize; 4] {
    ghost from_gives = { λ e slot. slot ≡ e.start ∷ e.length ∷ e.index ∷ e.mark ∷ [] };

    fn from(e: Entry) -> [usize; 4] {
        [e.start, e.length, e.index, e.mark]
    }
}

// Where a kind's slots lie: `width` of them from `first` on.
#[derive(Clone, Copy)]
pub struct Span {
    pub first: usize,
    pub width: usize,
}

impl Span {
    // Its slots: fewer than its width where the array ends before.
    pub(crate) fn slots<'a>(self, all: &'a [[usize; 4]]) -> &'a [[usize; 4]]
        ensures { result.now ≡ take self.width (drop self.first all.now) }
    {
        let behind = all.get(self.first..).unwrap_or_default();
        behind.get(..self.width).unwrap_or(behind)
    }
}

// A slot with no entry.
pub const EMPTY: [usize; 4] = [0; 4];

// How many slots of a span there are: fewer than its width where the array ends before.
pub fn slots_in(span: Span, slots: &[[usize; 4]]) -> usize
    ensures { result ≡ length (slots_of span slots.now) }
{
    span.slots(slots).len()
}

// What stands in a span's slot of a number; an empty entry where there is none of that number.
pub fn entry_at(span: Span, n: usize, slots: &[[usize; 4]]) -> Entry
    ensures { result ≡ get_or (slots_of span slots.now) n empty }
{
    let slot = span.slots(slots).get(n).copied().unwrap_or(EMPTY);
    Entry::from(slot)
}

// Puts an entry into a span's slot of a number, where there is one.
pub(crate) fn put_entry(span: Span, n: usize, e: Entry, slots: &mut [[usize; 4]])
    ensures { slots.new ≡ set slots.old (span.first + n) (e.start ∷ e.length ∷ e.index ∷ e.mark ∷ []) }
{
    let at = span.first.saturating_add(n);
    if at < slots.len() {
        slots[at] = e.into();
    }
}
