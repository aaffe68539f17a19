// One pass over a file, line by line: secret keys and invalid lines are counted, and the first of the invalid and of the valid ones are noted.
ghost use Rattle.std.specs.Prelude.{◌≡◌, [], ◌∷◌, ◌<◌, ◌≤◌, set};
ghost use Rattle.identity_file.specs.Lines.{lines};
ghost use Rattle.identity_file.specs.Steps.{kind_said, survey_of, nothing, noted, surveyed};

use crate::lines::{LineKind, judge_line, line_end, next_line};
use crate::{MOST_FAULTS, MOST_IDENTITIES};

// How many lines of each kind there are, but for those that are skipped; and as far as there are slots, where the valid ones start and end, and the refusal's and the
// line's number of each invalid one.
#[derive(Clone, Copy)]
pub(crate) struct Tally {
    pub(crate) keys: usize,
    pub(crate) invalid: usize,
    pub(crate) valid: usize,
    pub(crate) places: [[usize; 2]; MOST_IDENTITIES],
    pub(crate) faults: [[usize; 2]; MOST_FAULTS],
}

// Puts a pair into the slot of a number, where there is one.
fn put_pair(pairs: &mut [[usize; 2]], i: usize, pair: [usize; 2])
    ensures { pairs.new ≡ set pairs.old i pair }
{
    if i < pairs.len() {
        pairs[i] = pair;
    }
}

impl Tally {
    // No line yet.
    fn new() -> Tally
        ensures { survey_of result ≡ nothing }
    {
        Tally {
            keys: 0,
            invalid: 0,
            valid: 0,
            places: [[0; 2]; MOST_IDENTITIES],
            faults: [[0; 2]; MOST_FAULTS],
        }
    }

    // One line more: its kind, its number, and where it stands.
    fn note(&mut self, kind: LineKind, number: usize, start: usize, end: usize)
        requires number_bound { number < 18446744073709551615 }
        requires keys_le_number { self.old.keys ≤ number }
        requires invalid_le_number { self.old.invalid ≤ number }
        requires valid_le_number { self.old.valid ≤ number }
        ensures { survey_of self.new ≡
            noted (kind_said kind) number start end (survey_of self.old) }
    {
        match kind {
            LineKind::Skipped => {}
            LineKind::SecretKey => self.keys += 1,
            LineKind::Invalid(r) => {
                let fault = [usize::from(refusal::number(r)), number];
                put_pair(&mut self.faults, self.invalid, fault);
                self.invalid += 1;
            }
            LineKind::Valid => {
                put_pair(&mut self.places, self.valid, [start, end]);
                self.valid += 1;
            }
        }
    }
}

// All lines of a text. `split` would give one line more behind a last LF, and no places.
pub(crate) fn survey(text: &[u8]) -> Tally
    ensures { survey_of result ≡ surveyed 0 0 (lines text.now) nothing }
{
    let mut t = Tally::new();
    let mut number: usize = 0;
    let mut at: usize = 0;
    while at < text.len() {
        let end = line_end(text, at);
        let kind = judge_line(&text[at..end]);
        t.note(kind, number, at, end);
        number += 1;
        at = next_line(text, end);
    }
    t
}
