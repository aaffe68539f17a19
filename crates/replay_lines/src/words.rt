// The words of a line, read into one buffer with a space between two.
use crate::failure::Failure;
use crate::parts::part;

// The longest line that is a call, without its LF, and the length of the longest buffer that a line lends.
pub const LONGEST: u64 = 65536;

// No call has more words.
const MOST: usize = 16;

// What a line is: an empty line, a comment and a line that has not ended are skipped; a bad line has words that are none, or too many.
#[derive(Clone, Copy)]
pub enum Line<'a> {
    Skipped,
    Bad,
    Words(Words<'a>),
}

// Where a word stands in the buffer.
#[derive(Clone, Copy)]
struct Span {
    start: usize,
    end: usize,
}

// The buffer, how many words stand in it, and where.
// No Vec of spans, and so a count beside them: one that gets no memory would be a new answer to a line.
#[derive(Clone, Copy)]
pub struct Words<'a> {
    text: &'a [u8],
    spans: [Span; MOST],
    pub(crate) count: usize,
}

// The words of a line into `text`, which is as long as the longest line.
pub fn read_line<'a>(line: &[u8], text: &'a mut [u8; 65536]) -> Line<'a> {
    if line.is_empty() || line[0] == b'#' {
        return Line::Skipped;
    }
    if LONGEST < line.len() as u64 {
        return Line::Bad;
    }
    match read_words(line, text) {
        Some(words) => Line::Words(words),
        None => Line::Bad,
    }
}

// The words of a line that is not skipped.
fn read_words<'a>(line: &[u8], text: &'a mut [u8; 65536]) -> Option<Words<'a>> {
    let count = stanza::count(line);
    if MOST < count {
        return None;
    }
    let mut spans = [Span { start: 0, end: 0 }; MOST];
    let mut start = 0;
    for (k, span) in spans[..count].iter_mut().enumerate() {
        let end = read_word(stanza::argument(line, k), text, start)?;
        *span = Span { start, end };
        start = put_space(text, end);
    }
    Some(Words { text, spans, count })
}

// A word into `text` from `at` on: where it ends.
fn read_word(word: &[u8], text: &mut [u8], at: usize) -> Option<usize> {
    if word.is_empty() {
        return None;
    }
    let from = at.min(text.len());
    let u = script::unescape(word, &mut text[from..]);
    let Some(written) = u else {
        return None;
    };
    match written {
        Ok(n) => Some(from + n),
        Err(_) => None,
    }
}

// A space, unless the buffer is full: where the next word starts.
fn put_space(text: &mut [u8; 65536], at: usize) -> usize {
    if at < text.len() {
        text[at] = b' ';
        return at + 1;
    }
    at
}

impl<'a> Words<'a> {
    // The k-th word, counted from 0; empty where there is none.
    pub fn get(&self, k: usize) -> &'a [u8] {
        match self.spans.get(k) {
            Some(span) => part(self.text, span.start, span.end),
            None => b"",
        }
    }

    // The second word, a space and the third, or the second alone where the third is empty.
    pub(crate) fn joined(&self) -> &'a [u8] {
        let second = self.spans[1];
        let third = self.spans[2];
        let end = if third.start < third.end {
            third.end
        } else {
            second.end
        };
        part(self.text, second.start, end)
    }

    // A call has so many words.
    pub fn check_count(&self, count: usize) -> Result<(), Failure> {
        if self.count != count {
            return Err(Failure::BadLine);
        }
        Ok(())
    }

    // The last word; empty where there is none.
    pub(crate) fn last(&self) -> &'a [u8] {
        match self.count.checked_sub(1) {
            Some(k) => self.get(k),
            None => b"",
        }
    }

    // The k-th word as the length of a buffer.
    pub(crate) fn length(&self, k: usize) -> Result<usize, Failure> {
        read_length(self.get(k))
    }

    // The last word as the length of a buffer.
    pub fn last_length(&self) -> Result<usize, Failure> {
        read_length(self.last())
    }
}

fn read_length(word: &[u8]) -> Result<usize, Failure> {
    let n = script::read_number(word, LONGEST).ok_or(Failure::BadLine)?;
    Ok(n as usize)
}
