// The arguments' text of a stanza: whether it is one, how many words it has, which the k-th is, and whether two words are the same.
// A word is what stands between two spaces, so every text has words; only a text of arguments has words that are all arguments.
ghost use Rattle.std.specs.Prelude.{◌≡◌, ◌+◌, drop};
ghost use Rattle.refusal.specs.Run.{run, is_graphic};
ghost use Rattle.refusal.specs.Same.{same};
ghost use Rattle.stanza.specs.Arguments.{is_word_byte, is_line, count_of, argument_of};

use strict_base64::run_end;

// A byte from 33, "!", to 126, "~".
pub fn is_graphic(b: u8) -> bool
    ensures { result ≡ is_graphic b }
{
    b.is_ascii_graphic()
}

// The end of the run of bytes from 33 to 126 that begins at `from`; `from` itself where that is no place of the text.
pub(crate) fn graphic_end(text: &[u8], from: usize) -> usize
    ensures { result ≡ from + run is_graphic (drop from text.now) }
{
    run_end(text, from, is_graphic)
}

// A byte that is no space.
fn is_word_byte(b: u8) -> bool
    ensures { result ≡ is_word_byte b }
{
    b != b' '
}

// The end of the word that begins at `from`: the next space or the text's end; `from` itself where that is no place of the text.
fn word_end(text: &[u8], from: usize) -> usize
    ensures { result ≡ from + run is_word_byte (drop from text.now) }
{
    run_end(text, from, is_word_byte)
}

// Whether a text is one or more arguments separated by single spaces.
pub(crate) fn is_line(line: &[u8]) -> bool
    ensures { result ≡ is_line line.now }
{
    // To split at the spaces and test each word takes three times as long.
    let mut at: usize = 0;
    loop {
        let end = graphic_end(line, at);
        if end == at {
            return false;
        }
        if end == line.len() {
            return true;
        }
        if line[end] != b' ' {
            return false;
        }
        at = end + 1;
    }
}

// How many words a text has, one more than its spaces.
pub fn count(line: &[u8]) -> usize
    ensures { result ≡ count_of line.now }
{
    // A chain that counts the spaces takes twice as long.
    let mut n: usize = 1;
    let mut at: usize = 0;
    loop {
        let end = word_end(line, at);
        if line.len() <= end {
            return n;
        }
        n += 1;
        at = end + 1;
    }
}

// The k-th word of a text, counted from 0: a part of the text, the empty part where there is none.
pub fn argument<'a>(line: &'a [u8], k: usize) -> &'a [u8]
    ensures { result.now ≡ argument_of line.now k }
{
    // `split` and `nth` take nearly twice as long.
    let mut at: usize = 0;
    for _ in 0..k {
        let end = word_end(line, at);
        if line.len() <= end {
            return &line[..0];
        }
        at = end + 1;
    }
    let end = word_end(line, at);
    &line[at..end]
}

// Whether two texts are the same, byte for byte.
pub fn is_same(a: &[u8], b: &[u8]) -> bool
    ensures { result ≡ same a.now b.now }
{
    a == b
}
