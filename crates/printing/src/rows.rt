// Whole lines.
ghost use Rattle.std.specs.Prelude.{◌≡◌};
ghost use Rattle.printing.specs.Page.{page};
ghost use Rattle.printing.specs.Rows.{put_some, number_line, word_line, row};

use crate::page::{put, put_number, put_word};

// A word, unless it is empty.
fn put_some(bytes: &[u8], out: &mut [u8], at: usize) -> usize
    ensures { page result out.new ≡ put_some bytes.now (page at out.old) }
{
    if bytes.len() == 0 {
        return at;
    }
    put_word(bytes, out, at)
}

// HEAD NUMBER
pub fn print_number(head: &[u8], n: u64, out: &mut [u8], at: usize) -> usize
    ensures { page result out.new ≡ number_line head.now n (page at out.old) }
{
    let a = put(head, out, at);
    let b = put_number(n, out, a);
    put(b"\n", out, b)
}

// HEAD WORD. Apart from `print_number`: a line shared by a closure for its second piece would be as long as both.
pub fn print_word(head: &[u8], word: &[u8], out: &mut [u8], at: usize) -> usize
    ensures { page result out.new ≡ word_line head.now word.now (page at out.old) }
{
    let a = put(head, out, at);
    let b = put_word(word, out, a);
    put(b"\n", out, b)
}

// HEAD NUMBER SECOND PAYLOAD TAIL, without SECOND or TAIL where it is empty.
pub fn print_row(
    head: &[u8],
    n: u64,
    second: &[u8],
    payload: &[u8],
    tail: &[u8],
    out: &mut [u8],
    at: usize,
) -> usize
    ensures { page result out.new ≡ row head.now n second.now payload.now tail.now
        (page at out.old) }
{
    let a = put(head, out, at);
    let b = put_number(n, out, a);
    let c = put_some(second, out, b);
    let d = put_word(payload, out, c);
    let e = put_some(tail, out, d);
    put(b"\n", out, e)
}
