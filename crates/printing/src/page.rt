// Pieces: bytes as they are, numbers in decimal, and words with their escapes.
// `out` and `at` stay two parameters and are no struct: `put` and the other public functions keep their signatures.
ghost use Rattle.std.specs.Prelude.{◌≡◌};
ghost use Rattle.script.specs.Escape.{escaped};
ghost use Rattle.printing.specs.Page.{page, put, decimal, put_number, put_word};

// Some bytes as they are.
pub fn put(bytes: &[u8], out: &mut [u8], at: usize) -> usize
    ensures { page result out.new ≡ put bytes.now (page at out.old) }
{
    if out.len() < at {
        return at;
    }
    let left = out.len() - at;
    if left < bytes.len() {
        return at;
    }
    let next = at + bytes.len();
    out[at..next].copy_from_slice(bytes);
    next
}

// A byte string with its escapes.
fn put_escaped(bytes: &[u8], out: &mut [u8], at: usize) -> usize
    ensures { page result out.new ≡ put (escaped bytes.now) (page at out.old) }
{
    if out.len() < at {
        return at;
    }
    let w = script::escape(bytes, &mut out[at..]);
    match w {
        Ok(n) => at + n,
        Err(_) => at,
    }
}

// A number in decimal.
pub fn put_decimal(n: u64, out: &mut [u8], at: usize) -> usize
    ensures { page result out.new ≡ put (decimal n) (page at out.old) }
{
    let mut text = [0u8; 20];
    let k = io::decimal(n, &mut text);
    put(&text[..k], out, at)
}

// A space and a number.
pub fn put_number(n: u64, out: &mut [u8], at: usize) -> usize
    ensures { page result out.new ≡ put_number n (page at out.old) }
{
    let next = put(b" ", out, at);
    put_decimal(n, out, next)
}

// A space and a byte string as a word.
pub(crate) fn put_word(bytes: &[u8], out: &mut [u8], at: usize) -> usize
    ensures { page result out.new ≡ put_word bytes.now (page at out.old) }
{
    let next = put(b" ", out, at);
    put_escaped(bytes, out, next)
}
