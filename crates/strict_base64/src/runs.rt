// Runs of bytes of one class, by the test of the class.
ghost use Rattle.std.specs.Prelude.{◌≡◌, ◌+◌, ℕ, Bool, drop};
ghost use Rattle.refusal.specs.Run.{all, run};
ghost use Rattle.strict_base64.specs.Class.{Tests};

// Whether the bytes of a text are all in a class. No early exit, so that the loop is vectorised.
pub(crate) fn are_all<F: Fn(u8) -> bool>(text: &[u8], is_in: &F) -> bool
    requires { F.IsAlwaysCallable is_in.now }
    ensures { (class : ℕ → Bool) → Tests (F.post is_in.now) class → result ≡ all class text.now }
{
    let mut good = true;
    for &b in text {
        good = good & is_in(b);
    }
    good
}

// The end of the run of bytes of a class that begins at `from`; `from` itself where that is no place of the text.
pub fn run_end<F: Fn(u8) -> bool>(text: &[u8], from: usize, is_in: F) -> usize
    requires { F.IsAlwaysCallable is_in }
    ensures { (class : ℕ → Bool) → Tests (F.post is_in) class → result ≡ from + run class (drop from text.now) }
{
    // By index: `chunks_exact` and a `for` over the rest take an eighth longer at short words.
    let stop = text.len().saturating_sub(7);
    let mut end = from;
    while end < stop && are_all(&text[end..end + 8], &is_in) {
        end += 8;
    }
    for i in end..text.len() {
        if !is_in(text[i]) {
            return i;
        }
    }
    text.len().max(from)
}
