// A number: one or more decimal digits, at most a limit.
ghost use Rattle.std.specs.Prelude.{◌≡◌};
ghost use Rattle.script.specs.Number.{number_said, read_number};

// The number that a text is, if it is one and at most `limit`.
pub fn read_number(text: &[u8], limit: u64) -> Option<u64>
    ensures { number_said result ≡ read_number text.now limit }
{
    if text.is_empty() {
        return None;
    }
    let mut v: u64 = 0;
    for &b in text {
        if !b.is_ascii_digit() {
            return None;
        }
        let tens = v.checked_mul(10)?;
        v = tens.checked_add(u64::from(b - b'0'))?;
        if limit < v {
            return None;
        }
    }
    Some(v)
}
