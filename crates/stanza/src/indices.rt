// An index (document 01, "Phase one"): "0" or digits without a leading zero, at most 4,294,967,295.
ghost use Rattle.std.specs.Prelude.{◌≡◌};
ghost use Rattle.stanza.specs.Index.{digits, index_said, read_index};

use refusal::Refusal;

// The largest index.
const LARGEST: u64 = 4294967295;

// The number whose digits a text is, leading zeros and all; 0 for no digits.
fn read_digits(text: &[u8]) -> Result<u32, Refusal>
    ensures { index_said result ≡ digits 0 text.now }
{
    let mut v: u64 = 0;
    for &b in text {
        if !b.is_ascii_digit() {
            return Err(Refusal::BadIndex);
        }
        v = v * 10 + u64::from(b - b'0');
        if LARGEST < v {
            return Err(Refusal::BadIndex);
        }
    }
    Ok(v as u32)
}

// The index that a text is, or 5.
pub fn read_index(text: &[u8]) -> Result<u32, Refusal>
    ensures { index_said result ≡ read_index text.now }
{
    if text.len() == 0 {
        return Err(Refusal::BadIndex);
    }
    if text.len() == 1 {
        return read_digits(text);
    }
    if text[0] == b'0' {
        return Err(Refusal::BadIndex);
    }
    read_digits(text)
}
