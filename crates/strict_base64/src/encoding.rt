// Encoding: three bytes to four characters.
ghost use Rattle.std.specs.Prelude.{◌≡◌, ◌+◌, ◌*◌, ◌/◌, ◌%◌, ◌≤◌, ◌<◌, length, drop, ◌++◌};
ghost use Rattle.strict_base64.specs.Code.{encoded};
ghost use Rattle.strict_base64.specs.Tables.{encoded_size};

use crate::alphabet::character;

// How many characters some bytes make.
pub(crate) fn encoded_length(bytes: &[u8]) -> usize
    ensures { result ≡ length (encoded bytes.now) }
{
    let n = bytes.len();
    n / 3 * 4 + (n % 3 * 4 + 2) / 3
}

// The characters of some bytes at the front of `out`, which is long enough.
pub(crate) fn encode_into(bytes: &[u8], out: &mut [u8])
    requires { encoded_size (length bytes.now) ≤ length out.old }
    ensures { out.new ≡ encoded bytes.now ++ drop (length (encoded bytes.now)) out.old }
{
    let n = bytes.len() / 3;
    for i in 0..n {
        let a = bytes[3 * i];
        let b = bytes[3 * i + 1];
        let c = bytes[3 * i + 2];
        out[4 * i] = character(a / 4);
        out[4 * i + 1] = character(a % 4 * 16 + b / 16);
        out[4 * i + 2] = character(b % 16 * 4 + c / 64);
        out[4 * i + 3] = character(c % 64);
    }
    encode_rest(&bytes[3 * n..], &mut out[4 * n..]);
}

// The same for one or two bytes, or none.
fn encode_rest(bytes: &[u8], out: &mut [u8])
    requires bytes_len_bound { length bytes.now < 3 }
    requires bytes_in_bounds { encoded_size (length bytes.now) ≤ length out.old }
    ensures { out.new ≡ encoded bytes.now ++ drop (length (encoded bytes.now)) out.old }
{
    let n = bytes.len();
    if n == 0 {
        return;
    }
    let a = bytes[0];
    out[0] = character(a / 4);
    if n == 1 {
        out[1] = character(a % 4 * 16);
        return;
    }
    let b = bytes[1];
    out[1] = character(a % 4 * 16 + b / 16);
    out[2] = character(b % 16 * 4);
}
