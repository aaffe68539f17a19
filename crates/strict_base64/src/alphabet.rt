// The alphabet: which bytes it has, their values, runs of them, and where a text of them may end.
ghost use Rattle.std.specs.Prelude.{◌≡◌, ◌+◌, ◌<◌, drop};
ghost use Rattle.strict_base64.specs.Alphabet.{is_character, value_of, character_of};
ghost use Rattle.strict_base64.specs.Code.{ends_well};
ghost use Rattle.refusal.specs.Run.{run};

use crate::runs::run_end;

// The value of each byte, 0 for one outside the alphabet.
static VALUES: [u8; 256] = [
    0, 0, 0, 0, 0, 0, 0, 0, 0, 0, 0, 0, 0, 0, 0, 0, 0, 0, 0, 0, 0, 0, 0, 0, 0, 0, 0, 0, 0, 0, 0, 0,
    0, 0, 0, 0, 0, 0, 0, 0, 0, 0, 0, 62, 0, 0, 0, 63, 52, 53, 54, 55, 56, 57, 58, 59, 60, 61, 0, 0,
    0, 0, 0, 0, 0, 0, 1, 2, 3, 4, 5, 6, 7, 8, 9, 10, 11, 12, 13, 14, 15, 16, 17, 18, 19, 20, 21,
    22, 23, 24, 25, 0, 0, 0, 0, 0, 0, 26, 27, 28, 29, 30, 31, 32, 33, 34, 35, 36, 37, 38, 39, 40,
    41, 42, 43, 44, 45, 46, 47, 48, 49, 50, 51, 0, 0, 0, 0, 0, 0, 0, 0, 0, 0, 0, 0, 0, 0, 0, 0, 0,
    0, 0, 0, 0, 0, 0, 0, 0, 0, 0, 0, 0, 0, 0, 0, 0, 0, 0, 0, 0, 0, 0, 0, 0, 0, 0, 0, 0, 0, 0, 0, 0,
    0, 0, 0, 0, 0, 0, 0, 0, 0, 0, 0, 0, 0, 0, 0, 0, 0, 0, 0, 0, 0, 0, 0, 0, 0, 0, 0, 0, 0, 0, 0, 0,
    0, 0, 0, 0, 0, 0, 0, 0, 0, 0, 0, 0, 0, 0, 0, 0, 0, 0, 0, 0, 0, 0, 0, 0, 0, 0, 0, 0, 0, 0, 0, 0,
    0, 0, 0, 0, 0, 0, 0, 0, 0, 0, 0, 0, 0, 0, 0, 0, 0, 0, 0, 0,
];

// The character of each value.
static CHARACTERS: [u8; 64] = *b"ABCDEFGHIJKLMNOPQRSTUVWXYZabcdefghijklmnopqrstuvwxyz0123456789+/";

// The value of a byte.
pub(crate) fn value(b: u8) -> u8
    ensures value { result ≡ value_of b }
    ensures small { result < 64 }
{
    VALUES[b as usize]
}

// The character of a value.
pub(crate) fn character(v: u8) -> u8
    requires { v < 64 }
    ensures { result ≡ character_of v }
{
    CHARACTERS[v as usize]
}

// Whether a byte is a character of the alphabet.
pub fn is_character(b: u8) -> bool
    ensures { result ≡ is_character b }
{
    b.is_ascii_alphanumeric() | (b == b'+') | (b == b'/')
}

// The end of the run of characters that begins at `from`; `from` itself where that is no place of the text.
pub fn characters(text: &[u8], from: usize) -> usize
    ensures { result ≡ from + run is_character (drop from text.now) }
{
    run_end(text, from, is_character)
}

// Whether a text of n characters, the last of them `last`, may end there.
pub fn ends_well(n: usize, last: u8) -> bool
    ensures { result ≡ ends_well n (value_of last) }
{
    match n % 4 {
        0 => true,
        2 => value(last) % 16 == 0,
        3 => value(last) % 4 == 0,
        _ => false,
    }
}
