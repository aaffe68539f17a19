// The constants of Bech32, those of the checksum and the alphabet; values of characters, and letters by case.
ghost use Rattle.std.specs.Prelude.{◌≡◌, map, ltb};
ghost use Rattle.refusal.specs.Run.{run};
ghost use Rattle.symbols.specs.Charset.{is_upper, is_lower, lower};
ghost use Rattle.symbols.specs.Checksum.{are_symbols};
ghost use Rattle.symbols.specs.Steps.{Values, Folds, value_in};

// What the five top bits of the checksum's state fold in, the lowest bit first.
const CONSTANTS: [u32; 5] = [0x3b6a57b2, 0x26508e6d, 0x1ea119fa, 0x3d4233dd, 0x2a1462b3];

// What each number of five bits folds in: the exclusive or of the constants that its bits choose.
static FOLDS: [u32; 32] = [
    0,
    CONSTANTS[0],
    CONSTANTS[1],
    CONSTANTS[0] ^ CONSTANTS[1],
    CONSTANTS[2],
    CONSTANTS[0] ^ CONSTANTS[2],
    CONSTANTS[1] ^ CONSTANTS[2],
    CONSTANTS[0] ^ CONSTANTS[1] ^ CONSTANTS[2],
    CONSTANTS[3],
    CONSTANTS[0] ^ CONSTANTS[3],
    CONSTANTS[1] ^ CONSTANTS[3],
    CONSTANTS[0] ^ CONSTANTS[1] ^ CONSTANTS[3],
    CONSTANTS[2] ^ CONSTANTS[3],
    CONSTANTS[0] ^ CONSTANTS[2] ^ CONSTANTS[3],
    CONSTANTS[1] ^ CONSTANTS[2] ^ CONSTANTS[3],
    CONSTANTS[0] ^ CONSTANTS[1] ^ CONSTANTS[2] ^ CONSTANTS[3],
    CONSTANTS[4],
    CONSTANTS[0] ^ CONSTANTS[4],
    CONSTANTS[1] ^ CONSTANTS[4],
    CONSTANTS[0] ^ CONSTANTS[1] ^ CONSTANTS[4],
    CONSTANTS[2] ^ CONSTANTS[4],
    CONSTANTS[0] ^ CONSTANTS[2] ^ CONSTANTS[4],
    CONSTANTS[1] ^ CONSTANTS[2] ^ CONSTANTS[4],
    CONSTANTS[0] ^ CONSTANTS[1] ^ CONSTANTS[2] ^ CONSTANTS[4],
    CONSTANTS[3] ^ CONSTANTS[4],
    CONSTANTS[0] ^ CONSTANTS[3] ^ CONSTANTS[4],
    CONSTANTS[1] ^ CONSTANTS[3] ^ CONSTANTS[4],
    CONSTANTS[0] ^ CONSTANTS[1] ^ CONSTANTS[3] ^ CONSTANTS[4],
    CONSTANTS[2] ^ CONSTANTS[3] ^ CONSTANTS[4],
    CONSTANTS[0] ^ CONSTANTS[2] ^ CONSTANTS[3] ^ CONSTANTS[4],
    CONSTANTS[1] ^ CONSTANTS[2] ^ CONSTANTS[3] ^ CONSTANTS[4],
    CONSTANTS[0] ^ CONSTANTS[1] ^ CONSTANTS[2] ^ CONSTANTS[3] ^ CONSTANTS[4],
];

// The character of each value, in lower and in upper case.
pub const ALPHABET: [u8; 32] = *b"qpzry9x8gf2tvdw0s3jn54khce6mua7l";

pub const CAPITALS: [u8; 32] = *b"QPZRY9X8GF2TVDW0S3JN54KHCE6MUA7L";

// How many symbols there are: a value of so much is none.
pub(crate) const SYMBOLS: u8 = 32;

// How far a letter in lower case stands over its capital.
pub const CASE: u8 = b'a' - b'A';

// The value of each byte, a letter's in either case; 32 for one outside the alphabet.
const VALUES: [u8; 256] = [
    32, 32, 32, 32, 32, 32, 32, 32, 32, 32, 32, 32, 32, 32, 32, 32, 32, 32, 32, 32, 32, 32, 32, 32,
    32, 32, 32, 32, 32, 32, 32, 32, 32, 32, 32, 32, 32, 32, 32, 32, 32, 32, 32, 32, 32, 32, 32, 32,
    15, 32, 10, 17, 21, 20, 26, 30, 7, 5, 32, 32, 32, 32, 32, 32, 32, 29, 32, 24, 13, 25, 9, 8, 23,
    32, 18, 22, 31, 27, 19, 32, 1, 0, 3, 16, 11, 28, 12, 14, 6, 4, 2, 32, 32, 32, 32, 32, 32, 29,
    32, 24, 13, 25, 9, 8, 23, 32, 18, 22, 31, 27, 19, 32, 1, 0, 3, 16, 11, 28, 12, 14, 6, 4, 2, 32,
    32, 32, 32, 32, 32, 32, 32, 32, 32, 32, 32, 32, 32, 32, 32, 32, 32, 32, 32, 32, 32, 32, 32, 32,
    32, 32, 32, 32, 32, 32, 32, 32, 32, 32, 32, 32, 32, 32, 32, 32, 32, 32, 32, 32, 32, 32, 32, 32,
    32, 32, 32, 32, 32, 32, 32, 32, 32, 32, 32, 32, 32, 32, 32, 32, 32, 32, 32, 32, 32, 32, 32, 32,
    32, 32, 32, 32, 32, 32, 32, 32, 32, 32, 32, 32, 32, 32, 32, 32, 32, 32, 32, 32, 32, 32, 32, 32,
    32, 32, 32, 32, 32, 32, 32, 32, 32, 32, 32, 32, 32, 32, 32, 32, 32, 32, 32, 32, 32, 32, 32, 32,
    32, 32, 32, 32, 32, 32, 32, 32, 32, 32, 32, 32,
];

// The table by value: a caller copies it once and lends it to each pass over a text. No static as FOLDS: the public functions are lent it.
pub fn values() -> [u8; 256]
    ensures { Values result }
{
    VALUES
}

// The table of folds, read in place.
pub(crate) fn folds() -> &'static [u32; 32]
    ensures { Folds result.now }
{
    &FOLDS
}

// The value of a byte, by the table.
pub(crate) fn look_up(table: &[u8; 256], b: u8) -> u8
    ensures { result ≡ value_in table.now b }
{
    table[usize::from(b)]
}

// Whether all bytes are characters, by the table.
pub fn are_characters(table: &[u8; 256], text: &[u8]) -> bool
    ensures { result ≡ are_symbols (map (value_in table.now) text.now) }
{
    character_run(table, text) == text.len()
}

// How many characters, by the table, stand at a text's front.
pub fn character_run(table: &[u8; 256], text: &[u8]) -> usize
    ensures { result ≡ run (λ v. ltb v 32) (map (value_in table.now) text.now) }
{
    text.iter()
        .take_while(|b| look_up(table, **b) < SYMBOLS)
        .count()
}

pub fn is_upper(b: u8) -> bool
    ensures { result ≡ is_upper b }
{
    b.is_ascii_uppercase()
}

pub fn is_lower(b: u8) -> bool
    ensures { result ≡ is_lower b }
{
    b.is_ascii_lowercase()
}

// A byte in lower case.
pub fn lowered(b: u8) -> u8
    ensures { result ≡ lower b }
{
    b.to_ascii_lowercase()
}
