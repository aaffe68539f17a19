// The Bech32 checksum, symbol by symbol.
ghost use Rattle.std.specs.Prelude.{◌≡◌, map, ◌/◌, ◌%◌};
ghost use Rattle.symbols.specs.Charset.{lower};
ghost use Rattle.symbols.specs.Checksum.{stepped, polymod, expanded};
ghost use Rattle.symbols.specs.Calls.{closes};
ghost use Rattle.symbols.specs.Steps.{value_in};

use crate::charset::{SYMBOLS, folds, look_up, lowered};

// 2 to the 25th: the state's five top bits stand from there on.
const TOP: u32 = 33554432;

// The state after one symbol, by the table of folds.
fn step(state: u32, symbol: u8) -> u32
    ensures { result ≡ stepped state symbol }
{
    (state % TOP * 32) ^ u32::from(symbol) ^ folds()[(state / TOP % 32) as usize]
}

// The state after a human part, taken in lower case: the high bits of each byte, 0, and the low bits, which a letter has in either case.
pub fn fold_human(human: &[u8]) -> u32
    ensures { result ≡ polymod 1 (expanded (map lower human.now)) }
{
    let high = human
        .iter()
        .fold(1, |state, b| step(state, lowered(*b) / 32));
    human
        .iter()
        .fold(step(high, 0), |state, b| step(state, *b % 32))
}

// The state after some symbols.
pub fn fold_symbols(symbols: &[u8], from: u32) -> u32
    ensures { result ≡ polymod from symbols.now }
{
    symbols.iter().fold(from, |state, v| step(state, *v))
}

// Whether some bytes are all characters, by the table, and bring the state to 1. No early exit, so that the loop is unrolled: the bits
// seen in the values tell whether one of them is no symbol.
pub fn is_closed(table: &[u8; 256], text: &[u8], from: u32) -> bool
    ensures { result ≡ closes from (map (value_in table.now) text.now) }
{
    let mut state = from;
    let mut seen: u8 = 0;
    for b in text {
        let v = look_up(table, *b);
        seen |= v;
        state = step(state, v);
    }
    (seen < SYMBOLS) & (state == 1)
}
