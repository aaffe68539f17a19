// 8 bits to 5 and back: five bytes are eight symbols.
ghost use Rattle.std.specs.Prelude.{◌≡◌, ◌++◌, map, ◌+◌, ◌*◌, ◌/◌, ◌%◌, ◌<◌, ◌≤◌, length, drop, get_or};
ghost use Rattle.symbols.specs.Regroup.{symbols, bytes, is_whole};
ghost use Rattle.refusal.specs.Output.{filled};
ghost use Rattle.symbols.specs.Calls.{bytes_size, symbols_size};
ghost use Rattle.symbols.specs.Steps.{value_in, symbol_in, is_clear};

use crate::charset::look_up;

// How many bytes n symbols make.
pub fn bytes_length(n: usize) -> usize
    ensures { result ≡ bytes_size n }
{
    n / 8 * 5 + n % 8 * 5 / 8
}

// Whether fewer than 5 bits remain and all are zero, by how many remain and the last symbol.
fn is_clear(left: usize, last: u8) -> bool
    ensures { result ≡ is_clear left last }
{
    left < 5 && last % (1 << left) == 0
}

// Whether the symbols of some characters, by the table, are whole bytes.
pub fn is_whole(table: &[u8; 256], text: &[u8]) -> bool
    ensures { result ≡ is_whole (map (value_in table.now) text.now) }
{
    let Some(b) = text.last() else {
        return true;
    };
    is_clear(text.len() % 8 * 5 % 8, look_up(table, *b))
}

// The symbol of the character at i.
fn symbol(table: &[u8; 256], text: &[u8], i: usize) -> u8
    requires { i < length text.now }
    ensures value { result ≡ symbol_in table.now (get_or text.now i 0) }
    ensures small { result < 32 }
{
    look_up(table, text[i]) % 32
}

// The bytes of some characters, by the table, at the front of `out`; nothing where it is too short.
pub fn decode(table: &[u8; 256], text: &[u8], out: &mut [u8])
    ensures { out.new ≡ filled (bytes (map (symbol_in table.now) text.now)) out.old }
{
    if out.len() < bytes_length(text.len()) {
        return;
    }
    decode_into(table, text, out);
}

// The same where it is long enough.
fn decode_into(table: &[u8; 256], text: &[u8], out: &mut [u8])
    requires { bytes_size (length text.now) ≤ length out.old }
    ensures { out.new ≡
        bytes (map (symbol_in table.now) text.now) ++ drop (length (bytes (map (symbol_in table.now) text.now)))
        out.old }
{
    let (groups, rest) = text.as_chunks::<8>();
    for (i, group) in groups.iter().enumerate() {
        decode_group(table, group, &mut out[5 * i..]);
    }
    decode_rest(table, rest, &mut out[5 * groups.len()..]);
}

// The same for eight characters.
fn decode_group(table: &[u8; 256], text: &[u8; 8], out: &mut [u8])
    requires { 5 ≤ length out.old }
    ensures { out.new ≡ bytes (map (symbol_in table.now) text.now) ++ drop 5 out.old }
{
    let p = symbol(table, text, 0);
    let q = symbol(table, text, 1);
    let r = symbol(table, text, 2);
    let s = symbol(table, text, 3);
    let t = symbol(table, text, 4);
    let u = symbol(table, text, 5);
    let v = symbol(table, text, 6);
    let w = symbol(table, text, 7);
    out[0] = p * 8 + q / 4;
    out[1] = q % 4 * 64 + r * 2 + s / 16;
    out[2] = s % 16 * 16 + t / 2;
    out[3] = t % 2 * 128 + u * 4 + v / 8;
    out[4] = v % 8 * 32 + w;
}

// The same for fewer than eight: the first bytes of a group that they begin.
fn decode_rest(table: &[u8; 256], text: &[u8], out: &mut [u8])
    requires text_len_bound { length text.now < 8 }
    requires text_in_bounds { bytes_size (length text.now) ≤ length out.old }
    ensures { out.new ≡
        bytes (map (symbol_in table.now) text.now) ++ drop (length (bytes (map (symbol_in table.now) text.now)))
        out.old }
{
    let mut group = [0; 8];
    group[..text.len()].copy_from_slice(text);
    let mut whole = [0; 5];
    decode_group(table, &group, &mut whole);
    let n = bytes_length(text.len());
    out[..n].copy_from_slice(&whole[..n]);
}

// The symbols of some bytes at the front of `out`; nothing where it is too short.
pub fn encode(payload: &[u8], out: &mut [u8])
    ensures { out.new ≡ filled (symbols payload.now) out.old }
{
    if bytes_length(out.len()) < payload.len() {
        return;
    }
    symbols_into(payload, out);
}

// The same where it is long enough.
fn symbols_into(payload: &[u8], out: &mut [u8])
    requires { symbols_size (length payload.now) ≤ length out.old }
    ensures { out.new ≡ symbols payload.now ++ drop (length (symbols payload.now)) out.old }
{
    let (groups, rest) = payload.as_chunks::<5>();
    for (i, group) in groups.iter().enumerate() {
        symbols_group(group, &mut out[8 * i..]);
    }
    symbols_rest(rest, &mut out[8 * groups.len()..]);
}

// The same for five bytes.
fn symbols_group(payload: &[u8; 5], out: &mut [u8])
    requires { 8 ≤ length out.old }
    ensures { out.new ≡ symbols payload.now ++ drop 8 out.old }
{
    let [a, b, c, d, e] = *payload;
    out[0] = a / 8;
    out[1] = a % 8 * 4 + b / 64;
    out[2] = b / 2 % 32;
    out[3] = b % 2 * 16 + c / 16;
    out[4] = c % 16 * 2 + d / 128;
    out[5] = d / 4 % 32;
    out[6] = d % 4 * 8 + e / 32;
    out[7] = e % 32;
}

// The same for fewer than five: the first symbols of a group that they begin, zeros behind them.
fn symbols_rest(payload: &[u8], out: &mut [u8])
    requires payload_len_bound { length payload.now < 5 }
    requires payload_in_bounds { symbols_size (length payload.now) ≤ length out.old }
    ensures { out.new ≡ symbols payload.now ++ drop (length (symbols payload.now)) out.old }
{
    let mut group = [0; 5];
    group[..payload.len()].copy_from_slice(payload);
    let mut whole = [0; 8];
    symbols_group(&group, &mut whole);
    let n = (payload.len() * 8 + 4) / 5;
    out[..n].copy_from_slice(&whole[..n]);
}
