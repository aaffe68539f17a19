// Writing recipients and identities.
ghost use Rattle.std.specs.Prelude.{◌≡◌, true, [], ◌∷◌, ◌++◌, map, ◌+◌, ◌≤◌, length, drop};
ghost use Rattle.refusal.specs.Output.{said};
ghost use Rattle.symbols.specs.Charset.{character_of};
ghost use Rattle.symbols.specs.Checksum.{polymod, checksum, are_symbols};
ghost use Rattle.bech32.specs.Text.{in_case, human_part, text_of, is_name};
ghost use Rattle.bech32.specs.Calls.{form_of, write_answer, write_buffer};
ghost use Rattle.bech32.specs.Steps.{with_checksum};
ghost use Rattle.symbols.specs.Calls.{symbols_size};

use crate::charset::characters;
use crate::human::{human_length, is_name, put_human};
use crate::{CHECKSUM, LONGEST, TAIL, TextKind};
use refusal::Refusal;
use symbols::{encode, fold_human, fold_symbols};

// How many symbols n bytes make.
fn symbols_length(n: usize) -> usize
    requires { n ≤ 1024 }
    ensures { result ≡ symbols_size n }
{
    (n * 8 + 4) / 5
}

// The text of a name and a payload at the front of `out`: how long it is; or 17 where the name is none or the text would be longer than
// 1,024, then 15; nothing written then.
pub fn write(kind: TextKind, name: &[u8], payload: &[u8], out: &mut [u8]) -> Result<usize, Refusal>
    ensures answer { said result ≡ write_answer (form_of kind) name.now payload.now out.old }
    ensures buffer { out.new ≡ write_buffer (form_of kind) name.now payload.now out.old }
{
    if !is_name(name) {
        return Err(Refusal::Unwritable);
    }
    if LONGEST < payload.len() {
        return Err(Refusal::Unwritable);
    }
    let n = human_length(kind, name.len()) + symbols_length(payload.len()) + TAIL;
    if LONGEST < n {
        return Err(Refusal::Unwritable);
    }
    if out.len() < n {
        return Err(Refusal::ShortOutput);
    }
    write_into(kind, name, payload, out);
    Ok(n)
}

// The same where the name is one and the buffer is long enough.
fn write_into(kind: TextKind, name: &[u8], payload: &[u8], out: &mut [u8])
    requires name_value { is_name name.now ≡ true }
    requires payload_len_bound { length payload.now ≤ 1024 }
    requires payload_in_bounds { length (human_part (form_of kind) name.now) + symbols_size (length payload.now) + 7 ≤ length out.old }
    ensures { out.new ≡
        text_of (form_of kind) name.now payload.now ++ drop (length (text_of (form_of kind) name.now payload.now))
        out.old }
{
    let h = human_length(kind, name.len());
    put_human(kind, name, out);
    out[h] = b'1';
    let state = fold_human(&out[..h]);
    let from = h + 1;
    put_characters(kind, payload, state, &mut out[from..]);
}

// The characters of a payload and of its checksum behind a state, at the front of `out`, which is long enough.
fn put_characters(kind: TextKind, payload: &[u8], from: u32, out: &mut [u8])
    requires payload_len_bound { length payload.now ≤ 1024 }
    requires payload_in_bounds { symbols_size (length payload.now) + 6 ≤ length out.old }
    ensures { out.new ≡
        in_case (form_of kind) (map character_of (with_checksum from payload.now)) ++ drop (symbols_size (length payload.now) + 6)
        out.old }
{
    let end = symbols_length(payload.len()) + CHECKSUM;
    put_symbols(payload, from, out);
    translate(kind, &mut out[..end]);
}

// The symbols of a payload and of its checksum behind a state, at the front of `out`, which is long enough.
fn put_symbols(payload: &[u8], from: u32, out: &mut [u8])
    requires payload_len_bound { length payload.now ≤ 1024 }
    requires payload_in_bounds { symbols_size (length payload.now) + 6 ≤ length out.old }
    ensures { out.new ≡ with_checksum from payload.now ++ drop (symbols_size (length payload.now) + 6) out.old }
{
    let n = symbols_length(payload.len());
    encode(payload, out);
    let state = fold_symbols(&out[..n], from);
    put_checksum(state, &mut out[n..]);
}

// The six symbols of the checksum behind a state, at the front of `out`, which is long enough.
fn put_checksum(from: u32, out: &mut [u8])
    requires { 6 ≤ length out.old }
    ensures { out.new ≡ checksum from ++ drop 6 out.old }
{
    let c = six_zeros(from) ^ 1;
    out[0] = (c / 33554432 % 32) as u8;
    out[1] = (c / 1048576 % 32) as u8;
    out[2] = (c / 32768 % 32) as u8;
    out[3] = (c / 1024 % 32) as u8;
    out[4] = (c / 32 % 32) as u8;
    out[5] = (c % 32) as u8;
}

// The state after six zeros.
fn six_zeros(from: u32) -> u32
    ensures { result ≡ polymod from (0 ∷ 0 ∷ 0 ∷ 0 ∷ 0 ∷ 0 ∷ []) }
{
    let zeros = [0u8; CHECKSUM];
    fold_symbols(&zeros, from)
}

// Symbols to characters, in place.
fn translate(kind: TextKind, out: &mut [u8])
    requires { are_symbols out.old ≡ true }
    ensures { out.new ≡ in_case (form_of kind) (map character_of out.old) }
{
    let table = characters(kind);
    for v in out {
        *v = table[usize::from(*v)];
    }
}
