// Parts of byte strings, cut to what is there, so that no caller owes a bound.

// The bytes from `from` up to `to`.
pub fn part(bytes: &[u8], from: usize, to: usize) -> &[u8] {
    let end = to.min(bytes.len());
    &bytes[from.min(end)..end]
}

// The first n bytes.
pub fn front(bytes: &[u8], n: usize) -> &[u8] {
    &bytes[..n.min(bytes.len())]
}

// The first n bytes, to write to.
pub fn front_mut(bytes: &mut [u8], n: usize) -> &mut [u8] {
    let end = n.min(bytes.len());
    &mut bytes[..end]
}

// Copies src behind the first `at` bytes of `out`, as much as fits: where the next byte goes.
pub fn append(src: &[u8], out: &mut [u8], at: usize) -> usize {
    let from = at.min(out.len());
    let n = src.len().min(out.len() - from);
    out[from..from + n].copy_from_slice(&src[..n]);
    from + n
}
