// Payloads copied into the buffers. A body is given as its bytes, or as the lines of base64 that a stanza has of it: those are decoded where they are kept.
ghost use Rattle.std.specs.Prelude.{◌≡◌, ◌∷◌, ◌++◌, ◌+◌, ◌≤◌, length, drop, option_copied};
ghost use Rattle.tables.specs.Bodies.{body_from, payload_from, source_of};

// A body as a call is given it.
#[derive(Clone, Copy)]
pub enum Body<'a> {
    Bytes(&'a [u8]),
    Lines(&'a [u8]),
}

// How many bytes a body has.
pub fn body_size(body: Body<'_>) -> usize
    ensures { (result ≡ length (body_from body.entry)) × (result ≤ length (source_of body.entry)) }
{
    match body {
        Body::Bytes(source) => source.len(),
        Body::Lines(source) => strict_base64::body_length(source.len()),
    }
}

// A body at the front of `out`, which is long enough.
fn put_body(body: Body<'_>, out: &mut [u8])
    requires { length (body_from body) ≤ length out.old }
    ensures { out.new ≡ body_from body.entry ++ drop (length (body_from body.entry)) out.old }
{
    match body {
        Body::Bytes(source) => stanza::copy(source, out),
        Body::Lines(source) => {
            let _ = strict_base64::decode_lines(source, out);
        }
    }
}

// How many bytes a payload has: a body's, behind a line and an LF where there is a line.
pub(crate) fn payload_size(line: Option<&[u8]>, body: Body<'_>) -> usize
    ensures { result ≡ length (payload_from (option_copied line.entry) body.entry) }
{
    match line {
        Some(line) => line.len() + 1 + body_size(body),
        None => body_size(body),
    }
}

// A payload at the front of `out`, which is long enough.
pub(crate) fn put_payload(line: Option<&[u8]>, body: Body<'_>, out: &mut [u8])
    requires { length (payload_from (option_copied line) body) ≤ length out.old }
    ensures { out.new ≡
        payload_from (option_copied line.entry) body.entry ++ drop (length (payload_from (option_copied line.entry) body.entry)) out.old }
{
    match line {
        Some(line) => put_lines(line, body, out),
        None => put_body(body, out),
    }
}

// A line, an LF and a body at the front of `out`, which is long enough.
fn put_lines(line: &[u8], body: Body<'_>, out: &mut [u8])
    requires { length line.now + 1 + length (body_from body) ≤ length out.old }
    ensures { out.new ≡
        (line.now ++ 10 ∷ body_from body.entry) ++ drop
        (length line.now + 1 + length (body_from body.entry)) out.old }
{
    let n = line.len();
    stanza::copy(line, out);
    out[n] = b'\n';
    let from = n + 1;
    put_body(body, &mut out[from..]);
}
