// The stanza check of one plugin, fido2-hmac: whether a stanza is conforming, nonconforming or unknown (document 01, "Phase two").
#![tactic(auto)]

ghost use Rattle.std.specs.Prelude.{◌≡◌, ◌&&◌, drop};
ghost use Rattle.stanza.specs.Arguments.{words, argument_of};
ghost use Rattle.profile.specs.Profile.{is_bytes, is_some, are_arguments, is_known, found, checked};

#[derive(Clone, Copy)]
pub enum Conformity {
    Conforming,
    Nonconforming,
    Unknown,
}

// How many bytes the first two arguments and the body have.
const SALT: usize = 32;

const NONCE: usize = 12;

const BODY: usize = 32;

// Whether a text is base64 of n bytes.
fn is_bytes(n: usize, text: &[u8]) -> bool
    ensures { result ≡ is_bytes n text.now }
{
    strict_base64::measure(text) == Some(n)
}

// Whether a text is base64 of at least 1 byte.
fn is_some(text: &[u8]) -> bool
    ensures { result ≡ is_some text.now }
{
    strict_base64::measure(text).is_some_and(|size| 1 <= size)
}

// Whether the first two arguments behind the tag are 32 and 12 bytes.
fn are_two(line: &[u8]) -> bool
    ensures { result ≡ (is_bytes 32 (argument_of line.now 1) && is_bytes 12 (argument_of line.now 2)) }
{
    let salt = stanza::argument(line, 1);
    if !is_bytes(SALT, salt) {
        return false;
    }
    let nonce = stanza::argument(line, 2);
    is_bytes(NONCE, nonce)
}

// Whether the arguments behind the tag are those of a fido2-hmac stanza.
fn are_arguments(line: &[u8]) -> bool
    ensures { result ≡ are_arguments (drop 1 (words line.now)) }
{
    let n = stanza::count(line);
    if n == 3 {
        return are_two(line);
    }
    if n != 4 {
        return false;
    }
    if !are_two(line) {
        return false;
    }
    let credential = stanza::argument(line, 3);
    is_some(credential)
}

// Whether a stanza's tag is known to the plugin.
fn is_known(plugin: &[u8], line: &[u8]) -> bool
    ensures { result ≡ is_known plugin.now line.now }
{
    if !bech32::is_lowered(plugin, b"fido2-hmac") {
        return false;
    }
    let tag = stanza::argument(line, 0);
    stanza::is_same(tag, b"fido2-hmac")
}

// What a stanza is to a plugin: `line` is its tag and arguments, separated by single spaces, `body` how many bytes its body has.
pub fn check(plugin: &[u8], line: &[u8], body: usize) -> Conformity
    ensures { found result ≡ checked plugin.now line.now body }
{
    if !is_known(plugin, line) {
        return Conformity::Unknown;
    }
    if !are_arguments(line) {
        return Conformity::Nonconforming;
    }
    if body == BODY {
        return Conformity::Conforming;
    }
    Conformity::Nonconforming
}
