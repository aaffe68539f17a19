// The alphabet in the case of each kind of text.
ghost use Rattle.std.specs.Prelude.{◌≡◌};
ghost use Rattle.bech32.specs.Calls.{form_of};
ghost use Rattle.bech32.specs.Steps.{Characters, cased_byte};

use crate::TextKind;
use symbols::{ALPHABET, CAPITALS};

// The character of each value in the kind's case.
pub(crate) fn characters(kind: TextKind) -> [u8; 32]
    ensures { Characters (form_of kind) result }
{
    match kind {
        TextKind::Recipient => ALPHABET,
        TextKind::Identity => CAPITALS,
    }
}

// A byte in the kind's case.
pub(crate) fn cased(kind: TextKind, b: u8) -> u8
    ensures { result ≡ cased_byte (form_of kind) b }
{
    match kind {
        TextKind::Recipient => b,
        TextKind::Identity => b.to_ascii_uppercase(),
    }
}
