// The machines, and what an opening is given: a machine and a plugin by their names, and whether there is a screen.
ghost use Rattle.std.specs.Prelude.{◌≡◌, [], IfOk};
ghost use Rattle.session.specs.Opening.{is_shown, machine_named, named_said, held, settings_said, settings};

use bech32::{LONGEST_NAME, Name};
use refusal::Refusal;

const RECIPIENT_V1: &[u8] = b"recipient-v1";

const IDENTITY_V1: &[u8] = b"identity-v1";

#[derive(Clone, Copy)]
pub enum Machine {
    RecipientV1,
    IdentityV1,
}

// Whether the client's host can show what the plugin asks.
#[derive(Clone, Copy)]
pub enum Screen {
    Shown,
    Absent,
}

pub(crate) fn is_shown(screen: Screen) -> bool
    ensures { result ≡ is_shown screen }
{
    matches!(screen, Screen::Shown)
}

#[tactic(auto, using(refusal::proofs::Laws::Same::pointwise_same))]
fn machine_named(name: &[u8]) -> Option<Machine>
    ensures { named_said result ≡ machine_named name.now }
{
    if name == RECIPIENT_V1 {
        return Some(Machine::RecipientV1);
    }
    if name == IDENTITY_V1 {
        return Some(Machine::IdentityV1);
    }
    None
}

// What an opening is given: the machine and the plugin's name.
#[derive(Clone, Copy)]
pub(crate) struct Settings {
    pub machine: Machine,
    pub name: Name,
}

impl Settings {
    // Those of a refused opening, which names nothing.
    pub(crate) fn refused() -> Settings
        ensures { result ≡ record { machine = Machine.RecipientV1; name = held [] } }
    {
        Settings {
            machine: Machine::RecipientV1,
            name: Name {
                bytes: [0; LONGEST_NAME],
                length: 0,
            },
        }
    }
}

// 18, then 17.
pub(crate) fn read_settings(machine: &[u8], name: &[u8]) -> Result<Settings, Refusal>
    ensures settings { settings_said result ≡ settings machine.now name.now }
    ensures name { IfOk result (λ s. s.name ≡ held (settings machine.now name.now).name) }
{
    let machine = machine_named(machine).ok_or(Refusal::NoSuchMachine)?;
    let name = bech32::name_of(name).ok_or(Refusal::Unwritable)?;
    Ok(Settings { machine, name })
}
