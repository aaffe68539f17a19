// The session that an end keeps between calls, and its opening. It goes by value: payloads and entries lie in buffers and slots that each call is lent.
ghost use Rattle.std.specs.Prelude.{◌≡◌, false};
ghost use Rattle.session.specs.Opening.{held, is_shown, name_of};
ghost use Rattle.session.specs.Tables.{opened_slots, opened_header_slots, opened_tables};
ghost use Rattle.session.specs.Session.{session_of, opened, opened_untold, opening_said, carried_by, carried_first};

use crate::kinds::{Tables, open_tables};
use crate::opening::{Machine, Screen, Settings, is_shown, read_settings};
use crate::phases::Phase;
use bech32::Name;
use refusal::Refusal;
use stanza::Place;

// The machine, the plugin's name, whether there is a screen (the client's alone), the phase, and the tables. Of the input: where the reading of an unfinished
// stanza stands, how many bytes are kept, and how many the stanza has that waits for the host's reply; the bytes lie in an array that each call is lent.
#[derive(Clone, Copy)]
pub struct Session {
    pub machine: Machine,
    pub phase: Phase,
    pub screen: bool,
    pub name: Name,
    pub tables: Tables,
    pub reading: Place,
    pub kept: usize,
    pub awaited: usize,
}

// An opening: accepted, or 18 or 17 with a closed session.
#[derive(Clone, Copy)]
pub struct Opening {
    pub verdict: Result<(), Refusal>,
    pub session: Session,
}

impl Session {
    // A client session opens without a screen unless told otherwise.
    pub const SCREEN: Screen = Screen::Absent;

    // How many entries each kind has at most.
    pub const RECIPIENTS: usize = 64;

    pub const IDENTITIES: usize = 64;

    pub const FILE_KEYS: usize = 64;

    pub const HEADER_STANZAS: usize = 256;

    pub const ERRORS: usize = 384;

    pub const RETURNED_STANZAS: usize = 256;

    pub const RETURNED_KEYS: usize = 256;

    // How many slots the kinds other than header stanzas have together.
    pub const OTHER_SLOTS: usize = Session::RECIPIENTS
        + Session::IDENTITIES
        + Session::FILE_KEYS
        + Session::ERRORS
        + Session::RETURNED_STANZAS
        + Session::RETURNED_KEYS;

    // How many bytes of input each end is lent a place for: the front of an unfinished stanza or what was kept back, and at the client end the stanza that waits.
    pub const PLUGIN_INPUT: usize = stanza::LONGEST;

    pub const CLIENT_INPUT: usize = 2 * stanza::LONGEST;

    // A client session in phase one with empty tables, and without a screen: msg, confirm and the requests are answered fail at once.
    pub fn open(machine: &[u8], name: &[u8]) -> Opening
        ensures opening { opening_said result ≡ opened_untold machine.now name.now }
        ensures carried { carried_by result.session ≡ carried_first (held (opened_untold machine.now name.now).session.name) }
    {
        Session::open_with(machine, name, Session::SCREEN)
    }

    // The same, told by name whether there is a screen.
    pub fn open_with(machine: &[u8], name: &[u8], screen: Screen) -> Opening
        ensures opening { opening_said result ≡ opened machine.now name.now (is_shown screen) }
        ensures carried { carried_by result.session ≡ carried_first (held (opened machine.now name.now (is_shown screen)).session.name) }
    {
        match read_settings(machine, name) {
            Ok(settings) => Opening {
                verdict: Ok(()),
                session: Session::of(settings, screen, Phase::One),
            },
            Err(r) => Opening {
                verdict: Err(r),
                session: Session::of(Settings::refused(), screen, Phase::Closed),
            },
        }
    }

    // A session just opened: its tables are empty, and nothing is kept.
    fn of(settings: Settings, screen: Screen, phase: Phase) -> Session
        ensures session { session_of result opened_slots opened_header_slots ≡ record {
          machine = settings.machine;
          name = name_of settings.name;
          screen = is_shown screen;
          phase = phase;
          tables = opened_tables;
        } }
        ensures carried { carried_by result ≡ carried_first settings.name }
    {
        Session {
            machine: settings.machine,
            phase: phase,
            screen: is_shown(screen),
            name: settings.name,
            tables: open_tables(),
            reading: Place::Start,
            kept: 0,
            awaited: 0,
        }
    }

    // A plugin session: it has no screen.
    pub fn open_plugin(machine: &[u8], name: &[u8]) -> Opening
        ensures opening { opening_said result ≡ opened machine.now name.now false }
        ensures carried { carried_by result.session ≡ carried_first (held (opened machine.now name.now false).session.name) }
    {
        Session::open_with(machine, name, Screen::Absent)
    }

    // The same session in another phase and with other tables.
    pub fn moved(self, phase: Phase, tables: Tables) -> Session
        ensures { result ≡ record {
          machine = self.machine;
          phase = phase;
          screen = self.screen;
          name = self.name;
          tables = tables;
          reading = self.reading;
          kept = self.kept;
          awaited = self.awaited;
        } }
    {
        Session {
            phase,
            tables,
            ..self
        }
    }

    // The same session with other bytes kept and another stanza that waits.
    pub fn keeping(self, reading: Place, kept: usize, awaited: usize) -> Session
        ensures { result ≡ record {
          machine = self.machine;
          phase = self.phase;
          screen = self.screen;
          name = self.name;
          tables = self.tables;
          reading = reading;
          kept = kept;
          awaited = awaited;
        } }
    {
        Session {
            reading,
            kept,
            awaited,
            ..self
        }
    }
}
