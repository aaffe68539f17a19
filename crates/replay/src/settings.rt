// The lines that open a session or change the lengths of its buffers.
use refusal::Refusal;
use replay_answers::Memory;
use replay_lines::{Lengths, Opened, Words};
use script::ScreenChoice;
use session::{Screen, Session};

// Which end is open.
#[derive(Clone, Copy)]
pub enum End {
    Client,
    Plugin,
}

// The session of an end.
#[derive(Clone, Copy)]
pub struct Open {
    pub end: End,
    pub session: Session,
}

// open client MACHINE NAME .., open plugin MACHINE NAME ..: the buffers of a session that is opened are zeros.
pub fn open_session(
    opened: Opened,
    lengths: Lengths,
    words: &Words,
    memory: &mut Memory,
) -> Result<Open, Refusal> {
    let machine = words.get(2);
    let name = words.get(3);
    let (end, opening) = match opened {
        Opened::Client(ScreenChoice::Shown) => (
            End::Client,
            Session::open_with(machine, name, Screen::Shown),
        ),
        Opened::Client(ScreenChoice::Missing) => (
            End::Client,
            Session::open_with(machine, name, Screen::Absent),
        ),
        Opened::Client(ScreenChoice::Default) => (End::Client, Session::open(machine, name)),
        Opened::Plugin => (End::Plugin, Session::open_plugin(machine, name)),
    };
    opening.verdict?;
    memory.open(lengths);
    Ok(Open {
        end,
        session: opening.session,
    })
}
