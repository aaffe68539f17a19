// Whose turn it is in phase one, and the phase behind a command.
ghost use Rattle.std.specs.Prelude.{◌≡◌, List, ℕ};
ghost use Rattle.refusal.specs.Verdict.{verdict_said};
ghost use Rattle.phase_one.specs.Commands.{command_said};
ghost use Rattle.phase_one.specs.Turns.{turn_one, phase_after, phase_received, phase_sent};

use crate::commands::CommandOne;
use refusal::Refusal;
use session::{Phase, phase_refused};

// Not one function with phase_two's turn_two: told which phase speaks, it would choose in the first two arms, and be no shorter.
// Whether it is the turn of a call of phase one: 13 where the session is closed or has ended, 14 in phase two.
pub fn turn_one(phase: Phase) -> Result<(), Refusal>
    ensures { verdict_said result ≡ turn_one phase }
{
    match phase {
        Phase::One => Ok(()),
        Phase::Two => Err(Refusal::OutOfTurn),
        Phase::Awaiting(_) => Err(Refusal::OutOfTurn),
        Phase::Ended => Err(Refusal::SessionOver),
        Phase::Closed => Err(Refusal::SessionOver),
    }
}

// The phase behind an accepted command of phase one.
fn phase_after(command: Result<CommandOne, Refusal>) -> Phase
    ensures { (plugin line : List ℕ) (n : ℕ) → result ≡ phase_after (command_said plugin line n command) }
{
    match command {
        Ok(CommandOne::Done) => Phase::Two,
        Ok(CommandOne::Recipient) => Phase::One,
        Ok(CommandOne::Identity) => Phase::One,
        Ok(CommandOne::Key) => Phase::One,
        Ok(CommandOne::Header(_)) => Phase::One,
        Ok(CommandOne::Other) => Phase::One,
        Err(_) => Phase::One,
    }
}

// The phase behind a command that was received in a phase.
pub fn phase_received(
    phase: Phase,
    verdict: Result<(), Refusal>,
    command: Result<CommandOne, Refusal>,
) -> Phase
    ensures { (plugin line : List ℕ) (n : ℕ) → result ≡ phase_received phase (verdict_said verdict) (command_said plugin line n command) }
{
    match verdict {
        Ok(()) => phase_after(command),
        Err(r) => phase_refused(phase, r),
    }
}

// The phase behind a command that was sent in a phase: no refusal closes the session.
pub fn phase_sent(
    phase: Phase,
    verdict: Result<(), Refusal>,
    command: Result<CommandOne, Refusal>,
) -> Phase
    ensures { (plugin line : List ℕ) (n : ℕ) → result ≡ phase_sent phase (verdict_said verdict) (command_said plugin line n command) }
{
    match verdict {
        Ok(()) => phase_after(command),
        Err(_) => phase,
    }
}
