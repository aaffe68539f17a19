// Whose turn it is in phase two, and the phase behind a command.
ghost use Rattle.std.specs.Prelude.{◌≡◌, eqb};
ghost use Rattle.refusal.specs.Pick.{pick};
ghost use Rattle.refusal.specs.Verdict.{verdict_said};
ghost use Rattle.session.specs.Phases.{phase_refused};
ghost use Rattle.conversation.specs.TurnsTwo.{turn_two};
ghost use Rattle.conversation.specs.ReceivingTwo.{phase_received};
ghost use Rattle.conversation.specs.SendingTwo.{phase_sent};
ghost use Rattle.phase_two_commands.specs.Commands.{command_said};

use phase_two_commands::CommandTwo;
use refusal::Refusal;
use session::{Phase, WordTwo, phase_refused};

// Not one function with phase_one's turn_one, which says why.
// Whether it is the turn of a command of phase two: 13 where the session is closed or has ended, 14 in phase one or while an answer is due.
pub fn turn_two(phase: Phase) -> Result<(), Refusal>
    ensures { verdict_said result ≡ turn_two phase }
{
    match phase {
        Phase::One => Err(Refusal::OutOfTurn),
        Phase::Two => Ok(()),
        Phase::Awaiting(_) => Err(Refusal::OutOfTurn),
        Phase::Ended => Err(Refusal::SessionOver),
        Phase::Closed => Err(Refusal::SessionOver),
    }
}

// The phase behind an accepted command that was received.
fn phase_taken(screen: bool, command: Result<CommandTwo, Refusal>) -> Phase
    ensures { result ≡ phase_received screen (command_said command) }
{
    match command {
        Ok(CommandTwo::Ask(word)) => {
            if screen {
                return Phase::Awaiting(word);
            }
            Phase::Two
        }
        Ok(CommandTwo::Stanza(_)) => Phase::Two,
        Ok(CommandTwo::Key(_)) => Phase::Two,
        Ok(CommandTwo::Error(_)) => Phase::Two,
        Ok(CommandTwo::Done) => Phase::Ended,
        Ok(CommandTwo::Other) => Phase::Two,
        Err(_) => Phase::Two,
    }
}

// The phase behind an accepted command that was sent.
fn phase_spoken(command: Result<CommandTwo, Refusal>) -> Phase
    ensures { result ≡ phase_sent (command_said command) }
{
    match command {
        Ok(CommandTwo::Ask(word)) => Phase::Awaiting(word),
        Ok(CommandTwo::Stanza(_)) => Phase::Awaiting(WordTwo::RecipientStanza),
        Ok(CommandTwo::Key(_)) => Phase::Awaiting(WordTwo::FileKey),
        Ok(CommandTwo::Error(_)) => Phase::Awaiting(WordTwo::Error),
        Ok(CommandTwo::Done) => Phase::Ended,
        Ok(CommandTwo::Other) => Phase::Awaiting(WordTwo::Other),
        Err(_) => Phase::Two,
    }
}

// The phase behind a command that was received in a phase.
pub fn phase_received_two(
    phase: Phase,
    screen: bool,
    verdict: Result<(), Refusal>,
    command: Result<CommandTwo, Refusal>,
) -> Phase
    ensures { result ≡ pick (eqb (verdict_said verdict) 0) (phase_received screen (command_said command)) (phase_refused phase (verdict_said verdict)) }
{
    match verdict {
        Ok(()) => phase_taken(screen, command),
        Err(r) => phase_refused(phase, r),
    }
}

// The phase behind a command that was sent in a phase: no refusal closes the session.
pub fn phase_sent_two(
    phase: Phase,
    verdict: Result<(), Refusal>,
    command: Result<CommandTwo, Refusal>,
) -> Phase
    ensures { result ≡ pick (eqb (verdict_said verdict) 0) (phase_sent (command_said command)) phase }
{
    match verdict {
        Ok(()) => phase_spoken(command),
        Err(_) => phase,
    }
}
