// A command of phase two entered without its payload: the number, the tables and the slots of a step, by how many bytes the payload and the buffers have.
// So a whole text can be judged on a copy of the slots before a buffer is written.
ghost use Rattle.std.specs.Prelude.{◌≡◌, List, ℕ, length};
ghost use Rattle.refusal.specs.Verdict.{verdict_said};
ghost use Rattle.tables.specs.Bodies.{body_from};
ghost use Rattle.session.specs.Tables.{tables_in};
ghost use Rattle.conversation.specs.CommandsTwo.{payload_of};
ghost use Rattle.conversation.specs.PhaseTwo.{BuffersTwo};
ghost use Rattle.phase_two_commands.specs.Commands.{command_said};
ghost use Rattle.phase_two.specs.Entering.{AreLong, Entered};

use crate::steps::{StepTwo, index_of, mark_of, stepped};
use phase_one::{rest_of, wide};
use phase_two_commands::CommandTwo;
use refusal::Refusal;
use session::{Kind, Mark, Tables, span_of};
use tables::{Body, body_size};

// How many bytes a command's payload has, by its arguments' text and its body: both are slices, so the sum fits.
pub fn payload_size(command: Result<CommandTwo, Refusal>, line: &[u8], body: Body<'_>) -> usize
    ensures { result ≡ length (payload_of (command_said command) line.now (body_from body.entry)) }
{
    match command {
        Ok(CommandTwo::Stanza(_)) => {
            let rest = rest_of(line);
            rest.len() + 1 + body_size(body)
        }
        Ok(CommandTwo::Key(_)) => body_size(body),
        Ok(CommandTwo::Error(_)) => body_size(body),
        Ok(CommandTwo::Ask(_)) => 0,
        Ok(CommandTwo::Done) => 0,
        Ok(CommandTwo::Other) => 0,
        Err(_) => 0,
    }
}

// One command of phase two, by what the tables decide of it (`ruled`), how many bytes its payload has (`size`) and how many the buffers have. Where it is
// refused tables and slots stay as they were. `late` is a fault that is looked for last.
pub fn enter_two(
    ruled: Result<(), Refusal>,
    late: Result<(), Refusal>,
    tables: Tables,
    command: Result<CommandTwo, Refusal>,
    size: usize,
    errors: usize,
    stanzas: usize,
    returned: usize,
    slots: &mut [[usize; 4]],
) -> StepTwo
    ensures { (hs : List (List ℕ)) (b : BuffersTwo) (p : List ℕ) → AreLong b errors stanzas returned → length p ≡ size →
        Entered (verdict_said ruled) (tables_in tables slots.old hs) b (command_said command) p (verdict_said late) (verdict_said result.verdict)
        (tables_in result.tables slots.new hs) }
{
    match ruled {
        Err(_) => StepTwo {
            verdict: ruled,
            tables: tables,
        },
        Ok(()) => enter(
            late, tables, command, size, errors, stanzas, returned, slots,
        ),
    }
}

// A command that the tables do not refuse: one entry of its kind more, where it fits and nothing is late.
fn enter(
    late: Result<(), Refusal>,
    tables: Tables,
    command: Result<CommandTwo, Refusal>,
    size: usize,
    errors: usize,
    stanzas: usize,
    returned: usize,
    slots: &mut [[usize; 4]],
) -> StepTwo
    ensures { (hs : List (List ℕ)) (b : BuffersTwo) (p : List ℕ) → AreLong b errors stanzas returned → length p ≡ size →
        Entered 0 (tables_in tables slots.old hs) b (command_said command) p (verdict_said late) (verdict_said result.verdict)
        (tables_in result.tables slots.new hs) }
{
    match command {
        Ok(CommandTwo::Stanza(file)) => {
            let t = tables.stanzas;
            let span = span_of(Kind::Stanzas);
            let stored = t.enter(span, late, size, wide(file), Mark::NONE, stanzas, slots);
            stepped(tables, Kind::Stanzas, stored)
        }
        Ok(CommandTwo::Key(file)) => {
            let t = tables.returned;
            let span = span_of(Kind::Returned);
            let stored = t.enter(span, late, size, wide(file), Mark::NONE, returned, slots);
            stepped(tables, Kind::Returned, stored)
        }
        Ok(CommandTwo::Error(named)) => {
            let t = tables.errors;
            let span = span_of(Kind::Errors);
            let index = index_of(named);
            let mark = mark_of(named);
            let stored = t.enter(span, late, size, index, mark, errors, slots);
            stepped(tables, Kind::Errors, stored)
        }
        Ok(CommandTwo::Ask(_)) => StepTwo {
            verdict: late,
            tables: tables,
        },
        Ok(CommandTwo::Done) => StepTwo {
            verdict: late,
            tables: tables,
        },
        Ok(CommandTwo::Other) => StepTwo {
            verdict: late,
            tables: tables,
        },
        Err(_) => StepTwo {
            verdict: late,
            tables: tables,
        },
    }
}
