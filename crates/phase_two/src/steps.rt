// What a command of phase two comes to, behind what the tables decide of it: it is kept where nothing refuses it.
ghost use Rattle.std.specs.Prelude.{◌≡◌, true, List, ◌∷◌, ◌++◌, ℕ, eqb, length};
ghost use Rattle.refusal.specs.Pick.{pick};
ghost use Rattle.refusal.specs.Verdict.{verdict_said};
ghost use Rattle.tables.specs.Bodies.{body_from};
ghost use Rattle.tables.specs.Slots.{are_apart, slots_of};
ghost use Rattle.tables.specs.declared.slots.Span.{Span as AnySpan};
ghost use Rattle.tables.specs.Tables.{table_in, storing, entered, kept};
ghost use Rattle.session.specs.Tables.{span_of, tables_in, with_table};
ghost use Rattle.phase_one.specs.Commands.{rest_of};
ghost use Rattle.conversation.specs.CommandsTwo.{payload_of};
ghost use Rattle.conversation.specs.PhaseTwo.{buffers_of, applied, filled_by, mark_of, index_of};
ghost use Rattle.phase_two_commands.specs.Commands.{named_said, command_said};
ghost use Rattle.phase_two.specs.Steps.{number_stepped};

use phase_one::{rest_of, wide};
use phase_two_commands::{CommandTwo, Named};
use refusal::Refusal;
use session::{Kind, Mark, Tables, span_of};
use tables::{Body, Stored, Table};

// An error's mark: what it names.
pub(crate) fn mark_of(named: Named) -> usize
    ensures { result ≡ mark_of (named_said named) }
{
    match named {
        Named::Internal => Mark::INTERNAL,
        Named::Identity(_) => Mark::IDENTITY,
        Named::Recipient(_) => Mark::RECIPIENT,
        Named::Header(file, _) => Mark::STANZA + wide(file),
    }
}

// An error's index: the number that it names.
pub(crate) fn index_of(named: Named) -> usize
    ensures { result ≡ index_of (named_said named) }
{
    match named {
        Named::Internal => 0,
        Named::Identity(index) => wide(index),
        Named::Recipient(index) => wide(index),
        Named::Header(_, index) => wide(index),
    }
}

// What a command of phase two came to: the number if it is refused, and the tables.
#[derive(Clone, Copy)]
pub struct StepTwo {
    pub verdict: Result<(), Refusal>,
    pub tables: Tables,
}

// A returned stanza kept: its payload is its tag and arguments, an LF and its body. Nothing changes where it is refused.
fn keep_stanza(
    table: Table,
    late: Result<(), Refusal>,
    line: &[u8],
    body: Body<'_>,
    file: u32,
    slots: &mut [[usize; 4]],
    stanzas: &mut [u8],
) -> Stored
    ensures number { verdict_said result.verdict ≡
        storing (table_in (span_of Kind.Stanzas) table slots.old) (length (rest_of line.now ++ 10 ∷ body_from body.entry))
        (length stanzas.old) (verdict_said late) }
    ensures table { table_in (span_of Kind.Stanzas) result.table slots.new ≡
        pick (eqb (verdict_said result.verdict) 0) (entered (table_in (span_of Kind.Stanzas) table slots.old)
        (length (rest_of line.now ++ 10 ∷ body_from body.entry)) file 0 (length stanzas.old))
        (table_in (span_of Kind.Stanzas) table slots.old) }
    ensures others { (k : AnySpan) → are_apart (span_of Kind.Stanzas) k ≡ true → slots_of k slots.new ≡ slots_of k slots.old }
    ensures buffer { stanzas.new ≡
        pick (eqb (verdict_said result.verdict) 0) (kept (table_in (span_of Kind.Stanzas) table slots.old)
        (rest_of line.now ++ 10 ∷ body_from body.entry) stanzas.old) stanzas.old }
{
    table.store_lines(
        span_of(Kind::Stanzas),
        late,
        rest_of(line),
        body,
        wide(file),
        Mark::NONE,
        slots,
        stanzas,
    )
}

// A returned file key kept.
fn keep_key(
    table: Table,
    late: Result<(), Refusal>,
    body: Body<'_>,
    file: u32,
    slots: &mut [[usize; 4]],
    returned: &mut [u8],
) -> Stored
    ensures number { verdict_said result.verdict ≡
        storing (table_in (span_of Kind.Returned) table slots.old) (length (body_from body.entry)) (length returned.old)
        (verdict_said late) }
    ensures table { table_in (span_of Kind.Returned) result.table slots.new ≡
        pick (eqb (verdict_said result.verdict) 0) (entered (table_in (span_of Kind.Returned) table slots.old)
        (length (body_from body.entry)) file 0 (length returned.old)) (table_in (span_of Kind.Returned) table slots.old) }
    ensures others { (k : AnySpan) → are_apart (span_of Kind.Returned) k ≡ true → slots_of k slots.new ≡ slots_of k slots.old }
    ensures buffer { returned.new ≡
        pick (eqb (verdict_said result.verdict) 0) (kept (table_in (span_of Kind.Returned) table slots.old) (body_from body.entry)
        returned.old) returned.old }
{
    table.store(
        span_of(Kind::Returned),
        late,
        body,
        wide(file),
        Mark::NONE,
        slots,
        returned,
    )
}

// An error kept, with the number and the kind of what it names.
fn keep_error(
    table: Table,
    late: Result<(), Refusal>,
    body: Body<'_>,
    named: Named,
    slots: &mut [[usize; 4]],
    errors: &mut [u8],
) -> Stored
    ensures number { verdict_said result.verdict ≡
        storing (table_in (span_of Kind.Errors) table slots.old) (length (body_from body.entry)) (length errors.old)
        (verdict_said late) }
    ensures table { table_in (span_of Kind.Errors) result.table slots.new ≡
        pick (eqb (verdict_said result.verdict) 0) (entered (table_in (span_of Kind.Errors) table slots.old)
        (length (body_from body.entry)) (index_of (named_said named)) (mark_of (named_said named)) (length errors.old))
        (table_in (span_of Kind.Errors) table slots.old) }
    ensures others { (k : AnySpan) → are_apart (span_of Kind.Errors) k ≡ true → slots_of k slots.new ≡ slots_of k slots.old }
    ensures buffer { errors.new ≡
        pick (eqb (verdict_said result.verdict) 0) (kept (table_in (span_of Kind.Errors) table slots.old) (body_from body.entry)
        errors.old) errors.old }
{
    table.store(
        span_of(Kind::Errors),
        late,
        body,
        index_of(named),
        mark_of(named),
        slots,
        errors,
    )
}

// What a command came to, by what storing it came to: its kind's table has changed, and no other.
pub(crate) fn stepped(tables: Tables, kind: Kind, stored: Stored) -> StepTwo
    ensures { result ≡ record { verdict = stored.verdict; tables = with_table tables kind stored.table } }
{
    let verdict = stored.verdict;
    let after = stored.table;
    StepTwo {
        verdict: verdict,
        tables: tables.with(kind, after),
    }
}

// One command of phase two, by what the tables decide of it (`ruled`), its arguments' text and its body. Where it is refused tables, slots and buffers stay as
// they were. `late` is a fault that is looked for last.
pub fn step_two(
    ruled: Result<(), Refusal>,
    late: Result<(), Refusal>,
    tables: Tables,
    command: Result<CommandTwo, Refusal>,
    line: &[u8],
    body: Body<'_>,
    slots: &mut [[usize; 4]],
    errors: &mut [u8],
    stanzas: &mut [u8],
    returned: &mut [u8],
) -> StepTwo
    ensures number { (hs : List (List ℕ)) → verdict_said result.verdict ≡
        (number_stepped (verdict_said ruled) (tables_in tables slots.old hs)
        (buffers_of errors.old stanzas.old returned.old) (command_said command)
        (payload_of (command_said command) line.now (body_from body.entry)) (verdict_said late)) }
    ensures tables { (hs : List (List ℕ)) → tables_in result.tables slots.new hs ≡ pick
        (eqb (number_stepped (verdict_said ruled) (tables_in tables slots.old hs)
        (buffers_of errors.old stanzas.old returned.old) (command_said command)
        (payload_of (command_said command) line.now (body_from body.entry)) (verdict_said late)) 0)
        (applied (tables_in tables slots.old hs) (buffers_of errors.old stanzas.old returned.old)
        (command_said command) (payload_of (command_said command) line.now (body_from body.entry)))
        (tables_in tables slots.old hs) }
    ensures buffers { (hs : List (List ℕ)) → buffers_of errors.new stanzas.new returned.new ≡ pick
        (eqb (number_stepped (verdict_said ruled) (tables_in tables slots.old hs)
        (buffers_of errors.old stanzas.old returned.old) (command_said command)
        (payload_of (command_said command) line.now (body_from body.entry)) (verdict_said late)) 0)
        (filled_by (tables_in tables slots.old hs) (buffers_of errors.old stanzas.old returned.old)
        (command_said command) (payload_of (command_said command) line.now (body_from body.entry)))
        (buffers_of errors.old stanzas.old returned.old) }
{
    match ruled {
        Err(_) => StepTwo {
            verdict: ruled,
            tables: tables,
        },
        Ok(()) => keep(
            late, tables, command, line, body, slots, errors, stanzas, returned,
        ),
    }
}

// A command that the tables do not refuse: one entry of its kind more, where it fits and nothing is late.
fn keep(
    late: Result<(), Refusal>,
    tables: Tables,
    command: Result<CommandTwo, Refusal>,
    line: &[u8],
    body: Body<'_>,
    slots: &mut [[usize; 4]],
    errors: &mut [u8],
    stanzas: &mut [u8],
    returned: &mut [u8],
) -> StepTwo
    ensures number { (hs : List (List ℕ)) → verdict_said result.verdict ≡
        (number_stepped 0 (tables_in tables slots.old hs) (buffers_of errors.old stanzas.old returned.old)
        (command_said command) (payload_of (command_said command) line.now (body_from body.entry)) (verdict_said late)) }
    ensures tables { (hs : List (List ℕ)) → tables_in result.tables slots.new hs ≡ pick
        (eqb (number_stepped 0 (tables_in tables slots.old hs) (buffers_of errors.old stanzas.old returned.old)
        (command_said command) (payload_of (command_said command) line.now (body_from body.entry)) (verdict_said late)) 0)
        (applied (tables_in tables slots.old hs) (buffers_of errors.old stanzas.old returned.old)
        (command_said command) (payload_of (command_said command) line.now (body_from body.entry)))
        (tables_in tables slots.old hs) }
    ensures buffers { (hs : List (List ℕ)) → buffers_of errors.new stanzas.new returned.new ≡ pick
        (eqb (number_stepped 0 (tables_in tables slots.old hs) (buffers_of errors.old stanzas.old returned.old)
        (command_said command) (payload_of (command_said command) line.now (body_from body.entry)) (verdict_said late)) 0)
        (filled_by (tables_in tables slots.old hs) (buffers_of errors.old stanzas.old returned.old)
        (command_said command) (payload_of (command_said command) line.now (body_from body.entry)))
        (buffers_of errors.old stanzas.old returned.old) }
{
    match command {
        Ok(CommandTwo::Stanza(file)) => {
            let t = tables.stanzas;
            let stored = keep_stanza(t, late, line, body, file, slots, stanzas);
            stepped(tables, Kind::Stanzas, stored)
        }
        Ok(CommandTwo::Key(file)) => {
            let t = tables.returned;
            let stored = keep_key(t, late, body, file, slots, returned);
            stepped(tables, Kind::Returned, stored)
        }
        Ok(CommandTwo::Error(named)) => {
            let t = tables.errors;
            let stored = keep_error(t, late, body, named, slots, errors);
            stepped(tables, Kind::Errors, stored)
        }
        Ok(CommandTwo::Ask(_)) => StepTwo {
            verdict: late,
            tables: tables,
        },
        Ok(CommandTwo::Done) => StepTwo {
            verdict: late,
            tables: tables,
        },
        Ok(CommandTwo::Other) => StepTwo {
            verdict: late,
            tables: tables,
        },
        Err(_) => StepTwo {
            verdict: late,
            tables: tables,
        },
    }
}
