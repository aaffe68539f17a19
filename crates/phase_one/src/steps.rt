// Phase one: what a command comes to. It is parsed, judged, and kept where nothing refuses it.
ghost use Rattle.std.specs.Prelude.{◌≡◌, true, ◌∷◌, ◌++◌, eqb, length};
ghost use Rattle.refusal.specs.Pick.{pick};
ghost use Rattle.refusal.specs.Verdict.{verdict_said};
ghost use Rattle.stanza.specs.Arguments.{argument_of};
ghost use Rattle.bech32.specs.Text.{parse};
ghost use Rattle.bech32.specs.Calls.{form_of, mark_of};
ghost use Rattle.profile.specs.Profile.{checked};
ghost use Rattle.tables.specs.Bodies.{body_from};
ghost use Rattle.tables.specs.Repeats.{repeats};
ghost use Rattle.tables.specs.Slots.{are_apart, slots_of};
ghost use Rattle.tables.specs.declared.slots.Span.{Span as AnySpan};
ghost use Rattle.tables.specs.Tables.{table_in, storing, entered, kept};
ghost use Rattle.session.specs.Tables.{span_of, tables_in, with_table};
ghost use Rattle.phase_one.specs.Commands.{finding_mark, command_said, rest_of};
ghost use Rattle.phase_one.specs.PhaseOne.{falls, buffers_of, command_in, number_one, tables_one, buffers_one};

use crate::commands::{CommandOne, parse_one, rest_of};
use bech32::TextKind;
use profile::Conformity;
use refusal::Refusal;
use session::{Kind, Machine, Mark, Session, Tables, span_of};
use tables::{Body, Span, Stored, Table, entry_at};

// An index as a number of a slot.
pub fn wide(index: u32) -> usize
    ensures { result ≡ index }
{
    index as usize
}

// A recipient's or an identity's mark, as a slot keeps it.
fn text_mark(kind: TextKind, text: &[u8], plugin: &[u8]) -> usize
    ensures { result ≡ mark_of (parse (form_of kind) text.now) plugin.now }
{
    usize::from(refusal::verdict_number(bech32::mark(kind, text, plugin)))
}

// A header stanza's mark, by its tag and arguments and how many bytes its body has.
fn header_mark(plugin: &[u8], rest: &[u8], body: usize) -> usize
    ensures { result ≡ finding_mark (checked plugin.now rest.now body) }
{
    let found = profile::check(plugin, rest, body);
    match found {
        Conformity::Conforming => Mark::CONFORMING,
        Conformity::Nonconforming => Mark::NONCONFORMING,
        Conformity::Unknown => Mark::UNKNOWN,
    }
}

// Whether an index is less than the last header stanza's.
fn is_falling(headers: Table, index: u32, slots: &[[usize; 4]]) -> bool
    ensures { result ≡ falls (table_in (span_of Kind.Headers) headers slots.now) index }
{
    let count = headers.count;
    if count == 0 || Session::HEADER_STANZAS < count {
        return false;
    }
    let last = entry_at(span_of(Kind::Headers), count - 1, slots);
    wide(index) < last.index
}

// A recipient or an identity kept: its text is the command's one argument. Nothing changes where it is refused. Table, span, slots and buffer stay apart, as
// `Table::store` takes them.
fn keep_text(
    kind: TextKind,
    table: Table,
    span: Span,
    plugin: &[u8],
    late: Result<(), Refusal>,
    line: &[u8],
    slots: &mut [[usize; 4]],
    buffer: &mut [u8],
) -> Stored
    ensures number { verdict_said result.verdict ≡
        storing (table_in span table slots.old) (length (argument_of line.now 1)) (length buffer.old) (verdict_said late) }
    ensures table { table_in span result.table slots.new ≡
        pick (eqb (verdict_said result.verdict) 0) (entered (table_in span table slots.old) (length (argument_of line.now 1)) 0
        (mark_of (parse (form_of kind) (argument_of line.now 1)) plugin.now) (length buffer.old))
        (table_in span table slots.old) }
    ensures others { (k : AnySpan) → are_apart span k ≡ true → slots_of k slots.new ≡ slots_of k slots.old }
    ensures buffer { buffer.new ≡
        pick (eqb (verdict_said result.verdict) 0) (kept (table_in span table slots.old) (argument_of line.now 1) buffer.old)
        buffer.old }
{
    let text = stanza::argument(line, 1);
    let mark = text_mark(kind, text, plugin);
    table.store(span, late, Body::Bytes(text), 0, mark, slots, buffer)
}

// A recipient kept. 20 before 8.
fn keep_recipient(
    table: Table,
    plugin: &[u8],
    late: Result<(), Refusal>,
    line: &[u8],
    slots: &mut [[usize; 4]],
    buffer: &mut [u8],
) -> Stored
    ensures number { verdict_said result.verdict ≡
        pick (repeats (table_in (span_of Kind.Recipients) table slots.old) buffer.old (argument_of line.now 1)) 20
        (storing (table_in (span_of Kind.Recipients) table slots.old) (length (argument_of line.now 1)) (length buffer.old)
        (verdict_said late)) }
    ensures table { table_in (span_of Kind.Recipients) result.table slots.new ≡
        pick (eqb (verdict_said result.verdict) 0) (entered (table_in (span_of Kind.Recipients) table slots.old)
        (length (argument_of line.now 1)) 0 (mark_of (parse (form_of TextKind.Recipient) (argument_of line.now 1)) plugin.now)
        (length buffer.old)) (table_in (span_of Kind.Recipients) table slots.old) }
    ensures others { (k : AnySpan) → are_apart (span_of Kind.Recipients) k ≡ true → slots_of k slots.new ≡ slots_of k slots.old }
    ensures buffer { buffer.new ≡
        pick (eqb (verdict_said result.verdict) 0) (kept (table_in (span_of Kind.Recipients) table slots.old) (argument_of line.now 1)
        buffer.old) buffer.old }
{
    let span = span_of(Kind::Recipients);
    let text = stanza::argument(line, 1);
    if table.is_repeated(span, text, slots, buffer) {
        return Stored {
            verdict: Err(Refusal::Repeated),
            table: table,
        };
    }
    keep_text(
        TextKind::Recipient,
        table,
        span,
        plugin,
        late,
        line,
        slots,
        buffer,
    )
}

// A header stanza kept: its payload is its tag and arguments, an LF and its body, of `n` bytes. 7 before 8.
fn keep_header(
    table: Table,
    plugin: &[u8],
    late: Result<(), Refusal>,
    line: &[u8],
    body: Body<'_>,
    n: usize,
    index: u32,
    slots: &mut [[usize; 4]],
    buffer: &mut [u8],
) -> Stored
    ensures number { verdict_said result.verdict ≡
        pick (falls (table_in (span_of Kind.Headers) table slots.old) index) 7
        (storing (table_in (span_of Kind.Headers) table slots.old) (length (rest_of line.now ++ 10 ∷ body_from body.entry))
        (length buffer.old) (verdict_said late)) }
    ensures table { table_in (span_of Kind.Headers) result.table slots.new ≡
        pick (eqb (verdict_said result.verdict) 0) (entered (table_in (span_of Kind.Headers) table slots.old)
        (length (rest_of line.now ++ 10 ∷ body_from body.entry)) index
        (finding_mark (checked plugin.now (rest_of line.now) n)) (length buffer.old))
        (table_in (span_of Kind.Headers) table slots.old) }
    ensures buffer { buffer.new ≡
        pick (eqb (verdict_said result.verdict) 0) (kept (table_in (span_of Kind.Headers) table slots.old)
        (rest_of line.now ++ 10 ∷ body_from body.entry) buffer.old) buffer.old }
{
    if is_falling(table, index, slots) {
        return Stored {
            verdict: Err(Refusal::FallingIndex),
            table: table,
        };
    }
    let rest = rest_of(line);
    let mark = header_mark(plugin, rest, n);
    table.store_lines(
        span_of(Kind::Headers),
        late,
        rest,
        body,
        wide(index),
        mark,
        slots,
        buffer,
    )
}

// What a command of phase one came to: the command, the number if it is refused, and the tables.
#[derive(Clone, Copy)]
pub struct StepOne {
    pub command: Result<CommandOne, Refusal>,
    pub verdict: Result<(), Refusal>,
    pub tables: Tables,
}

// What a command came to, by what storing it came to: its kind's table has changed, and no other.
fn stepped(
    command: Result<CommandOne, Refusal>,
    tables: Tables,
    kind: Kind,
    stored: Stored,
) -> StepOne
    ensures { result ≡ record { command = command; verdict = stored.verdict; tables = with_table tables kind stored.table } }
{
    let verdict = stored.verdict;
    let after = stored.table;
    StepOne {
        command: command,
        verdict: verdict,
        tables: tables.with(kind, after),
    }
}

// One command of phase one, by its arguments' text and its body. Where it is refused tables, slots and buffers stay as they were. `late` is a fault that is
// looked for last.
pub fn step_one(
    machine: Machine,
    plugin: &[u8],
    tables: Tables,
    late: Result<(), Refusal>,
    line: &[u8],
    body: Body<'_>,
    slots: &mut [[usize; 4]],
    header_slots: &mut [[usize; 4]],
    recipients: &mut [u8],
    identities: &mut [u8],
    keys: &mut [u8],
    headers: &mut [u8],
) -> StepOne
    ensures command { command_said plugin.now line.now (length (body_from body.entry)) result.command ≡
        command_in machine plugin.now line.now (body_from body.entry) }
    ensures number { verdict_said result.verdict ≡
        number_one machine plugin.now (tables_in tables slots.old header_slots.old)
        (buffers_of recipients.old identities.old keys.old headers.old) (verdict_said late) line.now
        (body_from body.entry) }
    ensures tables { tables_in result.tables slots.new header_slots.new ≡
        tables_one machine plugin.now (tables_in tables slots.old header_slots.old)
        (buffers_of recipients.old identities.old keys.old headers.old) (verdict_said late) line.now
        (body_from body.entry) }
    ensures buffers { buffers_of recipients.new identities.new keys.new headers.new ≡
        buffers_one machine plugin.now (tables_in tables slots.old header_slots.old)
        (buffers_of recipients.old identities.old keys.old headers.old) (verdict_said late) line.now
        (body_from body.entry) }
{
    let n = tables::body_size(body);
    let command = parse_one(machine, line, n);
    match command {
        Ok(CommandOne::Recipient) => {
            let t = tables.recipients;
            let stored = keep_recipient(t, plugin, late, line, slots, recipients);
            stepped(command, tables, Kind::Recipients, stored)
        }
        Ok(CommandOne::Identity) => {
            let t = tables.identities;
            let span = span_of(Kind::Identities);
            let stored = keep_text(
                TextKind::Identity,
                t,
                span,
                plugin,
                late,
                line,
                slots,
                identities,
            );
            stepped(command, tables, Kind::Identities, stored)
        }
        Ok(CommandOne::Key) => {
            let t = tables.keys;
            let span = span_of(Kind::Keys);
            let stored = t.store(span, late, body, 0, Mark::NONE, slots, keys);
            stepped(command, tables, Kind::Keys, stored)
        }
        Ok(CommandOne::Header(index)) => {
            let t = tables.headers;
            let stored = keep_header(t, plugin, late, line, body, n, index, header_slots, headers);
            stepped(command, tables, Kind::Headers, stored)
        }
        Ok(CommandOne::Done) => StepOne {
            command: command,
            verdict: late,
            tables: tables,
        },
        Ok(CommandOne::Other) => StepOne {
            command: command,
            verdict: late,
            tables: tables,
        },
        Err(r) => StepOne {
            command: command,
            verdict: Err(r),
            tables: tables,
        },
    }
}
