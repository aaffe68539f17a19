// The decision of phase two: each fault's test, and the first fault of a command.
ghost use Rattle.std.specs.Prelude.{◌≡◌, not, ◌&&◌, ◌||◌, List, ℕ, ◌+◌, ltb, leb, Ok};
ghost use Rattle.session.specs.Tables.{tables_in};
ghost use Rattle.refusal.specs.Verdict.{verdict_said};
ghost use Rattle.conversation.specs.CommandsTwo.{error};
ghost use Rattle.conversation.specs.PhaseTwo.{is_missing, is_second_key, is_too_many, is_against_key, is_clashing, any_invalid, has_nonconforming, is_for_unknown, is_held_back, ruled};
ghost use Rattle.phase_two_commands.specs.Commands.{named_said, command_said};

use crate::questions::{
    all_reported, any_invalid, has_error_for, has_header, has_labelled, is_unknown_in,
};
use look_up::{count_stanzas, has_file, has_key};
use phase_one::wide;
use phase_two_commands::{CommandTwo, Named};
use refusal::Refusal;
use session::{Kind, Mark, Tables, span_of};

// Whether a number is not below a count.
fn is_beyond(index: u32, count: usize) -> bool
    ensures { result ≡ not (ltb index count) }
{
    !(wide(index) < count)
}

// 6 of an error: what it names is not there.
fn is_nameless(tables: Tables, named: Named, header_slots: &[[usize; 4]]) -> bool
    ensures { (xs : List (List ℕ)) → result ≡ is_missing (tables_in tables xs header_slots.now) (error (named_said named)) }
{
    match named {
        Named::Internal => false,
        Named::Identity(i) => is_beyond(i, tables.identities.count),
        Named::Recipient(i) => is_beyond(i, tables.recipients.count),
        Named::Header(file, i) => !has_header(tables.headers, wide(file), wide(i), header_slots),
    }
}

// 6: an index names nothing.
fn is_missing(tables: Tables, command: CommandTwo, header_slots: &[[usize; 4]]) -> bool
    ensures { (xs : List (List ℕ)) → result ≡ is_missing (tables_in tables xs header_slots.now) (command_said (Ok command)) }
{
    match command {
        CommandTwo::Stanza(file) => is_beyond(file, tables.keys.count),
        CommandTwo::Key(file) => !has_file(
            tables.headers,
            span_of(Kind::Headers),
            wide(file),
            header_slots,
        ),
        CommandTwo::Error(named) => is_nameless(tables, named, header_slots),
        CommandTwo::Ask(_) => false,
        CommandTwo::Done => false,
        CommandTwo::Other => false,
    }
}

// 9: a second key for a file.
fn is_second_key(tables: Tables, command: CommandTwo, slots: &[[usize; 4]]) -> bool
    ensures { (hs : List (List ℕ)) → result ≡ is_second_key (tables_in tables slots.now hs) (command_said (Ok command)) }
{
    match command {
        CommandTwo::Key(file) => has_key(tables, wide(file), slots),
        CommandTwo::Stanza(_) => false,
        CommandTwo::Error(_) => false,
        CommandTwo::Ask(_) => false,
        CommandTwo::Done => false,
        CommandTwo::Other => false,
    }
}

// Whether n is at least the sum of two counts, which may be too large for a number.
fn is_full(recipients: usize, identities: usize, n: usize) -> bool
    ensures { result ≡ leb (recipients + identities) n }
{
    recipients <= n && identities <= n - recipients
}

// 10: too many stanzas for a file.
fn is_too_many(tables: Tables, command: CommandTwo, slots: &[[usize; 4]]) -> bool
    ensures { (hs : List (List ℕ)) → result ≡ is_too_many (tables_in tables slots.now hs) (command_said (Ok command)) }
{
    match command {
        CommandTwo::Stanza(file) => is_full(
            tables.recipients.count,
            tables.identities.count,
            count_stanzas(tables, wide(file), slots),
        ),
        CommandTwo::Key(_) => false,
        CommandTwo::Error(_) => false,
        CommandTwo::Ask(_) => false,
        CommandTwo::Done => false,
        CommandTwo::Other => false,
    }
}

// Whether an error is for a file that has a key.
fn is_against_key(tables: Tables, named: Named, slots: &[[usize; 4]]) -> bool
    ensures { (hs : List (List ℕ)) → result ≡ is_against_key (tables_in tables slots.now hs) (named_said named) }
{
    match named {
        Named::Internal => false,
        Named::Identity(_) => false,
        Named::Recipient(_) => false,
        Named::Header(file, _) => has_key(tables, wide(file), slots),
    }
}

// 11 of an error: there is work that it contradicts.
fn is_against_work(tables: Tables, named: Named, slots: &[[usize; 4]]) -> bool
    ensures { (hs : List (List ℕ)) → result ≡ is_clashing (tables_in tables slots.now hs) (error (named_said named)) }
{
    0 < tables.stanzas.count || is_against_key(tables, named, slots)
}

// 11: work and error together.
fn is_clashing(tables: Tables, command: CommandTwo, slots: &[[usize; 4]]) -> bool
    ensures { (hs : List (List ℕ)) → result ≡ is_clashing (tables_in tables slots.now hs) (command_said (Ok command)) }
{
    match command {
        CommandTwo::Stanza(_) => 0 < tables.errors.count,
        CommandTwo::Key(file) => has_error_for(tables.errors, wide(file), slots),
        CommandTwo::Error(named) => is_against_work(tables, named, slots),
        CommandTwo::Ask(_) => false,
        CommandTwo::Done => false,
        CommandTwo::Other => false,
    }
}

// Whether a recipient or an identity is invalid.
fn has_invalid(tables: Tables, slots: &[[usize; 4]]) -> bool
    ensures { (hs : List (List ℕ)) → result ≡ any_invalid (tables_in tables slots.now hs) }
{
    any_invalid(tables.recipients, span_of(Kind::Recipients), slots)
        || any_invalid(tables.identities, span_of(Kind::Identities), slots)
}

// Whether an error is for an unknown stanza.
fn is_for_unknown(tables: Tables, named: Named, header_slots: &[[usize; 4]]) -> bool
    ensures { (xs : List (List ℕ)) → result ≡ is_for_unknown (tables_in tables xs header_slots.now) (named_said named) }
{
    match named {
        Named::Internal => false,
        Named::Identity(_) => false,
        Named::Recipient(_) => false,
        Named::Header(file, i) => is_unknown_in(tables.headers, wide(file), wide(i), header_slots),
    }
}

// Whether a key for a file is held back: an entry is invalid, or a stanza of the file is nonconforming.
fn is_key_held_back(
    tables: Tables,
    file: usize,
    slots: &[[usize; 4]],
    header_slots: &[[usize; 4]],
) -> bool
    ensures { result ≡
        (any_invalid (tables_in tables slots.now header_slots.now) || has_nonconforming
        (tables_in tables slots.now header_slots.now) file) }
{
    has_invalid(tables, slots)
        || has_labelled(
            tables.headers,
            span_of(Kind::Headers),
            Mark::NONCONFORMING,
            file,
            header_slots,
        )
}

// 19: the plugin end holds the command back.
fn is_held_back(
    tables: Tables,
    command: CommandTwo,
    slots: &[[usize; 4]],
    header_slots: &[[usize; 4]],
) -> bool
    ensures { result ≡ is_held_back (tables_in tables slots.now header_slots.now) (command_said (Ok command)) }
{
    match command {
        CommandTwo::Stanza(_) => has_invalid(tables, slots),
        CommandTwo::Key(file) => is_key_held_back(tables, wide(file), slots, header_slots),
        CommandTwo::Error(named) => is_for_unknown(tables, named, header_slots),
        CommandTwo::Done => !all_reported(tables, slots, header_slots),
        CommandTwo::Ask(_) => false,
        CommandTwo::Other => false,
    }
}

// 19, at the plugin's own sending alone.
fn is_held_by(
    own: bool,
    tables: Tables,
    command: CommandTwo,
    slots: &[[usize; 4]],
    header_slots: &[[usize; 4]],
) -> bool
    ensures { result ≡ (own && is_held_back (tables_in tables slots.now header_slots.now) (command_said (Ok command))) }
{
    own && is_held_back(tables, command, slots, header_slots)
}

// What the tables say of a command: the first of its faults, 4 or 5, 6, 9, 10, 11, at the plugin's own sending 19.
pub fn rule_two(
    own: bool,
    tables: Tables,
    command: Result<CommandTwo, Refusal>,
    slots: &[[usize; 4]],
    header_slots: &[[usize; 4]],
) -> Result<(), Refusal>
    ensures { verdict_said result ≡ ruled own (tables_in tables slots.now header_slots.now) (command_said command) }
{
    let command = command?;
    if is_missing(tables, command, header_slots) {
        return Err(Refusal::NoSuchIndex);
    }
    if is_second_key(tables, command, slots) {
        return Err(Refusal::SecondKey);
    }
    if is_too_many(tables, command, slots) {
        return Err(Refusal::TooManyStanzas);
    }
    if is_clashing(tables, command, slots) {
        return Err(Refusal::WorkAndError);
    }
    if is_held_by(own, tables, command, slots, header_slots) {
        return Err(Refusal::HeldBack);
    }
    Ok(())
}
