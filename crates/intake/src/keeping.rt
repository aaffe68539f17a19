// What is kept of the input between calls, in the lent array.
ghost use Rattle.std.specs.Prelude.{◌≡◌, List, [], ◌++◌, ℕ, ◌+◌, ◌≤◌, min, length, take, drop};
ghost use Rattle.refusal.specs.Output.{filled};
ghost use Rattle.refusal.specs.Number.{number_of};
ghost use Rattle.stanza.specs.Resuming.{place_said, continued_said, continued, unfinished};
ghost use Rattle.session.specs.Session.{session_of};
ghost use Rattle.conversation.specs.Kinds.{Buffers};
ghost use Rattle.chunks.specs.Taking.{End, reads, drops, keeps_back, turn_at, taken_text, behind};
ghost use Rattle.intake.specs.Intake.{last_said};
ghost use Rattle.intake.specs.Turns.{turn_said};
ghost use Rattle.intake.specs.Settling.{MaySettle, Says};
ghost use Rattle.intake.specs.Fronts.{is_between, is_reading, front_of, front_in, input_behind, WithinSays, OneByteSays, Answered};

use crate::answers::Received;
use crate::turns::Turn;
use refusal::Refusal;
use session::{Phase, Session};
use stanza::{Continued, Place};

// How many bytes are kept of an unfinished stanza at most.
const MOST_UNFINISHED: usize = stanza::LONGEST - 1;

// How many bytes of an unfinished stanza are kept, by a session's number. A session that is made up may say more.
pub fn kept_of(kept: usize) -> usize
    ensures { result ≡ min kept 8191 }
{
    kept.min(MOST_UNFINISHED)
}

// A part behind the first bytes of `out`; nothing where it is too short.
fn copy_behind(part: &[u8], at: usize, out: &mut [u8])
    ensures { out.new ≡ take at out.old ++ filled part.now (drop at out.old) }
{
    if out.len() < at {
        return;
    }
    stanza::copy(part, &mut out[at..]);
}

// The front of a stanza, so many bytes of the input, and its rest, one behind the other in a store that has room.
pub fn put_together(input: &[u8], kept: usize, rest: &[u8], store: &mut [u8])
    ensures { kept ≤ length input.now → kept + length rest.now ≤ length store.old → store.new ≡
        (take kept input.now ++ rest.now) ++ drop (kept + length rest.now) store.old }
{
    if input.len() < kept {
        return;
    }
    if store.len() < kept {
        return;
    }
    stanza::copy(&input[..kept], store);
    stanza::copy(rest, &mut store[kept..]);
}

// Whether no stanza is unfinished.
fn is_between(reading: Place, kept: usize) -> bool
    ensures { result ≡ is_between reading kept }
{
    match reading {
        Place::Start => kept == 0,
        Place::Hyphen => false,
        Place::Arrow => false,
        Place::Gap => false,
        Place::Word => false,
        Place::Line(_, _) => false,
        Place::Ended => false,
        Place::Dead => false,
    }
}

// A byte within the arguments or a body line, where most stand.
fn read_within(reading: Place, b: u8) -> Option<Place>
    ensures { WithinSays reading b result }
{
    match reading {
        Place::Gap => {
            if stanza::is_graphic(b) {
                return Some(Place::Word);
            }
            None
        }
        Place::Word => {
            if stanza::is_graphic(b) {
                return Some(Place::Word);
            }
            if b == b' ' {
                return Some(Place::Gap);
            }
            None
        }
        Place::Line(k, _) => {
            if k < strict_base64::LINE_CHARACTERS && strict_base64::is_character(b) {
                return Some(Place::Line(k + 1, b));
            }
            None
        }
        Place::Start => None,
        Place::Hyphen => None,
        Place::Arrow => None,
        Place::Ended => None,
        Place::Dead => None,
    }
}

// A chunk of one byte, read on without a loop: within the arguments or a body line the byte is kept behind the stanza's front. Else nothing is done.
pub fn read_one(
    turn: Turn,
    reading: Place,
    kept: usize,
    chunk: &[u8],
    input: &mut [u8],
) -> Option<Place>
    ensures { OneByteSays (turn_said turn) reading (min kept 8191) chunk.now input.old input.new result }
{
    if !is_reading(turn) {
        return None;
    }
    if chunk.len() != 1 {
        return None;
    }
    if MOST_UNFINISHED <= kept {
        return None;
    }
    if input.len() <= kept {
        return None;
    }
    let b = chunk[0];
    let within = read_within(reading, b);
    let Some(place) = within else {
        return None;
    };
    input[kept] = b;
    Some(place)
}

// Whether bytes that come are read.
fn is_reading(turn: Turn) -> bool
    ensures { result ≡ is_reading (turn_said turn) }
{
    match turn {
        Turn::Reads => true,
        Turn::Drops(_) => false,
        Turn::KeepsBack => false,
    }
}

// A chunk read on behind `at` bytes of an unfinished stanza, and kept behind them where it does not end it.
fn read_more(
    reading: Place,
    at: usize,
    chunk: &[u8],
    input: &mut [u8],
) -> Result<Continued, Refusal>
    ensures front { continued_said result ≡ continued (place_said reading) at chunk.now }
    ensures input { input.new ≡ input_behind (continued_said result) at chunk.now input.old }
{
    let continued = stanza::read_on(reading, at, chunk);
    match continued {
        Ok(Continued::Whole(_)) => {}
        Ok(Continued::Unfinished(_)) => {
            copy_behind(chunk, at, input);
        }
        Err(_) => {}
    }
    continued
}

// A chunk read on from where reading stands, behind so many kept bytes: the unfinished stanza ends behind so many of the chunk's bytes, 0 where none is
// unfinished or none is read; it goes on, and the chunk is kept behind its front; or 1 or 3.
pub fn read_front(
    turn: Turn,
    reading: Place,
    kept: usize,
    chunk: &[u8],
    input: &mut [u8],
) -> Result<Continued, Refusal>
    ensures front { continued_said result ≡ front_in (turn_said turn) reading (min kept 8191) chunk.now }
    ensures input { input.new ≡ input_behind (continued_said result) (min kept 8191) chunk.now input.old }
{
    if !is_reading(turn) {
        return Ok(Continued::Whole(0));
    }
    let at = kept_of(kept);
    if is_between(reading, at) {
        return Ok(Continued::Whole(0));
    }
    read_more(reading, at, chunk, input)
}

// An unfinished stanza goes on with a chunk and has not ended.
pub fn keep_on(session: Session, place: Place, chunk: &[u8]) -> Received
    ensures outcome { (e : End) (xs hs : List (List ℕ)) (input : List ℕ) (b : Buffers) (out : List ℕ) → turn_at e session.phase ≡ reads →
        8192 ≤ length input → front_of session.reading (min session.kept 8191) chunk.now ≡ unfinished (place_said place) →
        Answered e session chunk.now result xs hs input
        (input_behind (unfinished (place_said place)) (min session.kept 8191) chunk.now input) b out }
    ensures name { result.session.name ≡ session.name }
{
    let kept = kept_of(session.kept);
    let came = chunk.len();
    Received {
        verdict: Ok(()),
        count: 0,
        last: None,
        written: 0,
        session: session.keeping(place, kept + came, 0),
    }
}

// What stands behind the stanzas that were taken, by whose turn it is: read, dropped or kept back. `awaited` is the text that waits, empty where none does.
pub fn settle(
    so_far: Received,
    turn: Turn,
    awaited: &[u8],
    rest: &[u8],
    input: &mut [u8],
) -> Received
    ensures outcome { (e : End) (xs hs : List (List ℕ)) (w : List ℕ) (b : Buffers) →
        MaySettle e so_far.session.phase (turn_said turn) awaited.now rest.now input.old →
        Says e result xs hs input.old input.new w b (behind so_far.count (last_said so_far.last) w
        (taken_text e (session_of so_far.session xs hs) b awaited.now rest.now)) }
    ensures rest { (result.written ≡ so_far.written) × (result.session.name ≡ so_far.session.name) }
{
    match turn {
        Turn::Reads => settle_read(so_far, rest, input),
        Turn::Drops(r) => settle_dropped(so_far, r, rest.len()),
        Turn::KeepsBack => settle_back(so_far, awaited, rest, input),
    }
}

// The front of an unfinished stanza is kept; bytes that no stanza begins with close the session.
fn settle_read(so_far: Received, rest: &[u8], input: &mut [u8]) -> Received
    ensures outcome { (e : End) (xs hs : List (List ℕ)) (w : List ℕ) (b : Buffers) →
        MaySettle e so_far.session.phase reads [] rest.now input.old →
        Says e result xs hs input.old input.new w b
        (behind so_far.count (last_said so_far.last) w (taken_text e (session_of so_far.session xs hs) b [] rest.now)) }
    ensures rest { (result.written ≡ so_far.written) × (result.session.name ≡ so_far.session.name) }
{
    let session = so_far.session;
    if rest.len() == 0 {
        return so_far.settled(Ok(()), session.keeping(Place::Start, 0, 0));
    }
    let continued = read_more(Place::Start, 0, rest, input);
    match continued {
        Ok(Continued::Whole(_)) => { so_far.settled(Ok(()), session.keeping(Place::Start, 0, 0)) }
        Ok(Continued::Unfinished(place)) => {
            so_far.settled(Ok(()), session.keeping(place, rest.len(), 0))
        }
        Err(r) => {
            let shut = session.moved(Phase::Closed, session.tables);
            so_far.settled(Err(r), shut.keeping(Place::Start, 0, 0))
        }
    }
}

// Bytes are dropped and refused, if there are any.
fn settle_dropped(so_far: Received, refusal: Refusal, left: usize) -> Received
    ensures outcome { (e : End) (xs hs : List (List ℕ)) (w : List ℕ) (b : Buffers) (rest input : List ℕ) → length rest ≡ left →
        MaySettle e so_far.session.phase (drops (number_of refusal)) [] rest input →
        Says e result xs hs input input w b
        (behind so_far.count (last_said so_far.last) w (taken_text e (session_of so_far.session xs hs) b [] rest)) }
    ensures rest { (result.written ≡ so_far.written) × (result.session.name ≡ so_far.session.name) }
{
    let session = so_far.session;
    let emptied = session.keeping(Place::Start, 0, 0);
    if left == 0 {
        return so_far.settled(Ok(()), emptied);
    }
    so_far.settled(Err(refusal), emptied)
}

// Bytes are kept back behind the text that waits.
fn settle_back(so_far: Received, awaited: &[u8], rest: &[u8], input: &mut [u8]) -> Received
    ensures outcome { (e : End) (xs hs : List (List ℕ)) (w : List ℕ) (b : Buffers) →
        MaySettle e so_far.session.phase keeps_back awaited.now rest.now input.old →
        Says e result xs hs input.old input.new w b (behind so_far.count (last_said so_far.last) w
        (taken_text e (session_of so_far.session xs hs) b awaited.now rest.now)) }
    ensures rest { (result.written ≡ so_far.written) × (result.session.name ≡ so_far.session.name) }
{
    let session = so_far.session;
    let n = awaited.len();
    stanza::copy(awaited, input);
    copy_behind(rest, n, input);
    so_far.settled(Ok(()), session.keeping(Place::Start, rest.len(), n))
}
