// An identity file read: what it holds is judged first, then the commands are written.
ghost use Rattle.std.specs.Prelude.{◌≡◌, Err};
ghost use Rattle.refusal.specs.Output.{said};
ghost use Rattle.identity_file.specs.Files.{file_answer, file_buffer, keys_given, faults_given, faults_listed};

use crate::survey::survey;
use crate::writing::{put_transcript, transcript_size};
use crate::{MOST_FAULTS, MOST_IDENTITIES};
use refusal::Refusal;

// What a file gives: how many bytes the commands at the buffer's front have, or 8 or 15; how many secret keys were skipped, and how many lines
// are invalid; none where refused. It is no `Result`: `read` keeps its signature.
#[derive(Clone, Copy)]
pub struct Reading {
    pub answer: Result<usize, Refusal>,
    pub keys: usize,
    pub invalid: usize,
}

// A refusal, with nothing counted.
fn refused(r: Refusal) -> Reading
    ensures answer { result.answer ≡ Err r }
    ensures keys { result.keys ≡ 0 }
    ensures invalid { result.invalid ≡ 0 }
{
    Reading {
        answer: Err(r),
        keys: 0,
        invalid: 0,
    }
}

// The identities of a file as commands of phase one at the front of `out`, ended by done; and the first invalid lines in `faults`, each with its
// refusal's number and its line's, zeros behind them. 8 where over 64 lines are valid, then 15; nothing is written then, to `faults` neither.
pub fn read(text: &[u8], faults: &mut [[usize; 2]; MOST_FAULTS], out: &mut [u8]) -> Reading
    ensures answer { said result.answer ≡ file_answer text.now out.old }
    ensures keys { result.keys ≡ keys_given text.now out.old }
    ensures invalid { result.invalid ≡ faults_given text.now out.old }
    ensures faults { faults.new ≡ faults_listed text.now out.old faults.old }
    ensures buffer { out.new ≡ file_buffer text.now out.old }
{
    let t = survey(text);
    let n = t.valid;
    if MOST_IDENTITIES < n {
        return refused(Refusal::NoSpace);
    }
    let places = &t.places[..n];
    let size = transcript_size(text, places);
    if out.len() < size {
        return refused(Refusal::ShortOutput);
    }
    put_transcript(text, places, out);
    *faults = t.faults;
    Reading {
        answer: Ok(size),
        keys: t.keys,
        invalid: t.invalid,
    }
}
