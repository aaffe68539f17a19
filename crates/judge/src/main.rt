// Judges the phase one of recipient-v1 on standard input and writes its five numbers. The input may be of any length: it is read in chunks, up to done or a
// refusal.
#![tactic(auto)]

mod input;
mod output;

use input::read_chunk;
use judging::Judging;
use output::print;
use session::Session;

// Reads up to done, a refusal or the end of the input. A proved loop has to end, and nothing says that the input does, so the turns are as many as no run
// uses up.
fn main(rt: HostRuntime) {
    let mut stdin = rt.stdin();
    let stderr = rt.stderr();
    let mut chunk = [0u8; 65536];
    let mut input = [0u8; Session::PLUGIN_INPUT];
    let mut slots = Session::open_slots();
    let mut header_slots = Session::open_header_slots();
    let mut recipients = [0u8; 16384];
    let mut identities = [0u8; 16384];
    let mut keys = [0u8; 1024];
    let mut judging = Judging::open();
    for _ in 0..u64::MAX {
        let n = read_chunk(&mut stdin, &stderr, &mut chunk);
        if n == 0 {
            break;
        }
        judging = judging.judge_chunk(
            &chunk[..n],
            &mut input,
            &mut slots,
            &mut header_slots,
            &mut recipients,
            &mut identities,
            &mut keys,
        );
        if judging.progress.is_some() {
            break;
        }
    }
    if print(&rt.stdout(), judging.numbers()).is_err() {
        let _ = eprintln!(stderr; "judge: standard output failed");
    }
}
