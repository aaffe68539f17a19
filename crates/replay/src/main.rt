// Reads a script from standard input, makes the call of each line and prints its answer on standard output. A line that is no call is
// answered by its number, and the run goes on.
#![tactic(auto)]

mod lines;
mod settings;
mod turns;

use lines::Lines;
use replay_answers::{Memory, Output, print_answer};
use replay_lines::{Failure, Line, read_line};
use settings::Open;
use turns::make_call;

// Reads to the end of the input. A proved loop has to end, and nothing says that the input does, so the turns are as many as no run uses up.
fn main(rt: HostRuntime) {
    let mut stdin = rt.stdin();
    let mut out = Output::new(rt.stdout(), rt.stderr());
    let mut lines = Lines::new();
    let mut text = [0u8; 65536];
    let mut buffer = [0u8; 65536];
    let mut memory = Memory::new();
    let mut host = None;
    for _ in 0..u64::MAX {
        let more = lines.advance(&mut stdin, &mut out);
        if let Some(line) = lines.ended() {
            answer_line(
                line,
                lines.count,
                &mut text,
                &mut buffer,
                &mut host,
                &mut memory,
                &mut out,
            );
        }
        if !more {
            break;
        }
    }
    out.flush();
}

// Makes the call of a line and prints its answer, unless the line is skipped.
fn answer_line(
    line: &[u8],
    number: usize,
    text: &mut [u8; 65536],
    buffer: &mut [u8; 65536],
    host: &mut Option<Open>,
    memory: &mut Memory,
    out: &mut Output,
) {
    let answer = match read_line(line, text) {
        Line::Skipped => return,
        Line::Bad => Err(Failure::BadLine),
        Line::Words(words) => make_call(&words, host, memory, buffer, out),
    };
    print_answer(answer, number, out);
}
