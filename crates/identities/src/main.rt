// Reads an old identity file from standard input and writes its identities to standard output as commands of phase one, ended by done. What was skipped, and each
// invalid line with its number and what that means, goes to standard error.
#![tactic(auto)]

ghost use Rattle.std.specs.Prelude.{◌≤◌, length};

mod report;

use identity_file::MOST_FAULTS;
use report::report;
use std::io::Read;

// One more byte than a file may have here, and as many as its commands can have: 64 of 1,042 bytes, and done.
const INPUT: usize = 131073;

const OUTPUT: usize = 66697;

fn main(rt: HostRuntime) {
    let mut text = [0; INPUT];
    let mut out = [0; OUTPUT];
    run(&mut rt.stdin(), &rt, &mut text, &mut out);
}

// Reads the file, and prints what it comes to.
fn run(stdin: &mut impl Read, rt: &(impl Print + Eprint), text: &mut [u8], out: &mut [u8]) {
    let mut faults = [[0usize; 2]; MOST_FAULTS];
    let n = read_full(stdin, text);
    if n == text.len() {
        let _ = eprintln!(rt; "identities: the file has more than 131,072 bytes");
        return;
    }
    let reading = identity_file::read(&text[..n], &mut faults, out);
    let answer = reading.answer;
    match answer {
        Ok(size) => {
            print(rt, &out[..size]);
            report(rt, reading.keys, reading.invalid, &faults);
        }
        Err(_) => {
            let _ = eprintln!(rt; "identities: 8, more than 64 identities; nothing written");
        }
    }
}

// Reads until the buffer is full, the input ends or a read fails: how many bytes.
fn read_full(stdin: &mut impl Read, text: &mut [u8]) -> usize
    ensures { result ≤ length text.new }
{
    let mut done = 0;
    while done < text.len() {
        let n = stdin.read(&mut text[done..]).unwrap_or(0);
        if n == 0 {
            break;
        }
        done += n;
    }
    done
}

// Prints the commands.
fn print(rt: &(impl Print + Eprint), commands: &[u8]) {
    if rt.write_all(commands).is_err() {
        let _ = eprintln!(rt; "identities: standard output failed");
    }
}
