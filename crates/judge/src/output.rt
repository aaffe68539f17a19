// The five lines of the verdict.
use judging::Judged;
use std::io;

// Prints them, up to the first that standard output does not take.
pub fn print(stdout: &impl Print, judged: Judged) -> io::Result<()> {
    print_line(stdout, "recipients", judged.recipients as u64)?;
    print_line(stdout, "identities", judged.identities as u64)?;
    print_line(stdout, "file keys", judged.keys as u64)?;
    print_line(stdout, "header stanzas", judged.headers as u64)?;
    print_line(stdout, "answer", judged.answer as u64)
}

// A name, a space, a number and LF.
fn print_line(stdout: &impl Print, name: &str, n: u64) -> io::Result<()> {
    println!(stdout; "{name} {n}")
}
