// What is told on standard error. What that does not take is left out.
use identity_file::MOST_FAULTS;

// How many secret keys were skipped, how many lines are invalid, and the first of these.
pub fn report(
    stderr: &impl Eprint,
    keys: usize,
    invalid: usize,
    faults: &[[usize; 2]; MOST_FAULTS],
) {
    print_count(stderr, "secret keys skipped", keys);
    print_count(stderr, "invalid lines", invalid);
    for &[number, line] in faults.iter().take(invalid) {
        print_fault(stderr, number, line);
    }
}

// A name, a number and LF.
fn print_count(stderr: &impl Eprint, name: &str, n: usize) {
    let _ = eprintln!(stderr; "{name}: {n}");
}

// An invalid line: its number, lines counted from 0, the refusal's number, and what that means.
fn print_fault(stderr: &impl Eprint, number: usize, line: usize) {
    let _ = eprint!(stderr; "line {line}, counted from 0: {number}, ");
    print_meaning(stderr, number);
    let _ = eprintln!(stderr);
}

// What a number says of a line, in words.
fn print_meaning(stderr: &impl Eprint, number: usize) {
    let meaning = match number {
        16 => "not an identity, or longer than 1,024 bytes",
        21 => "the checksum does not hold",
        22 => "bits are left over",
        _ => "refused",
    };
    let _ = eprint!(stderr; "{meaning}");
}
