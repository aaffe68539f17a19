// The line identity-file: an old identity file read, and its identities written as commands.
use identity_file::MOST_FAULTS;
use replay_answers::{Answer, Output, Page};
use replay_lines::{Failure, Words, front};

// identity-file TEXT OUT
pub(crate) fn call_identity_file<'a>(
    words: &Words,
    buffer: &'a mut [u8],
    out: &mut Output,
) -> Result<Answer<'a>, Failure> {
    words.check_count(3)?;
    let mut faults = [[0usize; 2]; MOST_FAULTS];
    let reading = identity_file::read(words.get(1), &mut faults, buffer);
    let n = reading.answer?;
    let page = out.room();
    page.put_number(b"ok", reading.keys);
    page.put_number(b"", reading.invalid);
    page.put(b" ");
    put_faults(&faults[..reading.invalid.min(MOST_FAULTS)], page);
    out.print_word(b"", front(buffer, n));
    Ok(Answer::Printed)
}

// The invalid lines as a word, joined by commas, of each its refusal's number and its line's; a hyphen where there is none.
fn put_faults<const N: usize>(faults: &[[usize; 2]], page: &mut Page<N>) {
    if faults.is_empty() {
        page.put(b"-");
    }
    for (i, fault) in faults.iter().enumerate() {
        if 0 < i {
            page.put(b",");
        }
        page.put_decimal(fault[0]);
        page.put(b"@");
        page.put_decimal(fault[1]);
    }
}
