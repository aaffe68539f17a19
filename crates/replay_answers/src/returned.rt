// What `show` prints of phase two, by the library's look-ups: the errors, and the stanzas and keys that were returned, file by file.
use crate::memory::Memory;
use crate::print::{Output, Page};
use look_up::ErrorNamed;
use session::{Kind, Session, Tables};

// The errors.
pub fn print_errors(tables: Tables, memory: &Memory, out: &mut Output) {
    for n in 0..look_up::count_errors(tables) {
        let what = name_error(look_up::error_named(tables, n, &memory.slots));
        let message = look_up::error_message(tables, n, &memory.slots, memory.errors.lend());
        out.print_row(b"error", n, what.text(), message, b"");
    }
}

// What an error names, as one word: its kind, the file of a header stanza, and the index.
fn name_error(named: Option<ErrorNamed>) -> Page<64> {
    let mut page = Page::new();
    match named {
        Some(ErrorNamed::Internal) => page.put(b"internal"),
        Some(ErrorNamed::Identity(i)) => page.put_number(b"identity", i),
        Some(ErrorNamed::Recipient(i)) => page.put_number(b"recipient", i),
        Some(ErrorNamed::Header(file, i)) => {
            page.put_number(b"stanza", file);
            page.put_number(b"", i);
        }
        None => page.put(b"-"),
    }
    page
}

// The stanzas of each file; the files are those of the file keys.
pub fn print_stanzas(tables: Tables, memory: &Memory, out: &mut Output) {
    for file in 0..tables.keys.count {
        print_file(tables, file, memory, out);
    }
}

// The stanzas of a file.
fn print_file(tables: Tables, file: usize, memory: &Memory, out: &mut Output) {
    for k in 0..look_up::count_stanzas(tables, file, &memory.slots) {
        let mut index: Page<20> = Page::new();
        index.put_decimal(k);
        let payload = look_up::stanza_of(tables, file, k, &memory.slots, memory.stanzas.lend());
        out.print_row(b"stanza", file, index.text(), payload, b"");
    }
}

// The key of each file that has got one; the files are those that header stanzas name, whose numbers never fall.
pub fn print_keys(tables: Tables, memory: &Memory, out: &mut Output) {
    let mut last = None;
    for n in 0..Session::HEADER_STANZAS {
        let found = look_up::find(
            tables,
            Kind::Headers,
            n,
            &memory.slots,
            &memory.header_slots,
        );
        let Some(entry) = found else {
            return;
        };
        let file = entry.index;
        if last != Some(file) && look_up::has_key(tables, file, &memory.slots) {
            let payload = look_up::key_of(tables, file, &memory.slots, memory.returned.lend());
            out.print_row(b"key", file, b"", payload, b"");
        }
        last = Some(file);
    }
}
