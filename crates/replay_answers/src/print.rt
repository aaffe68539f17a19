// Pages, and standard output, to which a page is written before a piece might not fit on it.
use replay_lines::front;
use std::io::{Stderr, Stdout};

// A buffer and how many of its bytes are in use. A piece that does not fit is left out.
#[derive(Drop)]
pub struct Page<const N: usize> {
    bytes: [u8; N],
    used: usize,
}

impl<const N: usize> Page<N> {
    pub fn new() -> Page<N> {
        Page {
            bytes: [0; N],
            used: 0,
        }
    }

    pub fn text(&self) -> &[u8] {
        front(&self.bytes, self.used)
    }

    // Some bytes as they are.
    pub fn put(&mut self, bytes: &[u8]) {
        self.used = printing::put(bytes, &mut self.bytes, self.used);
    }

    // A number in decimal.
    pub fn put_decimal(&mut self, n: usize) {
        self.used = printing::put_decimal(n as u64, &mut self.bytes, self.used);
    }

    // Some bytes, a space and a number.
    pub fn put_number(&mut self, head: &[u8], n: usize) {
        self.put(head);
        self.used = printing::put_number(n as u64, &mut self.bytes, self.used);
    }
}

// The page, where it is written to, and where a failure is told. The longest piece, 65,536 bytes with four for each, fits behind the bytes that may be in
// use when its line is begun.
#[derive(Drop)]
pub struct Output {
    page: Page<524288>,
    stdout: Stdout,
    pub stderr: Stderr,
}

const MOST_USED: usize = 131072;

impl Output {
    pub fn new(stdout: Stdout, stderr: Stderr) -> Output {
        Output {
            page: Page::new(),
            stdout,
            stderr,
        }
    }

    // Writes the page to standard output.
    pub fn flush(&mut self) {
        if self.stdout.write_all(self.page.text()).is_err() {
            let _ = eprintln!(self.stderr; "replay: standard output failed");
        }
        self.page.used = 0;
    }

    // The page, with room for the next piece.
    pub fn room(&mut self) -> &mut Page<524288> {
        if MOST_USED < self.page.used {
            self.flush();
        }
        &mut self.page
    }

    // Some bytes as they are.
    pub fn print(&mut self, bytes: &[u8]) {
        self.room().put(bytes);
    }

    // Some bytes, and a number at the end of the line.
    pub fn print_number(&mut self, head: &[u8], n: usize) {
        let page = self.room();
        page.put_number(head, n);
        page.put(b"\n");
    }

    // Some bytes, and a word at the end of the line.
    pub fn print_word(&mut self, head: &[u8], word: &[u8]) {
        let page = self.room();
        page.used = printing::print_word(head, word, &mut page.bytes, page.used);
    }

    // A line that begins with some bytes and a number, as that of an entry of a table.
    pub fn print_row(&mut self, head: &[u8], n: usize, second: &[u8], payload: &[u8], tail: &[u8]) {
        let page = self.room();
        page.used = printing::print_row(
            head,
            n as u64,
            second,
            payload,
            tail,
            &mut page.bytes,
            page.used,
        );
    }

    // Some bytes, and numbers to the end of the line.
    pub fn print_numbers(&mut self, head: &[u8], numbers: &[usize]) {
        let page = self.room();
        page.put(head);
        for &n in numbers {
            page.put_number(b"", n);
        }
        page.put(b"\n");
    }
}
