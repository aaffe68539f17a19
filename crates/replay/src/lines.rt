// The lines of standard input, read in chunks. Answers are written before more input is read.
use replay_answers::Output;
use replay_lines::{append, front, part};
use std::io::Read;

// The chunk and the part of it that is not taken yet; the current line, as far as its buffer takes it; whether it has ended; and how many lines have.
// A line buffer takes a byte more than the longest line, so that a longer one shows.
#[derive(Drop)]
pub struct Lines {
    chunk: [u8; 65536],
    from: usize,
    to: usize,
    line: [u8; 65537],
    length: usize,
    ended: bool,
    pub count: usize,
}

impl Lines {
    // Nothing read yet.
    pub fn new() -> Lines {
        Lines {
            chunk: [0; 65536],
            from: 0,
            to: 0,
            line: [0; 65537],
            length: 0,
            ended: false,
            count: 0,
        }
    }

    // The current line, if it has ended.
    pub fn ended(&self) -> Option<&[u8]> {
        if self.ended {
            return Some(front(&self.line, self.length));
        }
        None
    }

    // One step: more bytes of the current line, which may end it; or, where the chunk is taken, another chunk. Whether more input may come.
    pub fn advance(&mut self, stdin: &mut impl Read, out: &mut Output) -> bool {
        if self.ended {
            self.length = 0;
        }
        if self.from < self.to {
            self.take_piece();
            return true;
        }
        out.flush();
        self.from = 0;
        self.to = read_some(stdin, &out.stderr, &mut self.chunk);
        if 0 < self.to {
            self.ended = false;
            return true;
        }
        // The input has ended: what is left of it is a line that lacks its LF.
        self.ended = 0 < self.length;
        self.count = self.count.wrapping_add(1);
        false
    }

    // The bytes of the chunk up to the next LF, or all that are left.
    fn take_piece(&mut self) {
        let chunk = front(&self.chunk, self.to);
        let end = script::find_lf(chunk, self.from);
        self.length = append(part(chunk, self.from, end), &mut self.line, self.length);
        self.ended = end < chunk.len();
        if self.ended {
            self.from = end + 1;
            self.count = self.count.wrapping_add(1);
        } else {
            self.from = self.to;
        }
    }
}

// Reads once: how many bytes, 0 at the end of the input. A read that fails ends the input too, and is told.
fn read_some(stdin: &mut impl Read, stderr: &impl Eprint, chunk: &mut [u8]) -> usize {
    match stdin.read(chunk) {
        Ok(n) => n,
        Err(_) => {
            let _ = eprintln!(stderr; "replay: standard input failed");
            0
        }
    }
}
