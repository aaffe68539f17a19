// Standard input, a chunk at a time.
ghost use Rattle.std.specs.Prelude.{◌≤◌, length};

use std::io::Read;

// Reads once: how many bytes, 0 at the end of the input. A read that fails ends the input too, and is told.
pub fn read_chunk(stdin: &mut impl Read, stderr: &impl Eprint, chunk: &mut [u8]) -> usize
    ensures { result ≤ length chunk.old }
{
    match stdin.read(chunk) {
        Ok(n) => n,
        Err(_) => {
            let _ = eprintln!(stderr; "judge: standard input failed");
            0
        }
    }
}
