// The lines of a script, each ended by LF.
ghost use Rattle.std.specs.Prelude.{◌≡◌, ◌+◌, drop};
ghost use Rattle.refusal.specs.Run.{run};
ghost use Rattle.script.specs.Line.{is_line_byte};

// The end of the line that begins at `from`: the next LF or the text's end; `from` itself where that is no place of the text.
pub fn find_lf(text: &[u8], from: usize) -> usize
    ensures { result ≡ from + run is_line_byte (drop from text.now) }
{
    for i in from..text.len() {
        if text[i] == b'\n' {
            return i;
        }
    }
    from.max(text.len())
}
