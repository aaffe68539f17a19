// The commands of a file's valid lines, written one behind the other, and done.
ghost use Rattle.std.specs.Prelude.{◌≡◌, ◌++◌, ◌+◌, ◌≤◌, length, drop};
ghost use Rattle.identity_file.specs.Files.{command_of, commands_of, transcript};
ghost use Rattle.identity_file.specs.Steps.{texts_at, Places};

// What stands before and behind an identity in its command, and done.
const FRONT: [u8; 16] = *b"-> add-identity ";

const BACK: [u8; 2] = *b"\n\n";

const DONE: [u8; 9] = *b"-> done\n\n";

// How long a command is beside its identity.
const AROUND: usize = 18;

// How long the commands of the places are, and done.
pub(crate) fn transcript_size(text: &[u8], places: &[[usize; 2]]) -> usize
    requires few { length places.now ≤ 64 }
    requires places { Places text.now places.now (length places.now) }
    ensures { result ≡ length (transcript (texts_at text.now places.now)) }
{
    let mut size = DONE.len();
    for &[start, end] in places {
        size = size + (end - start) + AROUND;
    }
    size
}

// The command of an identity at the front of `out`, which is long enough.
fn put_command(line: &[u8], out: &mut [u8])
    requires { length line.now + 18 ≤ length out.old }
    ensures { out.new ≡ command_of line.now ++ drop (length line.now + 18) out.old }
{
    let end = 16 + line.len();
    out[..16].copy_from_slice(&FRONT);
    // Of any length, and so by `copy`: `copy_from_slice` needs `memmove` there.
    stanza::copy(line, &mut out[16..end]);
    out[end..end + 2].copy_from_slice(&BACK);
}

// The commands of the places at the front of `out`, which is long enough, and where they end.
fn put_commands(text: &[u8], places: &[[usize; 2]], out: &mut [u8]) -> usize
    requires places { Places text.now places.now (length places.now) }
    requires places_in_bounds { length (commands_of (texts_at text.now places.now)) ≤ length out.old }
    ensures end { result ≡ length (commands_of (texts_at text.now places.now)) }
    ensures buffer { out.new ≡
        commands_of (texts_at text.now places.now) ++ drop
        (length (commands_of (texts_at text.now places.now))) out.old }
{
    let mut from: usize = 0;
    for &[start, end] in places {
        put_command(&text[start..end], &mut out[from..]);
        from = from + (end - start) + AROUND;
    }
    from
}

// The same, and done behind them.
pub(crate) fn put_transcript(text: &[u8], places: &[[usize; 2]], out: &mut [u8])
    requires places { Places text.now places.now (length places.now) }
    requires places_in_bounds { length (transcript (texts_at text.now places.now)) ≤ length out.old }
    ensures { out.new ≡
        transcript (texts_at text.now places.now) ++ drop
        (length (transcript (texts_at text.now places.now))) out.old }
{
    let end = put_commands(text, places, out);
    out[end..end + 9].copy_from_slice(&DONE);
}
