// A host of the plugin end, on one conversation of recipient-v1: two file keys are wrapped to one recipient. What the client sends is recorded here, cut as a
// pipe might cut it. Standard output says what goes to the client, and what the client said.
#![tactic(auto)]

use host_printing::{print, print_number, print_verdict, print_written};
use plugin::{Last, Response, Session, TextKind, WordTwo};

// How long the buffers are that the host lends.
const STORE: usize = 256;

fn main(rt: HostRuntime) {
    let stdout = &rt.stdout();
    let opening = Session::open_plugin(b"recipient-v1", b"interop");
    let verdict = opening.verdict;
    print_verdict(stdout, b"open: ", verdict);
    let mut input = [0u8; Session::PLUGIN_INPUT];
    let mut slots = Session::open_slots();
    let mut header_slots = Session::open_header_slots();
    let mut recipients = [0u8; STORE];
    let mut keys = [0u8; STORE];
    let mut stanzas = [0u8; STORE];
    let s = phase_one(
        stdout,
        opening.session,
        &mut input,
        &mut slots,
        &mut header_slots,
        &mut recipients,
        &mut keys,
    );
    show_recipient(stdout, s, &slots, &recipients);
    let s = phase_two(
        stdout,
        s,
        &mut input,
        &mut slots,
        &mut header_slots,
        &mut recipients,
        &mut keys,
        &mut stanzas,
    );
    print_verdict(stdout, b"finish: ", plugin::finish(s));
}

// The client speaks.
fn phase_one(
    stdout: &impl Print,
    s: Session,
    input: &mut [u8; Session::PLUGIN_INPUT],
    slots: &mut [[usize; 4]; Session::OTHER_SLOTS],
    header_slots: &mut [[usize; 4]; Session::HEADER_STANZAS],
    recipients: &mut [u8; STORE],
    keys: &mut [u8; STORE],
) -> Session {
    let first = b"-> add-recipient age1interop1qyqszqg83syvs\n\n-> wrap-file";
    let second = b"-key\nMDEyMzQ1Njc4OWFiY2RlZg\n-> wrap-file-key\nZ2hpamtsbW5vcHFyc";
    let third = b"3R1dg\n-> done\n\n";
    let s = hear(
        stdout,
        s,
        first,
        input,
        slots,
        header_slots,
        recipients,
        keys,
    );
    let s = hear(
        stdout,
        s,
        second,
        input,
        slots,
        header_slots,
        recipients,
        keys,
    );
    hear(
        stdout,
        s,
        third,
        input,
        slots,
        header_slots,
        recipients,
        keys,
    )
}

// The plugin speaks, and each command but done has a response.
fn phase_two(
    stdout: &impl Print,
    s: Session,
    input: &mut [u8; Session::PLUGIN_INPUT],
    slots: &mut [[usize; 4]; Session::OTHER_SLOTS],
    header_slots: &mut [[usize; 4]; Session::HEADER_STANZAS],
    recipients: &mut [u8; STORE],
    keys: &mut [u8; STORE],
    stanzas: &mut [u8; STORE],
) -> Session {
    let other = WordTwo::Other;
    let confirm = WordTwo::Confirm;
    let stanza = WordTwo::RecipientStanza;
    let done = WordTwo::Done;
    let labels = b"eWVz bm8";
    let message = b"Touch the token?";
    let first = b"0 interop x";
    let second = b"1 interop y";
    let unsupported = b"-> unsupported\n\n";
    let ok = b"-> ok\n\n";
    let s = say(
        stdout,
        s,
        other,
        b"grease",
        b"",
        slots,
        header_slots,
        stanzas,
    );
    let s = hear(
        stdout,
        s,
        unsupported,
        input,
        slots,
        header_slots,
        recipients,
        keys,
    );
    let s = say(
        stdout,
        s,
        confirm,
        labels,
        message,
        slots,
        header_slots,
        stanzas,
    );
    let s = hear(
        stdout,
        s,
        b"-> ok",
        input,
        slots,
        header_slots,
        recipients,
        keys,
    );
    let s = hear(
        stdout,
        s,
        b" yes\n\n",
        input,
        slots,
        header_slots,
        recipients,
        keys,
    );
    let s = say(
        stdout,
        s,
        stanza,
        first,
        b"first",
        slots,
        header_slots,
        stanzas,
    );
    let s = hear(stdout, s, ok, input, slots, header_slots, recipients, keys);
    let s = say(
        stdout,
        s,
        stanza,
        second,
        b"second",
        slots,
        header_slots,
        stanzas,
    );
    let s = hear(stdout, s, ok, input, slots, header_slots, recipients, keys);
    say(stdout, s, done, b"", b"", slots, header_slots, stanzas)
}

// Receives a chunk of what the client sends: commands in phase one, then the response that is due. No identities and no header stanzas are sent.
fn hear(
    stdout: &impl Print,
    session: Session,
    chunk: &[u8],
    input: &mut [u8; Session::PLUGIN_INPUT],
    slots: &mut [[usize; 4]; Session::OTHER_SLOTS],
    header_slots: &mut [[usize; 4]; Session::HEADER_STANZAS],
    recipients: &mut [u8; STORE],
    keys: &mut [u8; STORE],
) -> Session {
    let mut identities = [0u8; 0];
    let mut headers = [0u8; 0];
    let mut out = [0u8; 0];
    let received = plugin::receive(
        session,
        chunk,
        input,
        slots,
        header_slots,
        recipients,
        &mut identities,
        keys,
        &mut headers,
        &mut out,
    );
    let verdict = received.verdict;
    let last = received.last;
    print_verdict(stdout, b"received: ", verdict);
    print_number(stdout, b"taken: ", received.count);
    print_response(stdout, last);
    received.session
}

// Sends a command of phase two: what is written to the front of `out` goes to the client. No keys are returned in recipient-v1.
fn say(
    stdout: &impl Print,
    session: Session,
    word: WordTwo,
    arguments: &[u8],
    body: &[u8],
    slots: &mut [[usize; 4]; Session::OTHER_SLOTS],
    header_slots: &[[usize; 4]; Session::HEADER_STANZAS],
    stanzas: &mut [u8; STORE],
) -> Session {
    let mut errors = [0u8; 0];
    let mut returned = [0u8; 0];
    let mut out = [0u8; STORE];
    let sent = plugin::send(
        session,
        word,
        arguments,
        body,
        slots,
        header_slots,
        &mut errors,
        stanzas,
        &mut returned,
        &mut out,
    );
    let answer = sent.answer;
    print_written(stdout, b"to the client:\n", answer, &out);
    sent.session
}

// What the client answered, where a response was taken.
fn print_response(stdout: &impl Print, last: Option<Last>) {
    if let Some(Last::Response(response)) = last {
        match response {
            Response::Ok => print(stdout, b"response: ", b"ok"),
            Response::Yes => print(stdout, b"response: ", b"yes"),
            Response::No => print(stdout, b"response: ", b"no"),
            Response::Fail => print(stdout, b"response: ", b"fail"),
            Response::Unsupported => print(stdout, b"response: ", b"unsupported"),
        }
    }
}

// The first recipient.
fn show_recipient(
    stdout: &impl Print,
    session: Session,
    slots: &[[usize; 4]; Session::OTHER_SLOTS],
    recipients: &[u8; STORE],
) {
    let kind = TextKind::Recipient;
    let text = plugin::entry(session.tables, kind, 0, slots, recipients, &[]);
    print(stdout, b"recipient: ", text);
}
