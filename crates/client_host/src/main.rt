// A host of the client end, on one conversation of recipient-v1: two file keys are wrapped to one recipient. What the plugin sends is recorded here, cut as a
// pipe might cut it. Standard output says what goes to the plugin, what the user is shown, and what the files have got.
#![tactic(auto)]

use client::{Received, Response, Screen, Session, WordOne};
use host_printing::{print, print_number, print_verdict, print_written};

// How long the buffers are that the host lends.
const STORE: usize = 256;

fn main(rt: HostRuntime) {
    let stdout = &rt.stdout();
    let opening = Session::open_with(b"recipient-v1", b"interop", Screen::Shown);
    let verdict = opening.verdict;
    print_verdict(stdout, b"open: ", verdict);
    let mut slots = Session::open_slots();
    let mut header_slots = Session::open_header_slots();
    let mut recipients = [0u8; STORE];
    let mut keys = [0u8; STORE];
    let s = phase_one(
        stdout,
        opening.session,
        &mut slots,
        &mut header_slots,
        &mut recipients,
        &mut keys,
    );
    let mut input = [0u8; Session::CLIENT_INPUT];
    let mut errors = [0u8; STORE];
    let mut stanzas = [0u8; STORE];
    let s = phase_two(
        stdout,
        s,
        &mut input,
        &mut slots,
        &header_slots,
        &mut errors,
        &mut stanzas,
    );
    print_verdict(stdout, b"finish: ", client::finish(s));
    print_number(stdout, b"errors: ", client::count_errors(s.tables));
    show_stanza(stdout, s, 0, &slots, &stanzas);
    show_stanza(stdout, s, 1, &slots, &stanzas);
}

// The client speaks.
fn phase_one(
    stdout: &impl Print,
    s: Session,
    slots: &mut [[usize; 4]; Session::OTHER_SLOTS],
    header_slots: &mut [[usize; 4]; Session::HEADER_STANZAS],
    recipients: &mut [u8; STORE],
    keys: &mut [u8; STORE],
) -> Session {
    let add = WordOne::AddRecipient;
    let wrap = WordOne::WrapFileKey;
    let done = WordOne::Done;
    let text = b"age1interop1qyqszqg83syvs";
    let first = b"0123456789abcdef";
    let second = b"ghijklmnopqrstuv";
    let s = say(
        stdout,
        s,
        add,
        text,
        b"",
        slots,
        header_slots,
        recipients,
        keys,
    );
    let s = say(
        stdout,
        s,
        wrap,
        b"",
        first,
        slots,
        header_slots,
        recipients,
        keys,
    );
    let s = say(
        stdout,
        s,
        wrap,
        b"",
        second,
        slots,
        header_slots,
        recipients,
        keys,
    );
    say(
        stdout,
        s,
        done,
        b"",
        b"",
        slots,
        header_slots,
        recipients,
        keys,
    )
}

// The plugin speaks.
fn phase_two(
    stdout: &impl Print,
    s: Session,
    input: &mut [u8; Session::CLIENT_INPUT],
    slots: &mut [[usize; 4]; Session::OTHER_SLOTS],
    header_slots: &[[usize; 4]; Session::HEADER_STANZAS],
    errors: &mut [u8; STORE],
    stanzas: &mut [u8; STORE],
) -> Session {
    let first = b"-> grease\n\n-> confirm eWVz bm8\nVG91Y2ggdG";
    let second = b"hlIHRva2VuPw\n-> recipient-stanza 0 interop x\nZmlyc3Q\n-> recip";
    let third = b"ient-stanza 1 interop y\nc2Vjb25k\n-> done\n\n";
    let yes = Response::Yes;
    let s = hear(
        stdout,
        s,
        first,
        input,
        slots,
        header_slots,
        errors,
        stanzas,
    );
    let s = hear(
        stdout,
        s,
        second,
        input,
        slots,
        header_slots,
        errors,
        stanzas,
    );
    show(stdout, s, input);
    let s = reply(
        stdout,
        s,
        yes,
        b"",
        input,
        slots,
        header_slots,
        errors,
        stanzas,
    );
    hear(
        stdout,
        s,
        third,
        input,
        slots,
        header_slots,
        errors,
        stanzas,
    )
}

// Sends a command of phase one: what is written to the front of `out` goes to the plugin. No identities and no header stanzas are sent.
fn say(
    stdout: &impl Print,
    session: Session,
    word: WordOne,
    arguments: &[u8],
    body: &[u8],
    slots: &mut [[usize; 4]; Session::OTHER_SLOTS],
    header_slots: &mut [[usize; 4]; Session::HEADER_STANZAS],
    recipients: &mut [u8; STORE],
    keys: &mut [u8; STORE],
) -> Session {
    let mut identities = [0u8; 0];
    let mut headers = [0u8; 0];
    let mut out = [0u8; STORE];
    let sent = client::send(
        session,
        word,
        arguments,
        body,
        slots,
        header_slots,
        recipients,
        &mut identities,
        keys,
        &mut headers,
        &mut out,
    );
    let answer = sent.answer;
    print_written(stdout, b"to the plugin:\n", answer, &out);
    sent.session
}

// Receives a chunk of what the plugin sends. No keys are returned in recipient-v1.
fn hear(
    stdout: &impl Print,
    session: Session,
    chunk: &[u8],
    input: &mut [u8; Session::CLIENT_INPUT],
    slots: &mut [[usize; 4]; Session::OTHER_SLOTS],
    header_slots: &[[usize; 4]; Session::HEADER_STANZAS],
    errors: &mut [u8; STORE],
    stanzas: &mut [u8; STORE],
) -> Session {
    let mut returned = [0u8; 0];
    let mut out = [0u8; STORE];
    let received = client::receive(
        session,
        chunk,
        input,
        slots,
        header_slots,
        errors,
        stanzas,
        &mut returned,
        &mut out,
    );
    print_received(stdout, received, &out);
    received.session
}

// Replies to the command that waits, and receives what was kept back behind it.
fn reply(
    stdout: &impl Print,
    session: Session,
    response: Response,
    body: &[u8],
    input: &mut [u8; Session::CLIENT_INPUT],
    slots: &mut [[usize; 4]; Session::OTHER_SLOTS],
    header_slots: &[[usize; 4]; Session::HEADER_STANZAS],
    errors: &mut [u8; STORE],
    stanzas: &mut [u8; STORE],
) -> Session {
    let mut returned = [0u8; 0];
    let mut out = [0u8; STORE];
    let received = client::reply(
        session,
        response,
        body,
        input,
        slots,
        header_slots,
        errors,
        stanzas,
        &mut returned,
        &mut out,
    );
    print_received(stdout, received, &out);
    received.session
}

// What a call that receives came to: the verdict, how many stanzas were taken, and what goes to the plugin.
fn print_received(stdout: &impl Print, received: Received, out: &[u8]) {
    let verdict = received.verdict;
    print_verdict(stdout, b"received: ", verdict);
    print_number(stdout, b"taken: ", received.count);
    if 0 < received.written {
        print(
            stdout,
            b"to the plugin:\n",
            client::front(out, received.written),
        );
    }
}

// What waits for the user's reply: its text, its message, and the labels of a confirm.
fn show(stdout: &impl Print, session: Session, input: &[u8]) {
    let mut text = [0u8; STORE];
    print(stdout, b"waits:\n", client::awaited_text(session, input));
    let message = client::awaited_message(session, input, &mut text);
    print_written(stdout, b"message: ", message, &text);
    print_number(stdout, b"labels: ", client::awaited_labels(session, input));
    let label = client::awaited_label(session, input, 0, &mut text);
    print_written(stdout, b"label: ", label, &text);
    let label = client::awaited_label(session, input, 1, &mut text);
    print_written(stdout, b"label: ", label, &text);
}

// What a file has got for the first recipient.
fn show_stanza(
    stdout: &impl Print,
    session: Session,
    file: usize,
    slots: &[[usize; 4]; Session::OTHER_SLOTS],
    stanzas: &[u8; STORE],
) {
    let stanza = client::stanza_of(session.tables, file, 0, slots, stanzas);
    print(stdout, b"stanza: ", stanza);
}
