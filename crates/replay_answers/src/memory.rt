// What the replay program keeps of a session beside the session itself.
use replay_lines::{Lengths, front, front_mut};
use session::Session;

// A buffer of the session, lent up to its length; zeros stand behind that.
#[derive(Drop)]
pub struct Lent {
    bytes: [u8; 65536],
    length: usize,
}

impl Lent {
    pub fn new() -> Lent {
        Lent {
            bytes: [0; 65536],
            length: 0,
        }
    }

    pub fn lend(&self) -> &[u8] {
        front(&self.bytes, self.length)
    }

    pub fn lend_mut(&mut self) -> &mut [u8] {
        let length = self.length;
        front_mut(&mut self.bytes, length)
    }

    // Zeros, of some length.
    fn open(&mut self, length: usize) {
        self.lend_mut().fill(0);
        self.length = length;
    }

    // Another length: the bytes up to it are kept.
    fn set_length(&mut self, length: usize) {
        let end = length.min(self.bytes.len());
        self.bytes[end..].fill(0);
        self.length = length;
    }
}

// The slots, what either end keeps of its input, and the buffers.
#[derive(Drop)]
pub struct Memory {
    pub slots: [[usize; 4]; Session::OTHER_SLOTS],
    pub header_slots: [[usize; 4]; Session::HEADER_STANZAS],
    pub client_input: [u8; Session::CLIENT_INPUT],
    pub plugin_input: [u8; Session::PLUGIN_INPUT],
    pub recipients: Lent,
    pub identities: Lent,
    pub keys: Lent,
    pub headers: Lent,
    pub errors: Lent,
    pub stanzas: Lent,
    pub returned: Lent,
}

impl Memory {
    pub fn new() -> Memory {
        Memory {
            slots: Session::open_slots(),
            header_slots: Session::open_header_slots(),
            client_input: [0; Session::CLIENT_INPUT],
            plugin_input: [0; Session::PLUGIN_INPUT],
            recipients: Lent::new(),
            identities: Lent::new(),
            keys: Lent::new(),
            headers: Lent::new(),
            errors: Lent::new(),
            stanzas: Lent::new(),
            returned: Lent::new(),
        }
    }

    // The buffers of a session that is opened: zeros, of some lengths.
    pub fn open(&mut self, lengths: Lengths) {
        self.recipients.open(lengths.recipients);
        self.identities.open(lengths.identities);
        self.keys.open(lengths.keys);
        self.headers.open(lengths.headers);
        self.errors.open(lengths.errors);
        self.stanzas.open(lengths.stanzas);
        self.returned.open(lengths.returned);
    }

    // The buffers get other lengths.
    pub fn set_lengths(&mut self, lengths: Lengths) {
        self.recipients.set_length(lengths.recipients);
        self.identities.set_length(lengths.identities);
        self.keys.set_length(lengths.keys);
        self.headers.set_length(lengths.headers);
        self.errors.set_length(lengths.errors);
        self.stanzas.set_length(lengths.stanzas);
        self.returned.set_length(lengths.returned);
    }
}
