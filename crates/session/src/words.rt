// The words of phase two's commands: the rows of the table of fitting responses, and what a session awaits an answer to.

// Other is any word that the machine does not name in phase two.
#[derive(Clone, Copy)]
pub enum WordTwo {
    Msg,
    Confirm,
    RequestPublic,
    RequestSecret,
    RecipientStanza,
    FileKey,
    Error,
    Other,
    Done,
}
