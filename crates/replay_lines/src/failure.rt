// Why a line comes to nothing.
use refusal::Refusal;

// The line is no call; no session is open for it, or the end that is open does not have it; or it is refused.
#[derive(Clone, Copy)]
pub enum Failure {
    BadLine,
    NoSession,
    Refused(Refusal),
}

impl From<Refusal> for Failure {
    fn from(refusal: Refusal) -> Failure {
        Failure::Refused(refusal)
    }
}
