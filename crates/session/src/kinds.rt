// The seven kinds of entries: a table for each, and where its slots lie. The header stanzas' slots are an array of their own, the other kinds' lie one behind the
// other in a second one.
ghost use Rattle.std.specs.Prelude.{◌≡◌};
ghost use Rattle.session.specs.Tables.{span_of, opened_slots, opened_header_slots, tables_in, opened_tables, with_table};

use crate::sessions::Session;
use tables::{EMPTY, Span, Table};

#[derive(Clone, Copy)]
pub enum Kind {
    Recipients,
    Identities,
    Keys,
    Headers,
    Errors,
    Stanzas,
    Returned,
}

// How many entries each kind has, and how many bytes they take.
#[derive(Clone, Copy)]
pub struct Tables {
    pub recipients: Table,
    pub identities: Table,
    pub keys: Table,
    pub headers: Table,
    pub errors: Table,
    pub stanzas: Table,
    pub returned: Table,
}

// Where a kind's slots begin.
const KEYS_FROM: usize = Session::RECIPIENTS + Session::IDENTITIES;

const ERRORS_FROM: usize = KEYS_FROM + Session::FILE_KEYS;

const STANZAS_FROM: usize = ERRORS_FROM + Session::ERRORS;

const RETURNED_FROM: usize = STANZAS_FROM + Session::RETURNED_STANZAS;

// Where a kind's slots lie: an arm for each, since each has numbers of its own.
pub fn span_of(kind: Kind) -> Span
    ensures { result ≡ span_of kind }
{
    let (first, width) = match kind {
        Kind::Recipients => (0, Session::RECIPIENTS),
        Kind::Identities => (Session::RECIPIENTS, Session::IDENTITIES),
        Kind::Keys => (KEYS_FROM, Session::FILE_KEYS),
        Kind::Headers => (0, Session::HEADER_STANZAS),
        Kind::Errors => (ERRORS_FROM, Session::ERRORS),
        Kind::Stanzas => (STANZAS_FROM, Session::RETURNED_STANZAS),
        Kind::Returned => (RETURNED_FROM, Session::RETURNED_KEYS),
    };
    Span { first, width }
}

// No entry of any kind.
pub(crate) fn open_tables() -> Tables
    ensures { tables_in result opened_slots opened_header_slots ≡ opened_tables }
{
    Tables {
        recipients: Table::open(),
        identities: Table::open(),
        keys: Table::open(),
        headers: Table::open(),
        errors: Table::open(),
        stanzas: Table::open(),
        returned: Table::open(),
    }
}

impl Tables {
    // The tables with another one of a kind: an arm for each, since the tables are public fields that `tables_in` and hosts read by name.
    pub fn with(self, kind: Kind, table: Table) -> Tables
        ensures { result ≡ with_table self kind table }
    {
        match kind {
            Kind::Recipients => Tables {
                recipients: table,
                ..self
            },
            Kind::Identities => Tables {
                identities: table,
                ..self
            },
            Kind::Keys => Tables {
                keys: table,
                ..self
            },
            Kind::Headers => Tables {
                headers: table,
                ..self
            },
            Kind::Errors => Tables {
                errors: table,
                ..self
            },
            Kind::Stanzas => Tables {
                stanzas: table,
                ..self
            },
            Kind::Returned => Tables {
                returned: table,
                ..self
            },
        }
    }
}

impl Session {
    // The header stanzas' slots, none with an entry. Lent beside the buffers, to every call of a session, like the other kinds'.
    pub fn open_header_slots() -> [[usize; 4]; Session::HEADER_STANZAS]
        ensures { result ≡ opened_header_slots }
    {
        [EMPTY; Session::HEADER_STANZAS]
    }

    // The slots of the other six kinds.
    pub fn open_slots() -> [[usize; 4]; Session::OTHER_SLOTS]
        ensures { result ≡ opened_slots }
    {
        [EMPTY; Session::OTHER_SLOTS]
    }
}
