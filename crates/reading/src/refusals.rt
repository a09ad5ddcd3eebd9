// Why a source is not read: the number of each refusal, its place and its reason, as a reading's answer has them.
ghost use Rattle.std.specs.Prelude.{◌≡◌};
ghost use Rattle.reading.specs.Refusals.{number_of, place_of, reason_of};

use ast::numbers;
use ast::tables::Table;
use meaning::ConversionError;

// The first of the checks that fails. The place of a source that is too long is the most bytes that one may have; that of any
// other is where it goes wrong. A table that is too short goes with the rows that it needs.
#[derive(Clone, Copy, Debug, PartialEq, Eq)]
pub enum Refusal {
    TooLong(usize),
    NotUtf8(usize),
    NoMatch(usize),
    NotConverted {
        place: usize,
        error: ConversionError,
    },
    TooFewRows {
        table: Table,
        needed: u64,
    },
}

impl Refusal {
    // The number of the refusal, never 0.
    pub fn number(self) -> u64
        ensures { result ≡ number_of self }
    {
        match self {
            Refusal::TooLong(_) => numbers::TOO_LONG,
            Refusal::NotUtf8(_) => numbers::NOT_UTF8,
            Refusal::NoMatch(_) => numbers::NO_MATCH,
            Refusal::NotConverted { .. } => numbers::NOT_CONVERTED,
            Refusal::TooFewRows { .. } => numbers::TOO_FEW_ROWS,
        }
    }

    // Its place: an offset, or the number of the table.
    pub fn place(self) -> u64
        ensures { result ≡ place_of self }
    {
        match self {
            Refusal::TooLong(place) => place as u64,
            Refusal::NotUtf8(place) => place as u64,
            Refusal::NoMatch(place) => place as u64,
            Refusal::NotConverted { place, .. } => place as u64,
            Refusal::TooFewRows { table, .. } => table.number(),
        }
    }

    // Its reason: that of the converter, or the rows needed; 0 where there is none.
    pub fn reason(self) -> u64
        ensures { result ≡ reason_of self }
    {
        match self {
            Refusal::NotConverted { error, .. } => error.reason(),
            Refusal::TooFewRows { needed, .. } => needed,
            _ => 0,
        }
    }
}
