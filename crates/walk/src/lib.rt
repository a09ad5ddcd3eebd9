// The walk's state, and the door through which every row goes into its table. Row making (`rows`) is apart from row writing.
#![tactic(auto)]

ghost use Rattle.std.specs.Prelude.{◌≡◌, ◌+◌, ◌≤◌, ◌<◌, length, get_or, [], ◌∷◌};
ghost use Rattle.grammar.specs.Matching.{Reads};
ghost use Rattle.meaning.specs.Peg.{taken};
ghost use Rattle.ast.specs.Tables.{meant};
ghost use Rattle.walk.specs.Turns.{comma};
ghost use Rattle.walk.specs.Nexts.{Turned};
ghost use Rattle.walk.specs.State.{slot, counted, fresh, error_at, after_integer, after_number, counting, left, Knows, Put, At, Came};

use crate::kinds::FieldKind;
use lexis::blanks::then_blanks;
use lexis::texts::then_literal;
use meaning::{ConversionError, Match, SourceLocation};

pub mod kinds;
pub mod lists;
pub mod rows;
pub mod tables;
pub mod terms;

pub use ast::tables::Table;

// A comma with the blanks around it.
#[inline]
fn comma(s: &[u8]) -> Match
    ensures { Reads comma s.now result }
{
    let start = Match::Took(0, 0);
    then_blanks(s, then_literal(s, then_blanks(s, start), b","))
}

// Behind an item of a list: where it ends, and where another item would stand, if a comma follows.
#[derive(Clone, Copy)]
pub struct Turn {
    pub end: usize,
    pub next: Option<usize>,
}

// The turn behind the item that matched at i.
pub fn turn_behind(s: &[u8], i: usize, item: Match) -> Turn
    requires { i + taken item ≤ length s.now }
    ensures { Turned s.now i item result }
{
    let end = i + item.taken();
    match comma(&s[end..]) {
        Match::Missed(_) => Turn { end, next: None },
        Match::Took(n, _) => Turn {
            end,
            next: Some(end + n),
        },
    }
}

// What is done with a row: it is counted, or it is counted and written.
// It stays an enum, and no closure that writes: the state keeps it, which is copied, and `Wrote` goes by its cases.
#[derive(Clone, Copy)]
pub enum Door {
    Count,
    Write,
}

// The first integer that does not convert: where it starts, and the number of the reason, which is 0 where all convert. They are
// two words, and no Option of a place and an error: a walk may begin at any, and each step promises what becomes of them.
#[derive(Clone, Copy)]
pub struct Unconverted {
    pub place: usize,
    pub reason: u64,
}

impl Unconverted {
    // Why it does not convert, if that is one of the converter's reasons.
    pub fn error(self) -> Option<ConversionError>
        ensures { result ≡ error_at self.reason }
    {
        match self.reason {
            1 => Some(ConversionError::Empty),
            2 => Some(ConversionError::BadDigit),
            3 => Some(ConversionError::TooLarge),
            _ => None,
        }
    }
}

// What is done with rows, how many each table has, the first integer that did not convert, and the place that the walk has come
// to, if it writes. The door stands last: a byte ahead of the words would have them copied at odd offsets.
#[derive(Clone, Copy)]
pub struct Walk {
    pub counts: [usize; 5],
    pub bad: Unconverted,
    pub here: SourceLocation,
    pub door: Door,
}

// A walk over a list: its state behind the list, and where the last item ends.
#[derive(Clone, Copy)]
pub struct Walked {
    pub walk: Walk,
    pub end: usize,
}

// An integer of the source: where it starts, and what it says, or why it does not convert.
#[derive(Clone, Copy)]
pub struct Number {
    pub place: usize,
    pub value: Result<u64, ConversionError>,
}

// A name of the source, by offset and length.
#[derive(Clone, Copy)]
pub struct Name {
    pub offset: usize,
    pub len: usize,
}

// The part of a field's row that its description settles.
#[derive(Clone, Copy)]
pub struct Described {
    pub kind: FieldKind,
    pub a: Name,
    pub b: Name,
    pub c: Name,
    pub na: Option<Number>,
    pub nb: Option<Number>,
}

// What the door does with row k of a table.
#[tactic(auto, unfolding(crate::specs::State::left, meaning::specs::Tables::puts))]
#[inline(always)]
fn pass(door: Door, k: usize, row: &[u64], t: &mut [u64])
    ensures { t.new ≡ left door (length row.now) k (row.now ∷ []) t.old }
{
    match door {
        Door::Count => {}
        Door::Write => ast::put_row(t, k, row),
    }
}

impl Walk {
    // The state before the first item.
    pub fn new(door: Door) -> Walk
        ensures { result ≡ fresh door }
    {
        Walk {
            door,
            counts: [0; 5],
            bad: Unconverted {
                place: 0,
                reason: 0,
            },
            here: SourceLocation {
                offset: 0,
                line: 0,
                column: 0,
            },
        }
    }

    // The state after an integer, of any place and any reason: the first bad one stays.
    #[inline(always)]
    pub fn note_integer(self, x: Unconverted) -> Walk
        ensures { result ≡ after_integer x.place x.reason self }
    {
        if self.bad.reason != 0 {
            return self;
        }
        if x.reason == 0 {
            return self;
        }
        Walk { bad: x, ..self }
    }

    // The state after an integer, if there is one.
    #[inline(always)]
    pub fn note(self, x: Option<Number>) -> Walk
        ensures { result ≡ after_number x self }
    {
        match x {
            None => self,
            Some(x) => self.note_integer(Unconverted {
                place: x.place,
                reason: text::reason_of(x.value),
            }),
        }
    }

    // A row comes to the door: it is counted, and written if the walk writes.
    #[inline]
    pub fn put(self, table: Table, row: &[u64], t: &mut [u64]) -> Walk
        requires { Knows self (slot (meant table)) }
        ensures { Put (slot (meant table)) row.now self result t.old t.new }
    {
        let mut counts = self.counts;
        let k = counts[table as usize];
        counts[table as usize] = k + 1;
        pass(self.door, k, row, t);
        Walk { counts, ..self }
    }

    // How many rows of a table there are by now.
    #[inline(always)]
    pub fn counted(self, table: Table) -> usize
        ensures { result ≡ counted (meant table) self }
    {
        self.counts[table as usize]
    }

    // The same walk, which only counts.
    #[inline(always)]
    pub fn counting(self) -> Walk
        ensures { result ≡ counting self }
    {
        Walk {
            door: Door::Count,
            ..self
        }
    }

    // The walk comes to an offset of the source. Its place is moved only if rows are written.
    #[inline(always)]
    pub fn to(self, s: &[u8], at: usize) -> Walk
        requires { At s.now at self }
        ensures { Came s.now at self result }
    {
        match self.door {
            Door::Count => self,
            Door::Write => Walk {
                here: text::move_to(s, self.here, at),
                ..self
            },
        }
    }
}
