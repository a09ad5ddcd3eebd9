// A file that the grammar matches: its endianness line, and the walk over its declarations. What three functions ask of the source,
// that the grammar matches it, is no type: made in one place, its value would be the source once more beside the counts.
ghost use Rattle.std.specs.Prelude.{◌≡◌, ◌≤◌, length};
ghost use Rattle.meaning.specs.Places.{place_at};
ghost use Rattle.meaning.specs.Walk.{endianness};
ghost use Rattle.reading.specs.Lines.{Lined};
ghost use Rattle.reading.specs.Sources.{Matched, whole, declared};
ghost use Rattle.walk.specs.Totals.{Tabled};
ghost use Rattle.reading.specs.Endianness.{byte_order};
ghost use Rattle.walk.specs.Lending.{declared_in, Kept};

use ast::numbers;
use declarations::files::endianness_declaration;
use lexis::blanks::blanks;
use lexis::texts::literal;
use meaning::SourceLocation;
use walk::tables::Tables;
use walk::{Door, Walk};

// The orders of bytes, as the first word of the endianness has them: a number that `read` answers, and no enum, which
// would be cast where it is made.
const LITTLE: u64 = 1;

const BIG: u64 = 2;

// The endianness line: where it starts and where it ends.
#[derive(Clone, Copy)]
pub struct Line {
    pub start: usize,
    pub end: usize,
}

// The line that follows the leading blanks.
#[tactic(auto, using(crate::specs::Lines::lined))]
fn line_of(s: &[u8]) -> Line
    ensures { Lined s.now result }
{
    let start = blanks(s);
    let m = endianness_declaration(&s[start..]);
    Line {
        start,
        end: start + m.taken(),
    }
}

// The place of an offset.
fn place_of(s: &[u8], offset: usize) -> SourceLocation
    requires { offset ≤ length s.now }
    ensures { result ≡ place_at s.now offset }
{
    let start = SourceLocation {
        offset: 0,
        line: 0,
        column: 0,
    };
    text::move_to(s, start, offset)
}

// The order of bytes that the line at the front says.
fn byte_order(s: &[u8]) -> u64
    ensures { result ≡ byte_order s.now }
{
    let little = literal(s, b"little_endian_packets").is_hit();
    if little { LITTLE } else { BIG }
}

// The endianness and its place.
pub fn endianness(s: &[u8]) -> [u64; numbers::ENDIANNESS_WORDS]
    requires { Matched s.now }
    ensures { result ≡ endianness s.now (whole s.now) }
{
    let line = line_of(s);
    let p = place_of(s, line.start);
    let q = text::move_to(s, p, line.end);
    [
        byte_order(&s[line.start..]),
        p.offset as u64,
        p.line as u64,
        p.column as u64,
        q.offset as u64,
        q.line as u64,
        q.column as u64,
    ]
}

// The rows of all declarations: they are counted, or counted and written. The first integer that does not convert is noted.
pub fn put_file(s: &[u8], door: Door, tables: &mut Tables) -> Walk
    requires { Matched s.now }
    ensures tabled { Tabled (declared s.now) door result (declared_in tables.old) (declared_in tables.new) }
    ensures kept { Kept tables.old tables.new }
{
    let line = line_of(s);
    declaration_rows::put_declarations(
        s,
        line.end,
        Walk::new(door),
        tables.declarations,
        tables.fields,
        tables.tags,
        tables.constraints,
    )
}
