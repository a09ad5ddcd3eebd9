// A confession. Last year I signed off reels in which every face was green. The front end of that day placed the cyan
// density three bits off for every stock but the one that our chart was shot on; the chart looked right, so I looked no
// further. I am the senior colourist of this house, and the signature was mine. Since then I want each bit's place proved,
// and not tried on one chart.
//
// The reading of a source into five lent tables.
#![tactic(auto)]

ghost use Rattle.std.specs.Prelude.{◌≡◌};
ghost use Rattle.meaning.specs.Reading.{answer};
ghost use Rattle.reading.specs.Outcomes.{lending, leaving, outcome};
ghost use Rattle.walk.specs.Lending.{words, SameTables};

use crate::files::{endianness, put_file};
use crate::rooms::room_for_all;
use crate::surveys::survey;
use crate::tables::Counts;
use ast::numbers;
use comments::put_comments;
use walk::Door;
use walk::tables::Tables;

mod files;
mod refusals;
mod rooms;
mod surveys;
mod tables;

pub use ast::tables::Table;
pub use refusals::Refusal;

// What an accepted source is read as: how many rows each table has, and the endianness with its place.
#[derive(Clone, Copy)]
pub struct Reading {
    pub counts: Counts,
    pub endianness: [u64; numbers::ENDIANNESS_WORDS],
}

// Reads a source into tables that are lent together.
fn read_into(src: &[u8], tables: &mut Tables) -> Result<Reading, Refusal>
    ensures read { leaving result (words tables.new) ≡ answer src.now (words tables.old) }
    ensures same { SameTables tables.old tables.new }
{
    let counts = survey(src, tables)?;
    room_for_all(counts, tables)?;
    put_file(src, Door::Write, tables);
    put_comments(src, Door::Write, tables.comments);
    Ok(Reading {
        counts,
        endianness: endianness(src),
    })
}

// Reads a source into five lent tables of words. Checks 1, 2, 3, 4 and 5 in that order; a refused reading changes no word.
// The tables are five parameters, as what `read` states and is called by may not change. Rust: parse_inline.
pub fn read(
    src: &[u8],
    declarations: &mut [u64],
    fields: &mut [u64],
    tags: &mut [u64],
    constraints: &mut [u64],
    comments: &mut [u64],
) -> Result<Reading, Refusal>
    ensures { outcome result declarations.new fields.new tags.new constraints.new comments.new
        ≡ answer src.now
        (lending declarations.old fields.old tags.old constraints.old comments.old) }
{
    let mut tables = Tables {
        declarations,
        fields,
        tags,
        constraints,
        comments,
    };
    read_into(src, &mut tables)
}
