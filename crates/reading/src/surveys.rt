// What a source holds: the first of the checks 1 to 4 that fails, or the rows that each table needs.
ghost use Rattle.meaning.specs.Reading.{walked, reading};
ghost use Rattle.walk.specs.Lending.{words, SameTables};
ghost use Rattle.reading.specs.Sources.{Matched, whole};
ghost use Rattle.reading.specs.Surveys.{Surveyed};

use crate::files::put_file;
use crate::refusals::Refusal;
use crate::tables::Counts;
use ast::tables::Table;
use comments::put_comments;
use declarations::files::file;
use meaning::longest;
use walk::Door;
use walk::tables::Tables;

// The rows of a source that the grammar matches, or its first integer that does not convert. No row is written.
fn survey_rows(s: &[u8], tables: &mut Tables) -> Result<Counts, Refusal>
    requires { Matched s.now }
    ensures told { Surveyed (walked s.now (whole s.now)) result (words tables.old) (words tables.new) }
    ensures same { SameTables tables.old tables.new }
{
    let n = put_file(s, Door::Count, tables);
    if let Some(error) = n.bad.error() {
        return Err(Refusal::NotConverted {
            place: n.bad.place,
            error,
        });
    }
    let c = put_comments(s, Door::Count, tables.comments);
    Ok([
        n.counted(Table::Declarations) as u64,
        n.counted(Table::Fields) as u64,
        n.counted(Table::Tags) as u64,
        n.counted(Table::Constraints) as u64,
        c.counted(Table::Comments) as u64,
    ])
}

// Checks 1 to 4, each over the whole source. No word of a table is changed.
pub fn survey(s: &[u8], tables: &mut Tables) -> Result<Counts, Refusal>
    ensures told { Surveyed (reading s.now) result (words tables.old) (words tables.new) }
    ensures same { SameTables tables.old tables.new }
{
    let most = longest();
    if most < s.len() {
        return Err(Refusal::TooLong(most));
    }
    let valid = text::valid_prefix(s);
    if valid < s.len() {
        return Err(Refusal::NotUtf8(valid));
    }
    let found = file(s);
    if !found.at.is_hit() {
        return Err(Refusal::NoMatch(found.place));
    }
    survey_rows(s, tables)
}
