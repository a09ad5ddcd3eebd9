// The fifth check: whether each table has room for the rows that it needs.
ghost use Rattle.std.specs.Prelude.{◌≡◌};
ghost use Rattle.meaning.specs.Tables.{all};
ghost use Rattle.walk.specs.Lending.{words};
ghost use Rattle.reading.specs.Surveys.{room_for, room_among};

use crate::refusals::Refusal;
use crate::tables::Counts;
use ast::tables::Table;
use walk::tables::Tables;

// A table's room against the rows that it needs.
fn room_for(table: Table, lent: &[u64], needed: u64) -> Result<(), Refusal>
    ensures { result ≡ room_for table lent.now needed }
{
    if ((lent.len() / table.row_words()) as u64) < needed {
        return Err(Refusal::TooFewRows { table, needed });
    }
    Ok(())
}

// The room of all tables: the first that is too short is refused.
pub fn room_for_all(counts: Counts, tables: &Tables) -> Result<(), Refusal>
    ensures { result ≡ room_among all counts (words tables.now) }
{
    room_for(Table::Declarations, tables.declarations, counts[0])?;
    room_for(Table::Fields, tables.fields, counts[1])?;
    room_for(Table::Tags, tables.tags, counts[2])?;
    room_for(Table::Constraints, tables.constraints, counts[3])?;
    room_for(Table::Comments, tables.comments, counts[4])
}
