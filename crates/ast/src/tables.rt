// The tables that a reading fills: which there are, their numbers, and the words of a row of each.
ghost use Rattle.std.specs.Prelude.{◌≡◌, ◌<◌};
ghost use Rattle.meaning.specs.Tables.{number, size};
ghost use Rattle.ast.specs.Tables.{meant};

use crate::numbers;

// The five tables.
#[derive(Clone, Copy, Debug, PartialEq, Eq)]
pub enum Table {
    Declarations,
    Fields,
    Tags,
    Constraints,
    Comments,
}

impl Table {
    // Its number, from 1 on.
    pub fn number(self) -> u64
        ensures { result ≡ number (meant self) }
    {
        match self {
            Table::Declarations => numbers::DECLARATIONS,
            Table::Fields => numbers::FIELDS,
            Table::Tags => numbers::TAGS,
            Table::Constraints => numbers::CONSTRAINTS,
            Table::Comments => numbers::COMMENTS,
        }
    }

    // The words of a row.
    pub fn row_words(self) -> usize
        ensures size { result ≡ size (meant self) }
        ensures some { 0 < result }
    {
        match self {
            Table::Declarations => numbers::DECLARATION_WORDS,
            Table::Fields => numbers::FIELD_WORDS,
            Table::Tags => numbers::TAG_WORDS,
            Table::Constraints => numbers::CONSTRAINT_WORDS,
            Table::Comments => numbers::COMMENT_WORDS,
        }
    }
}
