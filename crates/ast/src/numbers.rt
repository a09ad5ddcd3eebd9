// The numbers of 01 that the code shares: row sizes, table numbers, refusal numbers. They are the C interface's own, and so no
// enum. The meaning has its own (specs/Tables and Rows); the lists at the end hold the two together.
ghost use Rattle.std.specs.Prelude.{◌≡◌, [], ◌∷◌};
ghost use Rattle.meaning.specs.Tables.{Table, number, size};
ghost use Rattle.meaning.specs.Rows.{endianness_size, placed_size, chunk_size};

// Words in a row of each table of a reading.
pub const DECLARATION_WORDS: usize = 17;

pub const FIELD_WORDS: usize = 20;

pub const TAG_WORDS: usize = 12;

pub const CONSTRAINT_WORDS: usize = 12;

pub const COMMENT_WORDS: usize = 7;

// Words of the endianness with its place.
pub const ENDIANNESS_WORDS: usize = 7;

// Words in a row of each table of the aligner.
pub const PLACED_WORDS: usize = 3;

pub const CHUNK_WORDS: usize = 5;

// The numbers of the tables, as refusal 5 names them.
pub const DECLARATIONS: u64 = 1;

pub const FIELDS: u64 = 2;

pub const TAGS: u64 = 3;

pub const CONSTRAINTS: u64 = 4;

pub const COMMENTS: u64 = 5;

// Refusals of a reading, and of a name.
pub const TOO_LONG: u64 = 1;

pub const NOT_UTF8: u64 = 2;

pub const NO_MATCH: u64 = 3;

pub const NOT_CONVERTED: u64 = 4;

pub const TOO_FEW_ROWS: u64 = 5;

pub const NAME_OUTSIDE: u64 = 6;

// Refusals of the aligner, and of feeding it.
pub const BYTES_WHILE_STAGED: u64 = 10;

pub const NOT_WHOLE_BYTES: u64 = 11;

pub const TOO_WIDE: u64 = 12;

pub const TABLE_FULL: u64 = 13;

pub const WIDTH_NOT_IN_SYNTAX: u64 = 14;

pub const NO_SUCH_DECLARATION: u64 = 15;

pub const END_WHILE_STAGED: u64 = 16;

pub const DAMAGED_ROW: u64 = 17;

pub const CONTRADICTORY_STATE: u64 = 18;

// The sizes of rows, table by table, then those of the aligner's tables.
pub fn row_words() -> [usize; 7]
    ensures { result ≡ size Table.declarations ∷ size Table.fields ∷ size Table.tags
        ∷ size Table.constraints ∷ size Table.comments ∷ placed_size ∷ chunk_size ∷ [] }
{
    [
        DECLARATION_WORDS,
        FIELD_WORDS,
        TAG_WORDS,
        CONSTRAINT_WORDS,
        COMMENT_WORDS,
        PLACED_WORDS,
        CHUNK_WORDS,
    ]
}

// The size of the endianness.
pub fn endianness_words() -> usize
    ensures { result ≡ endianness_size }
{
    ENDIANNESS_WORDS
}

// The tables' numbers, in the same order.
pub fn table_numbers() -> [u64; 5]
    ensures { result ≡ number Table.declarations ∷ number Table.fields ∷ number Table.tags ∷ number Table.constraints ∷ number Table.comments ∷ [] }
{
    [DECLARATIONS, FIELDS, TAGS, CONSTRAINTS, COMMENTS]
}

// The refusals' numbers, as 01's table has them.
pub fn refusal_numbers() -> [u64; 15]
    ensures { result ≡ 1 ∷ 2 ∷ 3 ∷ 4 ∷ 5 ∷ 6 ∷ 10 ∷ 11 ∷ 12 ∷ 13 ∷ 14 ∷ 15 ∷ 16 ∷ 17 ∷ 18 ∷ [] }
{
    [
        TOO_LONG,
        NOT_UTF8,
        NO_MATCH,
        NOT_CONVERTED,
        TOO_FEW_ROWS,
        NAME_OUTSIDE,
        BYTES_WHILE_STAGED,
        NOT_WHOLE_BYTES,
        TOO_WIDE,
        TABLE_FULL,
        WIDTH_NOT_IN_SYNTAX,
        NO_SUCH_DECLARATION,
        END_WHILE_STAGED,
        DAMAGED_ROW,
        CONTRADICTORY_STATE,
    ]
}
