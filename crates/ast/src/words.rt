// The positions of words in a row, by the names that the meaning has for them (specs/Rows). They are the C interface's own, and so
// no fields of a struct. The lists at the end hold the two together.
ghost use Rattle.std.specs.Prelude.{◌≡◌, [], ◌∷◌};
ghost use Rattle.meaning.specs.Rows.{row_kind, start_offset, start_line, start_column, end_offset, end_line, end_column, declaration_id_offset, declaration_id_length, declaration_other_offset, declaration_other_length, declaration_width_flag, declaration_width, declaration_first, declaration_count, declaration_first_constraint, declaration_constraint_count, field_a_offset, field_a_length, field_b_offset, field_b_length, field_c_offset, field_c_length, field_flag_a, field_number_a, field_flag_b, field_number_b, field_first_constraint, field_constraint_count, field_condition, tag_id_offset, tag_id_length, tag_value, tag_range_end, tag_inner, constraint_id_offset, constraint_id_length, constraint_tag_offset, constraint_tag_length, constraint_value, placed_symbol, placed_width, placed_offset, chunk_kind, chunk_first, chunk_count, chunk_width, chunk_symbol};

// What all rows share: the kind, then where it starts and ends.
pub const ROW_KIND: usize = 0;

pub const START_OFFSET: usize = 1;

pub const START_LINE: usize = 2;

pub const START_COLUMN: usize = 3;

pub const END_OFFSET: usize = 4;

pub const END_LINE: usize = 5;

pub const END_COLUMN: usize = 6;

// A declaration: its id, its parent or function text, its width, its tags or fields, the constraints of its header.
pub const DECLARATION_ID_OFFSET: usize = 7;

pub const DECLARATION_ID_LENGTH: usize = 8;

pub const DECLARATION_OTHER_OFFSET: usize = 9;

pub const DECLARATION_OTHER_LENGTH: usize = 10;

pub const DECLARATION_WIDTH_FLAG: usize = 11;

pub const DECLARATION_WIDTH: usize = 12;

pub const DECLARATION_FIRST: usize = 13;

pub const DECLARATION_COUNT: usize = 14;

pub const DECLARATION_FIRST_CONSTRAINT: usize = 15;

pub const DECLARATION_CONSTRAINT_COUNT: usize = 16;

// A field: three names, two numbers, a group's constraints, its condition.
pub const FIELD_A_OFFSET: usize = 7;

pub const FIELD_A_LENGTH: usize = 8;

pub const FIELD_B_OFFSET: usize = 9;

pub const FIELD_B_LENGTH: usize = 10;

pub const FIELD_C_OFFSET: usize = 11;

pub const FIELD_C_LENGTH: usize = 12;

pub const FIELD_FLAG_A: usize = 13;

pub const FIELD_NUMBER_A: usize = 14;

pub const FIELD_FLAG_B: usize = 15;

pub const FIELD_NUMBER_B: usize = 16;

pub const FIELD_FIRST_CONSTRAINT: usize = 17;

pub const FIELD_CONSTRAINT_COUNT: usize = 18;

pub const FIELD_CONDITION: usize = 19;

// A tag: its id, its value or the two ends of its range, how many tags are inside it.
pub const TAG_ID_OFFSET: usize = 7;

pub const TAG_ID_LENGTH: usize = 8;

pub const TAG_VALUE: usize = 9;

pub const TAG_RANGE_END: usize = 10;

pub const TAG_INNER: usize = 11;

// A constraint: its id, the name of its tag, its value.
pub const CONSTRAINT_ID_OFFSET: usize = 7;

pub const CONSTRAINT_ID_LENGTH: usize = 8;

pub const CONSTRAINT_TAG_OFFSET: usize = 9;

pub const CONSTRAINT_TAG_LENGTH: usize = 10;

pub const CONSTRAINT_VALUE: usize = 11;

// A row of the aligner's placed fields.
pub const PLACED_SYMBOL: usize = 0;

pub const PLACED_WIDTH: usize = 1;

pub const PLACED_OFFSET: usize = 2;

// A row of its chunks.
pub const CHUNK_KIND: usize = 0;

pub const CHUNK_FIRST: usize = 1;

pub const CHUNK_COUNT: usize = 2;

pub const CHUNK_WIDTH: usize = 3;

pub const CHUNK_SYMBOL: usize = 4;

// The positions of the words that all rows share.
pub fn shared_positions() -> [usize; 7]
    ensures { result ≡ row_kind ∷ start_offset ∷ start_line ∷ start_column ∷ end_offset ∷ end_line ∷ end_column ∷ [] }
{
    [
        ROW_KIND,
        START_OFFSET,
        START_LINE,
        START_COLUMN,
        END_OFFSET,
        END_LINE,
        END_COLUMN,
    ]
}

// Those of a declaration's own words.
pub fn declaration_positions() -> [usize; 10]
    ensures { result ≡ declaration_id_offset ∷ declaration_id_length ∷ declaration_other_offset ∷ declaration_other_length
        ∷ declaration_width_flag ∷ declaration_width ∷ declaration_first ∷ declaration_count
        ∷ declaration_first_constraint ∷ declaration_constraint_count ∷ [] }
{
    [
        DECLARATION_ID_OFFSET,
        DECLARATION_ID_LENGTH,
        DECLARATION_OTHER_OFFSET,
        DECLARATION_OTHER_LENGTH,
        DECLARATION_WIDTH_FLAG,
        DECLARATION_WIDTH,
        DECLARATION_FIRST,
        DECLARATION_COUNT,
        DECLARATION_FIRST_CONSTRAINT,
        DECLARATION_CONSTRAINT_COUNT,
    ]
}

// Those of a field's.
pub fn field_positions() -> [usize; 13]
    ensures { result ≡ field_a_offset ∷ field_a_length ∷ field_b_offset ∷ field_b_length ∷ field_c_offset ∷ field_c_length
        ∷ field_flag_a ∷ field_number_a ∷ field_flag_b ∷ field_number_b ∷ field_first_constraint ∷ field_constraint_count ∷ field_condition ∷ [] }
{
    [
        FIELD_A_OFFSET,
        FIELD_A_LENGTH,
        FIELD_B_OFFSET,
        FIELD_B_LENGTH,
        FIELD_C_OFFSET,
        FIELD_C_LENGTH,
        FIELD_FLAG_A,
        FIELD_NUMBER_A,
        FIELD_FLAG_B,
        FIELD_NUMBER_B,
        FIELD_FIRST_CONSTRAINT,
        FIELD_CONSTRAINT_COUNT,
        FIELD_CONDITION,
    ]
}

// Those of a tag's.
pub fn tag_positions() -> [usize; 5]
    ensures { result ≡ tag_id_offset ∷ tag_id_length ∷ tag_value ∷ tag_range_end ∷ tag_inner ∷ [] }
{
    [
        TAG_ID_OFFSET,
        TAG_ID_LENGTH,
        TAG_VALUE,
        TAG_RANGE_END,
        TAG_INNER,
    ]
}

// Those of a constraint's.
pub fn constraint_positions() -> [usize; 5]
    ensures { result ≡ constraint_id_offset ∷ constraint_id_length ∷ constraint_tag_offset ∷ constraint_tag_length ∷ constraint_value ∷ [] }
{
    [
        CONSTRAINT_ID_OFFSET,
        CONSTRAINT_ID_LENGTH,
        CONSTRAINT_TAG_OFFSET,
        CONSTRAINT_TAG_LENGTH,
        CONSTRAINT_VALUE,
    ]
}

// Those of a placed row's words.
pub fn placed_positions() -> [usize; 3]
    ensures { result ≡ placed_symbol ∷ placed_width ∷ placed_offset ∷ [] }
{
    [PLACED_SYMBOL, PLACED_WIDTH, PLACED_OFFSET]
}

// Those of a chunk row's.
pub fn chunk_positions() -> [usize; 5]
    ensures { result ≡ chunk_kind ∷ chunk_first ∷ chunk_count ∷ chunk_width ∷ chunk_symbol ∷ [] }
{
    [
        CHUNK_KIND,
        CHUNK_FIRST,
        CHUNK_COUNT,
        CHUNK_WIDTH,
        CHUNK_SYMBOL,
    ]
}
