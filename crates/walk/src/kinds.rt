// The kinds of rows, by the numbers that their rows have. The kinds of declarations stand with the declarations.

// A field: what its description says.
#[derive(Clone, Copy)]
pub enum FieldKind {
    Checksum = 1,
    Padding = 2,
    Size = 3,
    Count = 4,
    ElementSize = 5,
    Body = 6,
    Payload = 7,
    FixedScalar = 8,
    FixedEnum = 9,
    Reserved = 10,
    Array = 11,
    Scalar = 12,
    Typedef = 13,
    Group = 14,
}

// A tag of an enum; a value inside a range has a kind of its own.
#[derive(Clone, Copy)]
pub enum TagKind {
    Value = 1,
    Range = 2,
    Other = 3,
    ValueInRange = 4,
}

// A constraint: what its id is to be.
#[derive(Clone, Copy)]
pub enum ConstraintKind {
    Integer = 1,
    Tag = 2,
}
