// Rows from names and words, word by word, in the document's order, in which the parameters stand too. A row's two places come as
// two: the walk is first at one and then at the other. Its kind and its numbers come as words, which may be any: the callers make them
// of kinds and of integers.
ghost use Rattle.std.specs.Prelude.{◌≡◌};
ghost use Rattle.meaning.specs.Rows.{place_words, tag_words, constraint_words, field_words, declaration_words};
ghost use Rattle.meaning.specs.Tables.{first_of};
ghost use Rattle.walk.specs.Terms.{name_words, pair_words, words_of_number, words_of_description};

use crate::{Described, Name, Number};
use ast::numbers;
use meaning::SourceLocation;

// The two words that a row has of an integer that may be absent: whether it is there, and what it says.
#[derive(Clone, Copy)]
pub struct NumberWords {
    pub found: u64,
    pub value: u64,
}

impl From<Option<Number>> for NumberWords {
    ghost from_gives = { λ x w. w ≡ words_of_number x };

    // An integer that is absent, or does not convert, says 0.
    #[inline]
    fn from(x: Option<Number>) -> NumberWords {
        match x {
            None => NumberWords { found: 0, value: 0 },
            Some(x) => NumberWords {
                found: 1,
                value: text::value_of(x.value),
            },
        }
    }
}

// The words of a field's row that its description settles.
#[derive(Clone, Copy)]
pub struct FieldWords {
    pub kind: u64,
    pub a: Name,
    pub b: Name,
    pub c: Name,
    pub na: NumberWords,
    pub nb: NumberWords,
}

impl From<Described> for FieldWords {
    ghost from_gives = { λ d w. w ≡ words_of_description d };

    // The words of a description.
    #[inline]
    fn from(d: Described) -> FieldWords {
        FieldWords {
            kind: d.kind as u64,
            a: d.a,
            b: d.b,
            c: d.c,
            na: NumberWords::from(d.na),
            nb: NumberWords::from(d.nb),
        }
    }
}

// A tag's row.
#[inline]
pub fn tag_row(
    kind: u64,
    p: SourceLocation,
    q: SourceLocation,
    id: Name,
    v: u64,
    e: u64,
    inner: usize,
) -> [u64; numbers::TAG_WORDS]
    ensures { result ≡ tag_words kind (place_words p q) (name_words id) v e inner }
{
    [
        kind,
        p.offset as u64,
        p.line as u64,
        p.column as u64,
        q.offset as u64,
        q.line as u64,
        q.column as u64,
        id.offset as u64,
        id.len as u64,
        v,
        e,
        inner as u64,
    ]
}

// A constraint's row.
#[inline]
pub fn constraint_row(
    kind: u64,
    p: SourceLocation,
    q: SourceLocation,
    id: Name,
    tag: Name,
    v: u64,
) -> [u64; numbers::CONSTRAINT_WORDS]
    ensures { result ≡ constraint_words kind (place_words p q) (name_words id) (name_words tag) v }
{
    [
        kind,
        p.offset as u64,
        p.line as u64,
        p.column as u64,
        q.offset as u64,
        q.line as u64,
        q.column as u64,
        id.offset as u64,
        id.len as u64,
        tag.offset as u64,
        tag.len as u64,
        v,
    ]
}

// A field's row.
#[inline]
pub fn field_row(
    d: FieldWords,
    p: SourceLocation,
    q: SourceLocation,
    first: usize,
    count: usize,
    cond: usize,
) -> [u64; numbers::FIELD_WORDS]
    ensures { result ≡ field_words d.kind (place_words p q) (name_words d.a) (name_words d.b) (name_words d.c)
        (pair_words d.na) (pair_words d.nb) first count cond }
{
    [
        d.kind,
        p.offset as u64,
        p.line as u64,
        p.column as u64,
        q.offset as u64,
        q.line as u64,
        q.column as u64,
        d.a.offset as u64,
        d.a.len as u64,
        d.b.offset as u64,
        d.b.len as u64,
        d.c.offset as u64,
        d.c.len as u64,
        d.na.found,
        d.na.value,
        d.nb.found,
        d.nb.value,
        first as u64,
        count as u64,
        cond as u64,
    ]
}

// A declaration's row.
#[inline]
pub fn declaration_row(
    kind: u64,
    p: SourceLocation,
    q: SourceLocation,
    id: Name,
    other: Name,
    width: NumberWords,
    first: usize,
    count: usize,
    list: usize,
    listed: usize,
) -> [u64; numbers::DECLARATION_WORDS]
    ensures { result ≡ declaration_words kind (place_words p q) (name_words id) (name_words other) (pair_words width)
        first count list listed }
{
    [
        kind,
        p.offset as u64,
        p.line as u64,
        p.column as u64,
        q.offset as u64,
        q.line as u64,
        q.column as u64,
        id.offset as u64,
        id.len as u64,
        other.offset as u64,
        other.len as u64,
        width.found,
        width.value,
        first as u64,
        count as u64,
        list as u64,
        listed as u64,
    ]
}

// The first row of some; of none it is 0, as a row has it.
pub fn first_of(first: usize, count: usize) -> usize
    ensures { result ≡ first_of first count }
{
    if count == 0 {
        return 0;
    }
    first
}
