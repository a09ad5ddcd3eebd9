// Fields: a field's description with its condition, and lists of fields.
#![tactic(auto)]

pub mod kinds;
pub mod named;
pub mod parts;

ghost use Rattle.meaning.specs.Pdl.{◌∣◌, field_desc, field, field_list};
ghost use Rattle.grammar.specs.Matching.{Within, Reads, Steps};
ghost use Rattle.spans.specs.Answers.{Described, Fielded};
ghost use Rattle.fields.specs.Kinds.{word_fields, field_of, EarlierMark, OrDesc};
ghost use Rattle.fields.specs.Words.{OnlyKind, Sole};

use crate::kinds::{
    body_field, checksum_field, count_field, elementsize_field, fixed_field, padding_field,
    payload_field, reserved_field, size_field,
};
use crate::named::named_field;
use constraints::then_constraint;
use grammar::{joined, optional, then};
use lexis::blanks::{then_blanks, then_last_comma};
use lexis::lists::then_list;
use lexis::texts::then_literal;
use meaning::Match;
use spans::{Field, FieldDesc, Matched, kept};

// The rules of a description that start with a word in underscores, in the order of the choice.
#[derive(Clone, Copy)]
pub enum WordKind {
    Checksum,
    Padding,
    Size,
    Count,
    ElementSize,
    Body,
    Payload,
    Fixed,
    Reserved,
}

// A description by its rule. A kind is a value and no closure, since `sole_kind` answers one.
fn of_kind(s: &[u8], kind: WordKind) -> Matched<FieldDesc>
    ensures { Described (field_of kind) s.now result }
{
    match kind {
        WordKind::Checksum => checksum_field(s),
        WordKind::Padding => padding_field(s),
        WordKind::Size => size_field(s),
        WordKind::Count => count_field(s),
        WordKind::ElementSize => elementsize_field(s),
        WordKind::Body => body_field(s),
        WordKind::Payload => payload_field(s),
        WordKind::Fixed => fixed_field(s),
        WordKind::Reserved => reserved_field(s),
    }
}

// d, with the mark of what was tried before it.
fn marked(s: &[u8], f: usize, d: Matched<FieldDesc>) -> Matched<FieldDesc>
    requires { Within d.at s.now }
    ensures { EarlierMark f d result }
{
    Matched {
        at: joined(s, 0, f, d.at),
        value: d.value,
    }
}

// d, or, where it missed, the rule tried with the mark of d.
fn or_kind(s: &[u8], d: Matched<FieldDesc>, kind: WordKind) -> Matched<FieldDesc>
    ensures { OrDesc d (λ a. a ∣ field_of kind) s.now result }
{
    match d.at {
        Match::Took(_, _) => d,
        Match::Missed(f) => marked(s, f, of_kind(s, kind)),
    }
}

// The nine kinds that start with a word in underscores.
fn word_kind(s: &[u8]) -> Matched<FieldDesc>
    ensures { Described word_fields s.now result }
{
    let d = of_kind(s, WordKind::Checksum);
    let d = or_kind(s, d, WordKind::Padding);
    let d = or_kind(s, d, WordKind::Size);
    let d = or_kind(s, d, WordKind::Count);
    let d = or_kind(s, d, WordKind::ElementSize);
    let d = or_kind(s, d, WordKind::Body);
    let d = or_kind(s, d, WordKind::Payload);
    let d = or_kind(s, d, WordKind::Fixed);
    or_kind(s, d, WordKind::Reserved)
}

// A kind where the kinds before it, which cannot stand here, leave their mark.
fn only_kind(s: &[u8], kind: WordKind) -> Matched<FieldDesc>
    ensures { OnlyKind kind s.now result }
{
    marked(s, 1, of_kind(s, kind))
}

// The kind that alone can stand here, where the first letters tell one of the frequent ones.
fn sole_kind(s: &[u8]) -> Option<WordKind>
    ensures { Sole s.now result }
{
    if s.starts_with(b"_s") {
        return Some(WordKind::Size);
    }
    if s.starts_with(b"_r") {
        return Some(WordKind::Reserved);
    }
    if s.starts_with(b"_pay") {
        return Some(WordKind::Payload);
    }
    if s.starts_with(b"_co") {
        return Some(WordKind::Count);
    }
    if s.starts_with(b"_b") {
        return Some(WordKind::Body);
    }
    if s.starts_with(b"_f") {
        return Some(WordKind::Fixed);
    }
    None
}

// The nine kinds again, where the first letters may tell at once that it is none of them, or which alone it can be.
fn word_field(s: &[u8]) -> Matched<FieldDesc>
    ensures { Described word_fields s.now result }
{
    if !s.starts_with(b"_") {
        return Matched {
            at: Match::Missed(1),
            value: FieldDesc::Body,
        };
    }
    match sole_kind(s) {
        Some(kind) => only_kind(s, kind),
        None => word_kind(s),
    }
}

// A field's description.
pub fn field_desc(s: &[u8]) -> Matched<FieldDesc>
    ensures { Described field_desc s.now result }
{
    let words = word_field(s);
    match words.at {
        Match::Took(_, _) => words,
        Match::Missed(f) => marked(s, f, named_field(s)),
    }
}

// A field: its description, and its condition if there is one. Without one it ends after the blanks behind it.
pub fn field(s: &[u8]) -> Matched<Field>
    ensures { Fielded s.now result }
{
    let desc = field_desc(s);
    let b = then_blanks(s, desc.at);
    let word = then_literal(s, b, b"if");
    if let Match::Missed(_) = word {
        return Matched {
            at: optional(s, b, word),
            value: Field {
                desc,
                condition: None,
            },
        };
    }
    let c = then_constraint(s, then_blanks(s, word));
    Matched {
        at: optional(s, b, c.at),
        value: Field {
            desc,
            condition: kept(c.at, Some(c.value), None),
        },
    }
}

// A field, where m ends, by a closure with clauses of its own.
pub fn then_field(s: &[u8], m: Match) -> Match
    requires { Within m s.now }
    ensures { Steps m field s.now result }
{
    let matcher = |rest: &[u8]|
        ensures { Reads field rest.now result }
    { field(rest).at };
    then(s, m, matcher)
}

// A list of fields, which may have a last comma, where m ends.
pub fn then_field_list(s: &[u8], m: Match) -> Match
    requires { Within m s.now }
    ensures { Steps m field_list s.now result }
{
    then_last_comma(s, then_list(s, m, then_field))
}

// A list of fields at the front.
pub fn field_list(s: &[u8]) -> Match
    ensures { Reads field_list s.now result }
{
    then_field_list(s, Match::Took(0, 0))
}
