// The thirteen kinds of a field's description, each by its rule.
ghost use Rattle.meaning.specs.Pdl.{checksum_field, padding_field, size_field, count_field, elementsize_field, body_field, payload_field, fixed_field, reserved_field, array_field, scalar_field, typedef_field, group_field};
ghost use Rattle.spans.specs.Answers.{Described};
ghost use Rattle.fields.specs.Kinds.{Description};

use crate::parts::{
    counted, next_byte, next_number, then_braces, then_brackets, then_element, then_labelled,
    then_names, then_numbers, then_target,
};
use grammar::optional;
use lexis::blanks::then_blanks;
use lexis::texts::{literal, then_literal};
use lexis::tokens::{then_identifier, then_size_modifier};
use meaning::Match;
use spans::{FieldDesc, Matched, between, kept};

// A description, where its match took; else that of a body. What a miss answers is named here, once for every kind.
pub fn described(at: Match, desc: FieldDesc) -> Matched<FieldDesc>
    ensures { Description at desc result }
{
    Matched {
        at,
        value: kept(at, desc, FieldDesc::Body),
    }
}

// `_checksum_start_(id)`
pub fn checksum_field(s: &[u8]) -> Matched<FieldDesc>
    ensures { Described checksum_field s.now result }
{
    let id = then_labelled(s, Match::Took(0, 0), b"_checksum_start_");
    described(id.at, FieldDesc::Checksum(id.value))
}

// `_padding_[size]`
pub fn padding_field(s: &[u8]) -> Matched<FieldDesc>
    ensures { Described padding_field s.now result }
{
    let size = next_number(s, next_byte(s, literal(s, b"_padding_"), b'['));
    described(next_byte(s, size.at, b']'), FieldDesc::Padding(size.value))
}

// `_size_(id): width`, where the id may be the payload or the body
pub fn size_field(s: &[u8]) -> Matched<FieldDesc>
    ensures { Described size_field s.now result }
{
    let b = then_blanks(s, next_byte(s, literal(s, b"_size_"), b'('));
    let id = then_target(s, b);
    let width = next_number(s, next_byte(s, next_byte(s, id.at, b')'), b':'));
    described(width.at, FieldDesc::Size(id.value, width.value))
}

// `_count_(id): width`
pub fn count_field(s: &[u8]) -> Matched<FieldDesc>
    ensures { Described count_field s.now result }
{
    let p = counted(s, b"_count_");
    described(p.at, FieldDesc::Count(p.value.first, p.value.second))
}

// `_elementsize_(id): width`. It differs from a count in a word and a case; what they share is `counted`.
pub fn elementsize_field(s: &[u8]) -> Matched<FieldDesc>
    ensures { Described elementsize_field s.now result }
{
    let p = counted(s, b"_elementsize_");
    described(p.at, FieldDesc::ElementSize(p.value.first, p.value.second))
}

// `_body_`
pub fn body_field(s: &[u8]) -> Matched<FieldDesc>
    ensures { Described body_field s.now result }
{
    Matched {
        at: literal(s, b"_body_"),
        value: FieldDesc::Body,
    }
}

// `_payload_`, or `_payload_: [+n]`
pub fn payload_field(s: &[u8]) -> Matched<FieldDesc>
    ensures { Described payload_field s.now result }
{
    let b = then_blanks(s, literal(s, b"_payload_"));
    let c = then_blanks(s, next_byte(s, then_literal(s, b, b":"), b'['));
    let d = then_size_modifier(s, c);
    let x = next_byte(s, d, b']');
    let at = optional(s, b, x);
    let modifier = kept(x, Some(between(c, d)), None);
    described(at, FieldDesc::Payload(modifier))
}

// `_fixed_ = value: width`, or `_fixed_ = tag: enum`. Each alternative has two tokens, so neither is a part of one (`or_part`).
pub fn fixed_field(s: &[u8]) -> Matched<FieldDesc>
    ensures { Described fixed_field s.now result }
{
    let b = then_blanks(s, next_byte(s, literal(s, b"_fixed_"), b'='));
    let x = then_numbers(s, b);
    if let Match::Took(_, _) = x.at {
        return Matched {
            at: x.at,
            value: FieldDesc::FixedScalar(x.value.first, x.value.second),
        };
    }
    let y = then_names(s, optional(s, b, x.at));
    described(y.at, FieldDesc::FixedEnum(y.value.first, y.value.second))
}

// `_reserved_: width`
pub fn reserved_field(s: &[u8]) -> Matched<FieldDesc>
    ensures { Described reserved_field s.now result }
{
    let width = next_number(s, next_byte(s, literal(s, b"_reserved_"), b':'));
    described(width.at, FieldDesc::Reserved(width.value))
}

// `id: width[size]`, or `id: type[size]`; the size may be a modifier, or missing
pub fn array_field(s: &[u8]) -> Matched<FieldDesc>
    ensures { Described array_field s.now result }
{
    let start = Match::Took(0, 0);
    let a = then_identifier(s, start);
    let b = then_blanks(s, next_byte(s, a, b':'));
    let kind = then_element(s, b);
    let size = then_brackets(s, kind.at);
    let id = between(start, a);
    described(size.at, FieldDesc::Array(id, kind.value, size.value))
}

// `id: width`
pub fn scalar_field(s: &[u8]) -> Matched<FieldDesc>
    ensures { Described scalar_field s.now result }
{
    let start = Match::Took(0, 0);
    let a = then_identifier(s, start);
    let width = next_number(s, next_byte(s, a, b':'));
    described(width.at, FieldDesc::Scalar(between(start, a), width.value))
}

// `id: type`
pub fn typedef_field(s: &[u8]) -> Matched<FieldDesc>
    ensures { Described typedef_field s.now result }
{
    let p = then_names(s, Match::Took(0, 0));
    described(p.at, FieldDesc::Typedef(p.value.first, p.value.second))
}

// `id`, or `id {constraints}`, where the list may be missing
pub fn group_field(s: &[u8]) -> Matched<FieldDesc>
    ensures { Described group_field s.now result }
{
    let start = Match::Took(0, 0);
    let a = then_identifier(s, start);
    let braces = then_braces(s, a);
    described(braces.at, FieldDesc::Group(between(start, a), braces.value))
}
