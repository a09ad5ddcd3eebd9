// Terms: the names and numbers that a part of a match stands for, and the kind of a constraint. Each sort of part has a function of
// its own, which is a match on the sort's cases. What each asks, that the part lies inside the text, is no type: a span has no text.
ghost use Rattle.std.specs.Prelude.{Some, ◌≡◌, ◌+◌, ◌-◌, ◌^◌, ◌≤◌, ◌<◌, length};
ghost use Rattle.walk.specs.Terms.{number_at, span_number, operand_number, size_number, part_number, no_name, span_name, operand_name, size_name, part_name, target_name, unquoted_name, other_name, Inside, InsideOperand, InsideSize, InsidePart, InsideTarget, constraint_kind};

use crate::kinds::ConstraintKind;
use crate::{Name, Number};
use spans::{ArraySize, Operand, Span, Target};

// The integer of len bytes at `at`.
#[tactic(auto, using(crate::proofs::Laws::part_is), unfolding(crate::specs::Terms::number_at))]
pub fn integer_at(s: &[u8], at: usize, len: usize) -> Number
    requires { at + len ≤ length s.now }
    ensures { result ≡ number_at s.now at len }
{
    let end = at + len;
    Number {
        place: at,
        value: text::convert(&s[at..end]),
    }
}

// The integer that a span of the text at `at` is.
pub fn span_number(s: &[u8], at: usize, x: Span) -> Number
    requires { (at ≤ length s.now) × Inside (length s.now - at) x }
    ensures { Some result ≡ span_number s.now at x }
{
    integer_at(s, at + x.start, x.len)
}

// The integer that an operand is, if it is one.
pub fn operand_number(s: &[u8], at: usize, v: Operand) -> Option<Number>
    requires { (at ≤ length s.now) × InsideOperand (length s.now - at) v }
    ensures { result ≡ operand_number s.now at v }
{
    match v {
        Operand::Identifier(_) => None,
        Operand::Integer(x) => Some(span_number(s, at, x)),
    }
}

// The integer that an array's size is, if it is one.
pub fn size_number(s: &[u8], at: usize, v: ArraySize) -> Option<Number>
    requires { (at ≤ length s.now) × InsideSize (length s.now - at) v }
    ensures { result ≡ size_number s.now at v }
{
    match v {
        ArraySize::Unknown | ArraySize::Modifier(_) => None,
        ArraySize::Known(x) => Some(span_number(s, at, x)),
    }
}

// The integer of a part that may be absent.
pub fn part_number(s: &[u8], at: usize, v: Option<Span>) -> Option<Number>
    requires { (at ≤ length s.now) × InsidePart (length s.now - at) v }
    ensures { result ≡ part_number s.now at v }
{
    match v {
        None => None,
        Some(x) => Some(span_number(s, at, x)),
    }
}

// The name that a span of the text at `at` is.
pub fn span_name(at: usize, x: Span) -> Name
    requires { at + x.start < 2 ^ 64 }
    ensures { result ≡ span_name at x }
{
    Name {
        offset: at + x.start,
        len: x.len,
    }
}

// No name: 0 and 0, as the row has it, so that an Option would be opened at once.
pub fn no_name() -> Name
    ensures { result ≡ no_name }
{
    Name { offset: 0, len: 0 }
}

// The name that an operand is, if it is one, in a text of n bytes at `at`.
pub fn operand_name(at: usize, n: usize, v: Operand) -> Name
    requires { (at + n < 2 ^ 64) × InsideOperand n v }
    ensures { result ≡ operand_name at v }
{
    match v {
        Operand::Identifier(x) => span_name(at, x),
        Operand::Integer(_) => no_name(),
    }
}

// The name of an array's size that is a modifier.
pub fn size_name(at: usize, n: usize, v: ArraySize) -> Name
    requires { (at + n < 2 ^ 64) × InsideSize n v }
    ensures { result ≡ size_name at v }
{
    match v {
        ArraySize::Modifier(x) => span_name(at, x),
        ArraySize::Unknown | ArraySize::Known(_) => no_name(),
    }
}

// The name of a part that may be absent.
pub fn part_name(at: usize, n: usize, v: Option<Span>) -> Name
    requires { (at + n < 2 ^ 64) × InsidePart n v }
    ensures { result ≡ part_name at v }
{
    match v {
        None => no_name(),
        Some(x) => span_name(at, x),
    }
}

// The name of what `_size_` is of.
pub fn target_name(at: usize, n: usize, v: Target) -> Name
    requires { (at + n < 2 ^ 64) × InsideTarget n v }
    ensures { result ≡ target_name at v }
{
    match v {
        Target::OfField(x) | Target::OfPayload(x) | Target::OfBody(x) => span_name(at, x),
    }
}

// The name that a quoted text is, without its quotes.
fn unquoted_name(at: usize, x: Span) -> Name
    requires { at + x.start + 1 < 2 ^ 64 }
    ensures { result ≡ unquoted_name at x }
{
    let offset = at + x.start + 1;
    if x.len < 2 {
        return Name { offset, len: 0 };
    }
    Name {
        offset,
        len: x.len - 2,
    }
}

// The name of a declaration beside its id: its function's text, or else its parent.
pub fn other_name(at: usize, n: usize, parent: Option<Span>, function: Option<Span>) -> Name
    requires { (at + n + 1 < 2 ^ 64) × (InsidePart n parent × InsidePart n function) }
    ensures { result ≡ other_name at parent function }
{
    match function {
        None => part_name(at, n, parent),
        Some(x) => unquoted_name(at, x),
    }
}

// The kind of a constraint, by its value.
pub fn constraint_kind(value: Operand) -> ConstraintKind
    ensures { result ≡ constraint_kind value }
{
    match value {
        Operand::Identifier(_) => ConstraintKind::Tag,
        Operand::Integer(_) => ConstraintKind::Integer,
    }
}
