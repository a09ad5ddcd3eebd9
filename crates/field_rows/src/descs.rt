// What a field's description says: its kind, its names a, b, c and its numbers a, b; and the list of a group.
ghost use Rattle.std.specs.Prelude.{None, ◌≡◌, ◌-◌, ◌≤◌, length};
ghost use Rattle.spans.specs.declared.FieldDesc.TheVariants.{Array};
ghost use Rattle.spans.specs.Answers.{desc_list};
ghost use Rattle.walk.specs.Terms.{span_number, no_name, span_name, Inside};
ghost use Rattle.field_rows.specs.DescTerms.{terms, described_as, InsideDesc};

use spans::{ArraySize, FieldDesc, Operand, Span};
use walk::kinds::FieldKind;
use walk::terms::{
    no_name, operand_name, operand_number, part_name, size_name, size_number, span_name,
    span_number, target_name,
};
use walk::{Described, Name, Number};

// Names alone.
fn named(kind: FieldKind, a: Name, b: Name, c: Name) -> Described
    ensures { result ≡ terms kind a b c None None }
{
    Described {
        kind,
        a,
        b,
        c,
        na: None,
        nb: None,
    }
}

// A name, if there is one, and numbers.
fn sized(kind: FieldKind, a: Name, na: Option<Number>, nb: Option<Number>) -> Described
    ensures { result ≡ terms kind a no_name no_name na nb }
{
    Described {
        kind,
        a,
        b: no_name(),
        c: no_name(),
        na,
        nb,
    }
}

// A name and its number, whose spans are counted from `at`.
fn measured(s: &[u8], at: usize, kind: FieldKind, id: Span, width: Span) -> Described
    requires { (at ≤ length s.now) × (Inside (length s.now - at) id × Inside (length s.now - at) width) }
    ensures { result ≡ terms kind (span_name at id) no_name no_name (span_number s.now at width) None }
{
    sized(
        kind,
        span_name(at, id),
        Some(span_number(s, at, width)),
        None,
    )
}

// An array: its element is a name or a number, and so is its size, if it has one.
fn array(s: &[u8], at: usize, id: Span, element: Operand, size: ArraySize) -> Described
    requires { (at ≤ length s.now) × InsideDesc (length s.now - at) (Array id element size) }
    ensures { result ≡ described_as s.now at (Array id element size) }
{
    let n = s.len() - at;
    Described {
        kind: FieldKind::Array,
        a: span_name(at, id),
        b: operand_name(at, n, element),
        c: size_name(at, n, size),
        na: operand_number(s, at, element),
        nb: size_number(s, at, size),
    }
}

// What a description says, by its kind; its spans are counted from `at`.
pub fn describe(s: &[u8], at: usize, desc: FieldDesc) -> Described
    requires { (at ≤ length s.now) × InsideDesc (length s.now - at) desc }
    ensures { result ≡ described_as s.now at desc }
{
    let n = s.len() - at;
    let no = no_name();
    match desc {
        FieldDesc::Checksum(id) => named(FieldKind::Checksum, span_name(at, id), no, no),
        FieldDesc::Padding(size) => sized(
            FieldKind::Padding,
            no,
            Some(span_number(s, at, size)),
            None,
        ),
        FieldDesc::Size(id, width) => sized(
            FieldKind::Size,
            target_name(at, n, id),
            Some(span_number(s, at, width)),
            None,
        ),
        FieldDesc::Count(id, width) => measured(s, at, FieldKind::Count, id, width),
        FieldDesc::ElementSize(id, width) => measured(s, at, FieldKind::ElementSize, id, width),
        FieldDesc::Body => named(FieldKind::Body, no, no, no),
        FieldDesc::Payload(modifier) => named(
            FieldKind::Payload,
            no,
            no,
            part_name(at, n, modifier),
        ),
        FieldDesc::FixedScalar(value, width) => sized(
            FieldKind::FixedScalar,
            no,
            Some(span_number(s, at, width)),
            Some(span_number(s, at, value)),
        ),
        FieldDesc::FixedEnum(tag, name) => named(
            FieldKind::FixedEnum,
            span_name(at, name),
            span_name(at, tag),
            no,
        ),
        FieldDesc::Reserved(width) => sized(
            FieldKind::Reserved,
            no,
            Some(span_number(s, at, width)),
            None,
        ),
        FieldDesc::Array(id, element, size) => array(s, at, id, element, size),
        FieldDesc::Scalar(id, width) => measured(s, at, FieldKind::Scalar, id, width),
        FieldDesc::Typedef(id, name) => named(
            FieldKind::Typedef,
            span_name(at, id),
            span_name(at, name),
            no,
        ),
        FieldDesc::Group(id, _) => named(FieldKind::Group, span_name(at, id), no, no),
    }
}

// The constraints of a group; no other description has any.
pub fn group_of(desc: FieldDesc) -> Option<Span>
    ensures { result ≡ desc_list desc }
{
    match desc {
        FieldDesc::Group(_, list) => list,
        _ => None,
    }
}
