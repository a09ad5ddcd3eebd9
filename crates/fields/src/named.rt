// The kinds of a description that start with a name: what they share is matched once.
ghost use Rattle.grammar.specs.Matching.{Within};
ghost use Rattle.spans.specs.Answers.{Described};
ghost use Rattle.fields.specs.Named.{named_fields, OrArray};

use crate::kinds::described;
use crate::parts::{next_byte, then_braces, then_brackets};
use grammar::optional;
use lexis::blanks::then_blanks;
use lexis::tokens::{then_identifier, then_integer};
use meaning::Match;
use spans::{FieldDesc, Matched, Operand, Span, between};

// An array of the element, where brackets follow d, which is the kind without them.
fn or_array(s: &[u8], d: Matched<FieldDesc>, id: Span, element: Operand) -> Matched<FieldDesc>
    requires { Within d.at s.now }
    ensures { OrArray d id element s.now result }
{
    let size = then_brackets(s, d.at);
    if let Match::Took(_, _) = size.at {
        return Matched {
            at: size.at,
            value: FieldDesc::Array(id, element, size.value),
        };
    }
    Matched {
        at: optional(s, d.at, size.at),
        value: d.value,
    }
}

// An array, a scalar, a typedef or a group.
pub fn named_field(s: &[u8]) -> Matched<FieldDesc>
    ensures { Described named_fields s.now result }
{
    let start = Match::Took(0, 0);
    let a = then_identifier(s, start);
    let id = between(start, a);
    let b = then_blanks(s, next_byte(s, a, b':'));
    let width = then_integer(s, b);
    if let Match::Took(_, _) = width {
        let span = between(b, width);
        let scalar = Matched {
            at: width,
            value: FieldDesc::Scalar(id, span),
        };
        return or_array(s, scalar, id, Operand::Integer(span));
    }
    let c = optional(s, b, width);
    let name = then_identifier(s, c);
    if let Match::Took(_, _) = name {
        let span = between(c, name);
        let typedef = Matched {
            at: name,
            value: FieldDesc::Typedef(id, span),
        };
        return or_array(s, typedef, id, Operand::Identifier(span));
    }
    let group = then_braces(s, optional(s, a, name));
    described(group.at, FieldDesc::Group(id, group.value))
}
