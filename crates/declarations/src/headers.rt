// The heads of declarations: each rule up to its first list of tags or fields, or to its end where it has none, with all that
// the row of a declaration needs.
ghost use Rattle.meaning.specs.Rules.{Rule};
ghost use Rattle.grammar.specs.Matching.{Within};
ghost use Rattle.spans.specs.Answers.{Headed};
ghost use Rattle.declarations.specs.Headers.{enum_head, packet_head, struct_head, group_head, checksum_head, custom_head, Kept, Heads};

use constraints::then_constraint_list;
use grammar::optional;
use lexis::blanks::{next_literal, then_blanks};
use lexis::texts::then_literal;
use lexis::tokens::{keyword, then_identifier, then_integer, then_string};
use meaning::Match;
use spans::{Header, Matched, NO_HEADER, between, kept};

// A head with its match, where that took; else the head of no declaration, which is named here once for every head.
fn headed(at: Match, head: Header) -> Matched<Header>
    ensures { Kept at head result }
{
    Matched {
        at,
        value: kept(at, head, NO_HEADER),
    }
}

// `enum`, the id, the width, and the brace.
pub fn enum_head(s: &[u8]) -> Matched<Header>
    ensures { Headed Rule.ENUM enum_head s.now result }
{
    let start = Match::Took(0, 0);
    let k = keyword(s, b"enum");
    let a = then_blanks(s, k);
    let id = then_identifier(s, a);
    let b = then_blanks(s, next_literal(s, id, b":"));
    let width = then_integer(s, b);
    let head = Header {
        keyword: between(start, k),
        id: between(a, id),
        width: Some(between(b, width)),
        ..NO_HEADER
    };
    headed(next_literal(s, width, b"{"), head)
}

// What follows the keyword k of a packet or a struct: the id, perhaps a parent, perhaps constraints, and the brace.
fn parent_head(s: &[u8], k: Match) -> Matched<Header>
    requires { Within k s.now }
    ensures { Heads k s.now result }
{
    let start = Match::Took(0, 0);
    let a = then_blanks(s, k);
    let id = then_identifier(s, a);
    let b = then_blanks(s, id);
    let c = then_blanks(s, then_literal(s, b, b":"));
    let parent = then_identifier(s, c);
    let d = then_blanks(s, optional(s, b, parent));
    let e = then_blanks(s, then_literal(s, d, b"("));
    let list = then_constraint_list(s, e);
    let closed = next_literal(s, list, b")");
    let head = Header {
        keyword: between(start, k),
        id: between(a, id),
        parent: kept(parent, Some(between(c, parent)), None),
        constraints: kept(closed, Some(between(e, list)), None),
        ..NO_HEADER
    };
    headed(next_literal(s, optional(s, d, closed), b"{"), head)
}

// The head of a packet.
pub fn packet_head(s: &[u8]) -> Matched<Header>
    ensures { Headed Rule.PACKET packet_head s.now result }
{
    parent_head(s, keyword(s, b"packet"))
}

// The head of a struct: what it shares with a packet is `parent_head`.
pub fn struct_head(s: &[u8]) -> Matched<Header>
    ensures { Headed Rule.STRUCT struct_head s.now result }
{
    parent_head(s, keyword(s, b"struct"))
}

// `group`, the id, and the brace.
pub fn group_head(s: &[u8]) -> Matched<Header>
    ensures { Headed Rule.GROUP group_head s.now result }
{
    let start = Match::Took(0, 0);
    let k = keyword(s, b"group");
    let a = then_blanks(s, k);
    let id = then_identifier(s, a);
    let head = Header {
        keyword: between(start, k),
        id: between(a, id),
        ..NO_HEADER
    };
    headed(next_literal(s, id, b"{"), head)
}

// `checksum`, the id, the width, and the function: the whole of the rule.
pub fn checksum_head(s: &[u8]) -> Matched<Header>
    ensures { Headed Rule.CHECKSUM checksum_head s.now result }
{
    let start = Match::Took(0, 0);
    let k = keyword(s, b"checksum");
    let a = then_blanks(s, k);
    let id = then_identifier(s, a);
    let b = then_blanks(s, next_literal(s, id, b":"));
    let width = then_integer(s, b);
    let c = then_blanks(s, width);
    let at = then_string(s, c);
    let head = Header {
        keyword: between(start, k),
        id: between(a, id),
        width: Some(between(b, width)),
        function: Some(between(c, at)),
        ..NO_HEADER
    };
    headed(at, head)
}

// `custom_field`, the id, perhaps a width, and the function: the whole of the rule.
pub fn custom_field_head(s: &[u8]) -> Matched<Header>
    ensures { Headed Rule.CUSTOM_FIELD custom_head s.now result }
{
    let start = Match::Took(0, 0);
    let k = keyword(s, b"custom_field");
    let a = then_blanks(s, k);
    let id = then_identifier(s, a);
    let b = then_blanks(s, id);
    let c = then_blanks(s, then_literal(s, b, b":"));
    let width = then_integer(s, c);
    let d = then_blanks(s, optional(s, b, width));
    let at = then_string(s, d);
    let head = Header {
        keyword: between(start, k),
        id: between(a, id),
        width: kept(width, Some(between(c, width)), None),
        function: Some(between(d, at)),
        ..NO_HEADER
    };
    headed(at, head)
}
