// Declarations: the seven kinds, and the choice between them.
#![tactic(auto)]

ghost use Rattle.meaning.specs.Peg.{seq, opt};
ghost use Rattle.meaning.specs.Pdl.{skip, field_list, enum_declaration, packet_declaration, struct_declaration, group_declaration, checksum_declaration, custom_field_declaration, declaration};
ghost use Rattle.grammar.specs.Matching.{Within, Reads, Steps};

use crate::headers::{
    checksum_head, custom_field_head, enum_head, group_head, packet_head, struct_head,
};
use crate::tests::test_declaration;
use fields::then_field_list;
use grammar::{optional, then};
use lexis::blanks::{next_literal, then_blanks};
use meaning::Match;
use tags::then_enum_tag_list;

pub mod files;
pub mod headers;
pub mod tests;

// An enum.
pub fn enum_declaration(s: &[u8]) -> Match
    ensures { Reads enum_declaration s.now result }
{
    next_literal(
        s,
        then_enum_tag_list(s, then_blanks(s, enum_head(s).at)),
        b"}",
    )
}

// The fields of a packet or a struct, which may have none, where m ends.
fn next_fields(s: &[u8], m: Match) -> Match
    requires { Within m s.now }
    ensures { Steps m (seq skip (opt field_list)) s.now result }
{
    let b = then_blanks(s, m);
    optional(s, b, then_field_list(s, b))
}

// A packet.
pub fn packet_declaration(s: &[u8]) -> Match
    ensures { Reads packet_declaration s.now result }
{
    next_literal(s, next_fields(s, packet_head(s).at), b"}")
}

// A struct: it differs from a packet in its head.
pub fn struct_declaration(s: &[u8]) -> Match
    ensures { Reads struct_declaration s.now result }
{
    next_literal(s, next_fields(s, struct_head(s).at), b"}")
}

// A group: it differs from an enum in its head and its list.
pub fn group_declaration(s: &[u8]) -> Match
    ensures { Reads group_declaration s.now result }
{
    next_literal(
        s,
        then_field_list(s, then_blanks(s, group_head(s).at)),
        b"}",
    )
}

// A checksum.
pub fn checksum_declaration(s: &[u8]) -> Match
    ensures { Reads checksum_declaration s.now result }
{
    checksum_head(s).at
}

// A custom field.
pub fn custom_field_declaration(s: &[u8]) -> Match
    ensures { Reads custom_field_declaration s.now result }
{
    custom_field_head(s).at
}

// A declaration, by its first bytes. A kind that cannot stand here would miss at once; the one that can is tried farther, so
// that its mark is the choice's.
pub fn declaration(s: &[u8]) -> Match
    ensures { Reads declaration s.now result }
{
    let Some(first) = s.first() else {
        return Match::Missed(1);
    };
    match *first {
        b'e' => enum_declaration(s),
        b'p' => packet_declaration(s),
        b's' => struct_declaration(s),
        b'g' => group_declaration(s),
        b't' => test_declaration(s),
        b'c' if s.starts_with(b"cu") => custom_field_declaration(s),
        b'c' => checksum_declaration(s),
        _ => Match::Missed(1),
    }
}

// A declaration, where m ends.
pub fn then_declaration(s: &[u8], m: Match) -> Match
    requires { Within m s.now }
    ensures { Steps m declaration s.now result }
{
    then(s, m, declaration)
}
