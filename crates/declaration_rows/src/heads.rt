// The head of a declaration: its match by its kind, and what it says.
ghost use Rattle.meaning.specs.Tables.{Table};
ghost use Rattle.walk.specs.State.{lend};
ghost use Rattle.declaration_rows.specs.Kinds.{shape_of, HeadOf};
ghost use Rattle.declaration_rows.specs.Heads.{HeadAt, GoesHead};

use crate::kinds::Kind;
use declarations::headers::{
    checksum_head, custom_field_head, enum_head, group_head, packet_head, struct_head,
};
use meaning::SourceLocation;
use spans::{Header, Matched};
use walk::{Name, Number, Walk};

// The head of a declaration of this kind: a kind is a value and no closure, since `kind_at` answers one.
pub fn head_of(s: &[u8], kind: Kind) -> Matched<Header>
    ensures { HeadOf (shape_of kind) s.now result }
{
    match kind {
        Kind::Enum => enum_head(s),
        Kind::Packet => packet_head(s),
        Kind::Struct => struct_head(s),
        Kind::Group => group_head(s),
        Kind::Checksum => checksum_head(s),
        Kind::CustomField => custom_field_head(s),
    }
}

// What a head says, the place where it starts, and the walk behind its constraints: all that a row needs of it.
#[derive(Clone, Copy)]
pub struct Headed {
    pub walk: Walk,
    pub start: SourceLocation,
    pub id: Name,
    pub other: Name,
    pub width: Option<Number>,
}

// A declaration's head: its width is noted, the rows of its constraints come to the door.
pub fn put_head(s: &[u8], at: usize, h: Matched<Header>, n: Walk, constraints: &mut [u64]) -> Headed
    requires { HeadAt s.now at h n }
    ensures { GoesHead s.now at h n result (lend Table.constraints constraints.old)
        (lend Table.constraints constraints.new) }
{
    let head = h.value;
    let a = n.to(s, at);
    let width = walk::terms::part_number(s, at, head.width);
    let m = a.note(width);
    Headed {
        walk: constraint_rows::put_part(s, at, head.constraints, m, constraints),
        start: a.here,
        id: walk::terms::span_name(at, head.id),
        other: walk::terms::other_name(at, s.len() - at, head.parent, head.function),
        width,
    }
}
