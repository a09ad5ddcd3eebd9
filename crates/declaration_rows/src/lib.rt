// The rows of declarations: one declaration, and all of a file as the walk goes over them.
#![tactic(auto)]

ghost use Rattle.std.specs.Prelude.{◌≡◌, ◌≤◌, length};
ghost use Rattle.meaning.specs.Tables.{Table};
ghost use Rattle.walk.specs.State.{lend, At};
ghost use Rattle.walk.specs.Lending.{four, declared_in, Kept};
ghost use Rattle.declaration_rows.specs.Braces.{past_blanks};
ghost use Rattle.declaration_rows.specs.Members.{past_comma, past_brace, members_of, Tagged, GoesTags, GoesFields, Membered, GoesMembers};
ghost use Rattle.declaration_rows.specs.Declarations.{Ready, ReadyKind, Opened, GoesOne, GoesParts, Rowed, GoesRow};
ghost use Rattle.declaration_rows.specs.Lists.{Begun, GoesAll};

use crate::heads::{Headed, head_of, put_head};
use crate::kinds::{Kind, kind_at};
use declarations::tests::test_declaration;
use lexis::blanks::{blanks, next_literal, then_last_comma};
use meaning::Match;
use spans::{Header, Matched};
use walk::rows::NumberWords;
use walk::tables::Tables;
use walk::{Walk, Walked};

mod heads;
mod kinds;

// The first offset from i on that is behind blanks.
fn past_blanks(s: &[u8], i: usize) -> usize
    requires { i ≤ length s.now }
    ensures { result ≡ past_blanks s.now i }
{
    i + blanks(&s[i..])
}

// The walk over a list goes on from its last item: behind a last comma, if there is one.
fn past_comma(s: &[u8], w: Walked) -> Walked
    requires { w.end ≤ length s.now }
    ensures { result ≡ past_comma s.now w }
{
    let comma = then_last_comma(&s[w.end..], Match::Took(0, 0));
    Walked {
        end: w.end + comma.taken(),
        ..w
    }
}

// The walk over the members of a declaration goes on from their end: behind the closing brace.
fn past_brace(s: &[u8], w: Walked) -> Walked
    requires { w.end ≤ length s.now }
    ensures { result ≡ past_brace s.now w }
{
    let brace = next_literal(&s[w.end..], Match::Took(0, 0), b"}");
    Walked {
        end: w.end + brace.taken(),
        ..w
    }
}

// The rows of an enum's tags, which stand at i, and where their list ends. One or two tables are lent alone, and no struct of all, to
// say that the others stay.
fn put_tags(s: &[u8], i: usize, n: Walk, tags: &mut [u64]) -> Walked
    requires { Tagged s.now i n }
    ensures { GoesTags s.now i n result (lend Table.tags tags.old) (lend Table.tags tags.new) }
{
    let first = tags::enum_tag(&s[i..]);
    past_comma(s, tag_rows::put_tags(s, i, first, n, tags))
}

// The rows of the fields that stand at i, if there are some, and where their list ends.
// Rust: parse_field_list_opt.
fn put_fields(s: &[u8], i: usize, n: Walk, fields: &mut [u64], constraints: &mut [u64]) -> Walked
    requires { At s.now i n }
    ensures { GoesFields s.now i n result (λ l. lend Table.fields fields.old (lend Table.constraints constraints.old l))
        (λ l. lend Table.fields fields.new (lend Table.constraints constraints.new l)) }
{
    let first = fields::field(&s[i..]);
    if !first.at.is_hit() {
        return Walked { walk: n, end: i };
    }
    past_comma(
        s,
        field_rows::put_fields(s, i, first, n, fields, constraints),
    )
}

// The rows of a declaration's members, whose head ends at e: the tags of an enum, the fields of any other kind that has braces;
// and where the declaration ends.
fn put_members(s: &[u8], e: usize, kind: Kind, n: Walk, tables: &mut Tables) -> Walked
    requires { Membered s.now e kind n }
    ensures goes { GoesMembers s.now e kind n result (declared_in tables.old) (declared_in tables.new) }
    ensures kept { Kept tables.old tables.new }
{
    match kind {
        Kind::Enum => past_brace(s, put_tags(s, past_blanks(s, e), n, tables.tags)),
        Kind::Packet | Kind::Struct | Kind::Group => {
            let i = past_blanks(s, e);
            past_brace(s, put_fields(s, i, n, tables.fields, tables.constraints))
        }
        Kind::Checksum | Kind::CustomField => Walked { walk: n, end: e },
    }
}

// What stands in a declaration: its head, and the walk over its members up to where it ends.
#[derive(Clone, Copy)]
struct Parts {
    head: Headed,
    members: Walked,
}

// The rows of the parts of a declaration whose head is h.
fn put_parts(
    s: &[u8],
    at: usize,
    kind: Kind,
    h: Matched<Header>,
    n: Walk,
    tables: &mut Tables,
) -> Parts
    requires { Opened s.now at kind h n }
    ensures goes { GoesParts s.now at kind h n result (declared_in tables.old) (declared_in tables.new) }
    ensures kept { Kept tables.old tables.new }
{
    let head = put_head(s, at, h, n, tables.constraints);
    Parts {
        head,
        members: put_members(s, at + h.at.taken(), kind, head.walk, tables),
    }
}

// How many members of this kind's declarations there are by now: tags of enums, fields of all others.
fn members(kind: Kind, n: Walk) -> usize
    ensures { result ≡ members_of kind n }
{
    match kind {
        Kind::Enum => n.counted(walk::Table::Tags),
        _ => n.counted(walk::Table::Fields),
    }
}

// A declaration's row, behind those of its parts x; n is the walk before it.
#[tactic(auto, using(crate::proofs::RowLaws::tag_is, crate::proofs::RowLaws::row_asks, crate::proofs::RowLaws::row_done))]
fn put_row(s: &[u8], kind: Kind, n: Walk, x: Parts, declarations: &mut [u64]) -> Walk
    requires { Rowed s.now kind n x }
    ensures { GoesRow s.now kind n x result (lend Table.declarations declarations.old)
        (lend Table.declarations declarations.new) }
{
    let head = x.head;
    let last = x.members.walk.to(s, x.members.end);
    let count = members(kind, x.members.walk) - members(kind, head.walk);
    let first = walk::rows::first_of(members(kind, n), count);
    let before = n.counted(walk::Table::Constraints);
    let listed = head.walk.counted(walk::Table::Constraints) - before;
    let list = walk::rows::first_of(before, listed);
    let row = walk::rows::declaration_row(
        kind as u64,
        head.start,
        last.here,
        head.id,
        head.other,
        NumberWords::from(head.width),
        first,
        count,
        list,
        listed,
    );
    last.put(walk::Table::Declarations, &row, declarations)
}

// One declaration of a kind that has a row: the rows of its parts come to the door, and then its own.
fn put_kind(s: &[u8], at: usize, kind: Kind, n: Walk, tables: &mut Tables) -> Walked
    requires { ReadyKind s.now at kind n }
    ensures goes { GoesOne s.now at n result (declared_in tables.old) (declared_in tables.new) }
    ensures kept { Kept tables.old tables.new }
{
    let h = head_of(&s[at..], kind);
    let x = put_parts(s, at, kind, h, n, tables);
    Walked {
        walk: put_row(s, kind, n, x, tables.declarations),
        end: x.members.end,
    }
}

// One declaration, of the kind that its word tells. A test has no row.
// Rust: parse_toplevel's match on the rule of a node.
fn put_one(s: &[u8], at: usize, n: Walk, tables: &mut Tables) -> Walked
    requires { Ready s.now at n }
    ensures goes { GoesOne s.now at n result (declared_in tables.old) (declared_in tables.new) }
    ensures kept { Kept tables.old tables.new }
{
    match kind_at(&s[at..]) {
        Some(kind) => put_kind(s, at, kind, n, tables),
        None => Walked {
            walk: n,
            end: at + test_declaration(&s[at..]).taken(),
        },
    }
}

// All declarations behind j, up to the end of the source. The loop is no `for`: each starts behind the one before it.
fn put_all(s: &[u8], j: usize, n: Walk, tables: &mut Tables) -> Walk
    requires { Begun s.now j n }
    ensures goes { GoesAll s.now j n result (declared_in tables.old) (declared_in tables.new) }
    ensures kept { Kept tables.old tables.new }
{
    let mut at = past_blanks(s, j);
    let mut m = n;
    while at < s.len() {
        let one = put_one(s, at, m, tables);
        at = past_blanks(s, one.end);
        m = one.walk;
    }
    m
}

// All declarations behind j. The tables that they have rows in come one by one, so that none is asked for comments: one of no words
// stands for it.
// Rust: parse_toplevel.
pub fn put_declarations(
    s: &[u8],
    j: usize,
    n: Walk,
    declarations: &mut [u64],
    fields: &mut [u64],
    tags: &mut [u64],
    constraints: &mut [u64],
) -> Walk
    requires { Begun s.now j n }
    ensures { GoesAll s.now j n result (four declarations.old fields.old tags.old constraints.old)
        (four declarations.new fields.new tags.new constraints.new) }
{
    let mut tables = Tables {
        declarations,
        fields,
        tags,
        constraints,
        comments: &mut [],
    };
    put_all(s, j, n, &mut tables)
}
