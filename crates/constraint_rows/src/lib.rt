// The rows of constraints: one constraint, a list of them as the walk goes over it, and the list that a part says.
#![tactic(auto)]

ghost use Rattle.std.specs.Prelude.{◌≡◌, [], ◌∷◌};
ghost use Rattle.meaning.specs.Tables.{Table};
ghost use Rattle.walk.specs.State.{lend};
ghost use Rattle.walk.specs.Lists.{slice_of, Ready, GoesOne, GoesAll};
ghost use Rattle.constraint_rows.specs.Constraints.{constraint_form, Placed, GoesRow};
ghost use Rattle.constraint_rows.specs.OptionalLists.{Begun, GoesPart};

use spans::{Constraint, Matched, Span};
use walk::lists::{Items, put_items};
use walk::rows::NumberWords;
use walk::{Number, Walk};

// The row of a constraint whose spans are counted from `at`; v is its number, which was noted before.
// Rust: parse_constraint.
pub fn put_row(
    s: &[u8],
    at: usize,
    c: Constraint,
    v: Option<Number>,
    n: Walk,
    t: &mut [u64],
) -> Walk
    requires { Placed s.now at c v n }
    ensures { GoesRow s.now at c n result (lend Table.constraints t.old) (lend Table.constraints t.new) }
{
    let size = s.len() - at;
    let start = at + c.span.start;
    let a = n.to(s, start);
    let b = a.to(s, start + c.span.len);
    let id = walk::terms::span_name(at, c.id);
    let tag = walk::terms::operand_name(at, size, c.value);
    let kind = walk::terms::constraint_kind(c.value) as u64;
    let v = NumberWords::from(v).value;
    let row = walk::rows::constraint_row(kind, a.here, b.here, id, tag, v);
    b.put(walk::Table::Constraints, &row, t)
}

// A list of constraints, and the table of their rows.
#[derive(Drop)]
struct Rows<'a> {
    t: &'a mut [u64],
}

impl Items for Rows<'_> {
    type Item = Constraint;

    ghost form = { constraint_form };

    ghost tables = { λ x. lend Table.constraints x.t.now };

    ghost slices = { λ x. slice_of x.t ∷ [] };

    fn matched(s: &[u8]) -> Matched<Constraint>
        ensures { constraint_form.Answered s.now result }
    {
        constraints::constraint(s)
    }

    // The number is noted, and the row comes to the door.
    fn put(&mut self, s: &[u8], at: usize, item: Matched<Constraint>, n: Walk) -> Walk
        requires { Ready constraint_form s.now at item n }
        ensures goes { GoesOne constraint_form s.now at item n result (lend Table.constraints self.old.t.now) (lend Table.constraints self.new.t.now) }
        ensures kept { slice_of self.new.t ≡ slice_of self.old.t }
    {
        let c = item.value;
        let v = walk::terms::operand_number(s, at, c.value);
        put_row(s, at, c, v, n.note(v), self.t)
    }
}

// A list of constraints from `at` on, whose first one is handed on.
// Rust: parse_constraint_list.
pub fn put_list(s: &[u8], at: usize, first: Matched<Constraint>, n: Walk, t: &mut [u64]) -> Walk
    requires { Ready constraint_form s.now at first n }
    ensures { GoesAll constraint_form s.now at n result (lend Table.constraints t.old) (lend Table.constraints t.new) }
{
    put_items(&mut Rows { t }, s, at, first, n).walk
}

// The rows of the constraints that a part of the text at `at` says, if it is there.
pub fn put_part(s: &[u8], at: usize, list: Option<Span>, n: Walk, t: &mut [u64]) -> Walk
    requires { Begun s.now at list n }
    ensures { GoesPart s.now at list n result (lend Table.constraints t.old) (lend Table.constraints t.new) }
{
    let Some(g) = list else {
        return n;
    };
    let i = at + g.start;
    let first = constraints::constraint(&s[i..]);
    put_list(s, i, first, n, t)
}
