// The rows of fields and of their constraints: one field, and a list of them as the walk goes over it.
#![tactic(auto)]

pub mod descs;

ghost use Rattle.std.specs.Prelude.{◌≡◌, ◌-◌, ◌≤◌, [], ◌∷◌, length, get_or};
ghost use Rattle.meaning.specs.Tables.{Table, first_of};
ghost use Rattle.walk.specs.State.{lend};
ghost use Rattle.walk.specs.Terms.{words_of_field};
ghost use Rattle.walk.specs.Lists.{slice_of, Ready, GoesOne, GoesList};
ghost use Rattle.field_rows.specs.Items.{cond_number, cond_word, InsideCondition};
ghost use Rattle.field_rows.specs.Fields.{field_form, noted_desc, Conditioned, GoesCondition};

use crate::descs::{describe, group_of};
use ast::numbers;
use spans::{Constraint, Field, Matched};
use walk::kinds::FieldKind;
use walk::lists::{Items, put_items};
use walk::rows::FieldWords;
use walk::{Described, Number, Walk, Walked};

// The number of a condition, if there is one.
fn condition_number(s: &[u8], at: usize, cond: Option<Constraint>) -> Option<Number>
    requires { (at ≤ length s.now) × InsideCondition (length s.now - at) cond }
    ensures { result ≡ cond_number s.now at cond }
{
    match cond {
        None => None,
        Some(c) => walk::terms::operand_number(s, at, c.value),
    }
}

// The numbers of a description in the walk's order: a fixed scalar has its value before its width.
fn note_desc(n: Walk, d: Described) -> Walk
    ensures { result ≡ noted_desc d n }
{
    match d.kind {
        FieldKind::FixedScalar => n.note(d.nb).note(d.na),
        _ => n.note(d.na).note(d.nb),
    }
}

// The row of a condition, if there is one; v is its number, which was noted before.
fn put_condition(
    s: &[u8],
    at: usize,
    cond: Option<Constraint>,
    v: Option<Number>,
    n: Walk,
    t: &mut [u64],
) -> Walk
    requires { Conditioned s.now at cond v n }
    ensures { GoesCondition s.now at cond n result (lend Table.constraints t.old) (lend Table.constraints t.new) }
{
    let Some(c) = cond else {
        return n;
    };
    constraint_rows::put_row(s, at, c, v, n, t)
}

// The number of a condition's row, counted from 1: the count of rows behind it. 0 where there is none, as the field's row has it.
fn row_number(cond: Option<Constraint>, count: usize) -> usize
    ensures { result ≡ cond_word cond count }
{
    match cond {
        None => 0,
        Some(_) => count,
    }
}

// A field's row: the walk where the field starts, behind its group's constraints, and where it ends.
fn row_of(
    d: Described,
    cond: Option<Constraint>,
    start: Walk,
    group: Walk,
    end: Walk,
) -> [u64; numbers::FIELD_WORDS]
    requires { get_or start.counts 3 0 ≤ get_or group.counts 3 0 }
    ensures { result ≡ words_of_field d.kind start.here end.here d.a d.b d.c d.na d.nb
        (first_of (get_or start.counts 3 0) (get_or group.counts 3 0 - get_or start.counts 3 0))
        (get_or group.counts 3 0 - get_or start.counts 3 0) (cond_word cond (get_or end.counts 3 0)) }
{
    let before = start.counted(walk::Table::Constraints);
    let count = group.counted(walk::Table::Constraints) - before;
    let first = walk::rows::first_of(before, count);
    let number = row_number(cond, end.counted(walk::Table::Constraints));
    let p = start.here;
    let q = end.here;
    walk::rows::field_row(FieldWords::from(d), p, q, first, count, number)
}

// A list of fields, and the tables of their rows and of their constraints' rows.
#[derive(Drop)]
struct Rows<'a> {
    fields: &'a mut [u64],
    constraints: &'a mut [u64],
}

impl Items for Rows<'_> {
    type Item = Field;

    ghost form = { field_form };

    ghost tables = { λ x l. lend Table.fields x.fields.now (lend Table.constraints x.constraints.now l) };

    ghost slices = { λ x. slice_of x.fields ∷ slice_of x.constraints ∷ [] };

    fn matched(s: &[u8]) -> Matched<Field>
        ensures { field_form.Answered s.now result }
    {
        fields::field(s)
    }

    // The numbers are noted, the condition's first; then come the rows of the constraints, and the field's own.
    // Rust: parse_field.
    fn put(&mut self, s: &[u8], at: usize, item: Matched<Field>, n: Walk) -> Walk
        requires { Ready field_form s.now at item n }
        ensures goes { GoesOne field_form s.now at item n result
            (λ l. lend Table.fields self.old.fields.now (lend Table.constraints self.old.constraints.now l))
            (λ l. lend Table.fields self.new.fields.now (lend Table.constraints self.new.constraints.now l)) }
        ensures fields { slice_of self.new.fields ≡ slice_of self.old.fields }
        ensures constraints { slice_of self.new.constraints ≡ slice_of self.old.constraints }
    {
        let desc = item.value.desc.value;
        let cond = item.value.condition;
        let d = describe(s, at, desc);
        let v = condition_number(s, at, cond);
        let a = note_desc(n.note(v), d).to(s, at);
        let g = constraint_rows::put_part(s, at, group_of(desc), a, self.constraints);
        let h = put_condition(s, at, cond, v, g, self.constraints);
        let e = h.to(s, at + item.at.taken());
        let row = row_of(d, cond, a, g, e);
        e.put(walk::Table::Fields, &row, self.fields)
    }
}

// A list of fields from `at` on, whose first one is handed on.
// Rust: parse_field_list.
pub fn put_fields(
    s: &[u8],
    at: usize,
    first: Matched<Field>,
    n: Walk,
    fields: &mut [u64],
    constraints: &mut [u64],
) -> Walked
    requires { Ready field_form s.now at first n }
    ensures { GoesList field_form s.now at n result
        (λ l. lend Table.fields fields.old (lend Table.constraints constraints.old l))
        (λ l. lend Table.fields fields.new (lend Table.constraints constraints.new l)) }
{
    let mut rows = Rows {
        fields,
        constraints,
    };
    put_items(&mut rows, s, at, first, n)
}
