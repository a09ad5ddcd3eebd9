// The rows of an enum's tags: one value, one range with its values, the default, and the lists of them as the walk goes.
#![tactic(auto)]

ghost use Rattle.std.specs.Prelude.{◌+◌, ◌≡◌, [], ◌∷◌};
ghost use Rattle.meaning.specs.Tables.{Table, row};
ghost use Rattle.walk.specs.State.{lend, placed, Goes};
ghost use Rattle.walk.specs.Lists.{slice_of, Ready, GoesOne, GoesAll, GoesList};
ghost use Rattle.tag_rows.specs.Tags.{value_form, tag_form, row_words, value_items, other_items, range_items, Placed, PlacedValue, PlacedRange, Counted};

use meaning::SourceLocation;
use spans::{Matched, Span, Tag, TagOther, TagRange, TagValue};
use walk::kinds::TagKind;
use walk::lists::{Items, put_items};
use walk::rows::NumberWords;
use walk::{Door, Number, Walk, Walked};

// The row of a tag of len bytes at `at`; its numbers were noted before.
fn put_row(
    s: &[u8],
    at: usize,
    len: usize,
    kind: TagKind,
    id: Span,
    v: Option<Number>,
    e: Option<Number>,
    inner: usize,
    n: Walk,
    t: &mut [u64],
) -> Walk
    requires { Placed s.now at len id n }
    ensures { Goes (row Table.tags (row_words s.now at len kind id v e inner) ∷ []) s.now (at + len) n result
        (lend Table.tags t.old) (lend Table.tags t.new) }
{
    let a = n.to(s, at);
    let b = a.to(s, at + len);
    let name = walk::terms::span_name(at, id);
    let v = NumberWords::from(v).value;
    let e = NumberWords::from(e).value;
    let row = walk::rows::tag_row(kind as u64, a.here, b.here, name, v, e, inner);
    b.put(walk::Table::Tags, &row, t)
}

// A value, alone or inside a range by its kind: its number is noted, its row comes to the door.
// Rust: parse_enum_value.
fn put_value(
    s: &[u8],
    at: usize,
    len: usize,
    kind: TagKind,
    v: TagValue,
    n: Walk,
    t: &mut [u64],
) -> Walk
    requires { PlacedValue s.now at len v n }
    ensures { Goes (value_items s.now kind at len v) s.now (at + len) n result
        (lend Table.tags t.old) (lend Table.tags t.new) }
{
    let x = Some(walk::terms::integer_at(s, at + v.value.start, v.value.len));
    put_row(s, at, len, kind, v.id, x, None, 0, n.note(x), t)
}

// The default: a row without numbers.
// Rust: parse_enum_other.
fn put_other(s: &[u8], at: usize, len: usize, x: TagOther, n: Walk, t: &mut [u64]) -> Walk
    requires { Placed s.now at len x.id n }
    ensures { Goes (other_items s.now at len x) s.now (at + len) n result
        (lend Table.tags t.old) (lend Table.tags t.new) }
{
    put_row(s, at, len, TagKind::Other, x.id, None, None, 0, n, t)
}

// The values inside a range's braces, and the table of their rows.
#[derive(Drop)]
struct ValueRows<'a> {
    t: &'a mut [u64],
}

impl Items for ValueRows<'_> {
    type Item = Tag;

    ghost form = { value_form };

    ghost tables = { λ x. lend Table.tags x.t.now };

    ghost slices = { λ x. slice_of x.t ∷ [] };

    fn matched(s: &[u8]) -> Matched<Tag>
        ensures { value_form.Answered s.now result }
    {
        tags::enum_value(s)
    }

    // A value's row; no other tag has one there.
    fn put(&mut self, s: &[u8], at: usize, item: Matched<Tag>, n: Walk) -> Walk
        requires { Ready value_form s.now at item n }
        ensures goes { GoesOne value_form s.now at item n result
            (lend Table.tags self.old.t.now) (lend Table.tags self.new.t.now) }
        ensures kept { slice_of self.new.t ≡ slice_of self.old.t }
    {
        let len = item.at.taken();
        match item.value {
            Tag::Value(v) => put_value(s, at, len, TagKind::ValueInRange, v, n, self.t),
            Tag::Range(_) | Tag::Other(_) => n,
        }
    }
}

// The values inside a range's braces from `at` on, whose first one is handed on.
// Rust: parse_enum_value_list_opt.
fn put_values(s: &[u8], at: usize, first: Matched<Tag>, n: Walk, t: &mut [u64]) -> Walk
    requires { Ready value_form s.now at first n }
    ensures { GoesAll value_form s.now at n result (lend Table.tags t.old) (lend Table.tags t.new) }
{
    put_items(&mut ValueRows { t }, s, at, first, n).walk
}

// How many rows the values from `at` on have. Only a walk that writes asks: one that counts meets them but once.
fn count_values(s: &[u8], at: usize, first: Matched<Tag>, n: Walk, t: &mut [u64]) -> usize
    requires { Ready value_form s.now at first n }
    ensures { Counted s.now at n result t.old t.new }
{
    let Door::Write = n.door else {
        return 0;
    };
    let m = put_values(s, at, first, n.counting(), t);
    m.counted(walk::Table::Tags) - n.counted(walk::Table::Tags)
}

// The walk n, whose place is p.
fn back(n: Walk, p: SourceLocation) -> Walk
    ensures { result ≡ placed p n }
{
    Walk { here: p, ..n }
}

// A range: its row says how many rows follow it, so they are counted first. The walk goes to its end only for its row.
// Rust: parse_enum_range.
fn put_range(s: &[u8], at: usize, len: usize, x: TagRange, n: Walk, t: &mut [u64]) -> Walk
    requires { PlacedRange s.now at len x n }
    ensures { Goes (range_items s.now at len x) s.now (at + len) n result
        (lend Table.tags t.old) (lend Table.tags t.new) }
{
    let v = Some(walk::terms::integer_at(s, at + x.start.start, x.start.len));
    let e = Some(walk::terms::integer_at(s, at + x.end.start, x.end.len));
    let m = n.note(v).note(e);
    let Some(g) = x.tags else {
        return put_row(s, at, len, TagKind::Range, x.id, v, e, 0, m, t);
    };
    let i = at + g.start;
    let first = tags::enum_value(&s[i..]);
    let inner = count_values(s, i, first, m, t);
    let r = put_row(s, at, len, TagKind::Range, x.id, v, e, inner, m, t);
    put_values(s, i, first, back(r, m.here), t)
}

// The tags of an enum, and the table of their rows: a struct of its own, since its type chooses the impl.
#[derive(Drop)]
struct TagRows<'a> {
    t: &'a mut [u64],
}

impl Items for TagRows<'_> {
    type Item = Tag;

    ghost form = { tag_form };

    ghost tables = { λ x. lend Table.tags x.t.now };

    ghost slices = { λ x. slice_of x.t ∷ [] };

    fn matched(s: &[u8]) -> Matched<Tag>
        ensures { tag_form.Answered s.now result }
    {
        tags::enum_tag(s)
    }

    // One tag, by its kind.
    // Rust: parse_enum_tag.
    fn put(&mut self, s: &[u8], at: usize, item: Matched<Tag>, n: Walk) -> Walk
        requires { Ready tag_form s.now at item n }
        ensures goes { GoesOne tag_form s.now at item n result
            (lend Table.tags self.old.t.now) (lend Table.tags self.new.t.now) }
        ensures kept { slice_of self.new.t ≡ slice_of self.old.t }
    {
        let len = item.at.taken();
        match item.value {
            Tag::Value(v) => put_value(s, at, len, TagKind::Value, v, n, self.t),
            Tag::Range(x) => put_range(s, at, len, x, n, self.t),
            Tag::Other(x) => put_other(s, at, len, x, n, self.t),
        }
    }
}

// The tags of an enum from `at` on, whose first one is handed on.
// Rust: parse_enum_tag_list.
pub fn put_tags(s: &[u8], at: usize, first: Matched<Tag>, n: Walk, t: &mut [u64]) -> Walked
    requires { Ready tag_form s.now at first n }
    ensures { GoesList tag_form s.now at n result (lend Table.tags t.old) (lend Table.tags t.new) }
{
    put_items(&mut TagRows { t }, s, at, first, n)
}
