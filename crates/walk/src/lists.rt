// A walk over a list, item by item: one loop for the lists of constraints, of tags, of a range's values and of fields.
ghost use Rattle.std.specs.Prelude.{◌≡◌, List};
ghost use Rattle.meaning.specs.Tables.{Lent};
ghost use Rattle.walk.specs.Lists.{Form, Slice, Ready, GoesOne, GoesList};

use crate::{Walk, Walked, turn_behind};
use spans::Matched;

// A list and the tables that it lends: what it is of, how an item is matched, and how its rows are put.
pub trait Items {
    type Item: Copy;

    // what the list is of, and what the walk meets in it
    ghost form: { Form Self.Item };

    // the tables that are lent
    ghost tables: { Self → Lent → Lent };

    // the slices that they are: the same from first to last, so that who lent them knows what they are left with
    ghost slices: { Self → List Slice };

    // What the matcher answers of a text.
    fn matched(s: &[u8]) -> Matched<Self::Item>
        ensures { form.Answered s.now result };

    // One item: its rows come to the door.
    fn put(&mut self, s: &[u8], at: usize, item: Matched<Self::Item>, n: Walk) -> Walk
        requires { Ready form s.now at item n }
        ensures goes { GoesOne form s.now at item n result (tables self.old) (tables self.new) }
        ensures kept { slices self.new ≡ slices self.old };
}

// The list from `at` on, whose first item is handed on. The loop is no `for`: each item starts where the one before it lets it.
pub fn put_items<I: Items>(
    items: &mut I,
    s: &[u8],
    at: usize,
    first: Matched<I::Item>,
    n: Walk,
) -> Walked
    requires { Ready I.form s.now at first n }
    ensures goes { GoesList I.form s.now at n result (I.tables items.old) (I.tables items.new) }
    ensures kept { I.slices items.new ≡ I.slices items.old }
{
    let mut i = at;
    let mut item = first;
    let mut walk = n;
    loop {
        walk = items.put(s, i, item, walk);
        let turn = turn_behind(s, i, item.at);
        let end = turn.end;
        let Some(next) = turn.next else {
            return Walked { walk, end };
        };
        i = next;
        item = I::matched(&s[i..]);
        if !item.at.is_hit() {
            return Walked { walk, end };
        }
    }
}
