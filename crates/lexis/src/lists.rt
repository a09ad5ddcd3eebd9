// Lists: as many items as follow, with a blank run before each, alone or behind commas.
ghost use Rattle.std.specs.Prelude.{◌≡◌, true};
ghost use Rattle.meaning.specs.Peg.{Peg, seq, star, bytewise};
ghost use Rattle.meaning.specs.Pdl.{text, ◌~◌, skip, repeat};
ghost use Rattle.grammar.specs.Matching.{Within, Steps, eats};
ghost use Rattle.grammar.specs.Closures.{GoesOn, StepsOver};

use crate::blanks::then_blanks;
use crate::texts::then_literal;
use grammar::optional;
use meaning::Match;

// As many items as follow m, each of which takes a byte. The loop is no `for`: each turn goes on from where the
// last one ended.
pub fn then_many<F: Fn(&[u8], Match) -> Match>(s: &[u8], m: Match, then_item: F) -> Match
    requires within { Within m s.now }
    requires callable { GoesOn F.Fn then_item }
    requires steps { (g : Peg) × (eats (bytewise g) ≡ true) × StepsOver F.Fn then_item g }
    ensures { (g : Peg) → eats (bytewise g) ≡ true → StepsOver F.Fn then_item g
        → Steps m (star (seq skip g)) s.now result }
{
    let mut at = m;
    loop {
        let next = then_item(s, then_blanks(s, at));
        match next {
            Match::Missed(_) => return optional(s, at, next),
            Match::Took(_, _) => at = next,
        }
    }
}

// A list with no last comma, where m ends: an item, and as many as follow it behind commas. Where m missed nothing is tried: a list
// that may be left out, as a head's constraints, costs nothing then.
pub fn then_list<F: Fn(&[u8], Match) -> Match>(s: &[u8], m: Match, then_item: F) -> Match
    requires within { Within m s.now }
    requires callable { GoesOn F.Fn then_item }
    requires steps { (g : Peg) × StepsOver F.Fn then_item g }
    ensures { (g : Peg) → StepsOver F.Fn then_item g → Steps m (g ~ repeat (text "," ~ g)) s.now result }
{
    if let Match::Missed(_) = m {
        return m;
    }
    let then_more = |s: &[u8], at: Match|
        requires within { Within at s.now }
        requires callable { GoesOn F.Fn then_item }
        ensures { (g : Peg) → StepsOver F.Fn then_item g → Steps at (text "," ~ g) s.now result }
    { then_item(s, then_blanks(s, then_literal(s, at, b","))) };
    let b = then_blanks(s, then_item(s, m));
    optional(s, b, then_many(s, then_more(s, b), then_more))
}
