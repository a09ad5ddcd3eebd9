// Constraints: `id = tag` and `id = integer`, alone and in lists.
#![tactic(auto)]

ghost use Rattle.meaning.specs.Peg.{alt};
ghost use Rattle.meaning.specs.Pdl.{identifier, integer, constraint, constraint_list};
ghost use Rattle.grammar.specs.Matching.{Within, Reads, Steps};
ghost use Rattle.spans.specs.declared.Operand.TheVariants.{Identifier};
ghost use Rattle.spans.specs.Drawn.{draw_operand, draw_constraint};
ghost use Rattle.spans.specs.Answers.{Continues, Free, Constrained, nowhere, no_constraint};

use lexis::blanks::{next_literal, then_blanks};
use lexis::lists::then_list;
use lexis::tokens::{then_identifier, then_integer};
use meaning::Match;
use spans::{
    Constraint, Matched, NO_CONSTRAINT, NOWHERE, Operand, between, kept, or_part, then_part,
};

// A tag's name or an integer, where m ends.
fn then_operand(s: &[u8], m: Match) -> Matched<Operand>
    requires { Within m s.now }
    ensures { Continues m (alt identifier integer) s.now result.at (λ x o. draw_operand o x) Free (Identifier nowhere) result.value }
{
    let none = Operand::Identifier(NOWHERE);
    let name = then_part(s, m, then_identifier, |x| Operand::Identifier(x), none);
    or_part(s, m, name, then_integer, |x| Operand::Integer(x))
}

// A constraint, where m ends.
pub fn then_constraint(s: &[u8], m: Match) -> Matched<Constraint>
    requires { Within m s.now }
    ensures { Continues m constraint s.now result.at (λ c o. draw_constraint o c) Free no_constraint result.value }
{
    let a = then_identifier(s, m);
    let b = then_blanks(s, next_literal(s, a, b"="));
    let v = then_operand(s, b);
    let c = Constraint {
        span: between(m, v.at),
        id: between(m, a),
        value: v.value,
    };
    Matched {
        at: v.at,
        value: kept(v.at, c, NO_CONSTRAINT),
    }
}

// A constraint at the front.
pub fn constraint(s: &[u8]) -> Matched<Constraint>
    ensures { Constrained s.now result }
{
    then_constraint(s, Match::Took(0, 0))
}

// A list of constraints, with no last comma, where m ends.
pub fn then_constraint_list(s: &[u8], m: Match) -> Match
    requires { Within m s.now }
    ensures { Steps m constraint_list s.now result }
{
    let then_item = |s: &[u8], m: Match|
        requires { Within m s.now }
        ensures { Steps m constraint s.now result }
    { then_constraint(s, m).at };
    then_list(s, m, then_item)
}

// A list of constraints at the front.
pub fn constraint_list(s: &[u8]) -> Match
    ensures { Reads constraint_list s.now result }
{
    then_constraint_list(s, Match::Took(0, 0))
}
