// Quoted texts, and all that stands before one.
ghost use Rattle.meaning.specs.Peg.{lit, any, neg, seq, alt, star};
ghost use Rattle.grammar.specs.Matching.{Within, Reads, Steps};

use grammar::{or_else, then};
use meaning::Match;

// The text l.
#[inline(always)]
pub fn literal(s: &[u8], l: &[u8]) -> Match
    ensures { Reads (lit l.now) s.now result }
{
    if s.starts_with(l) {
        Match::Took(l.len(), 0)
    } else {
        Match::Missed(1)
    }
}

// The text l, where m ends.
#[inline(always)]
pub fn then_literal(s: &[u8], m: Match, l: &[u8]) -> Match
    requires { Within m s.now }
    ensures { Steps m (lit l.now) s.now result }
{
    then(s, m, |rest| literal(rest, l))
}

// The text first, or else the text second.
#[inline(always)]
pub fn either_literal(s: &[u8], first: &[u8], second: &[u8]) -> Match
    ensures { Reads (alt (lit first.now) (lit second.now)) s.now result }
{
    or_else(s, literal(s, first), |rest| literal(rest, second))
}

// All bytes before the first l, which is looked for only where its first byte stands; `windows` would compare it everywhere.
fn up_to(s: &[u8], l: &[u8]) -> Match
    ensures { Reads (star (seq (neg (lit l.now)) any)) s.now result }
{
    let Some(&first) = l.first() else {
        return Match::Took(0, 0);
    };
    for i in 0..s.len() {
        if s[i] == first && s[i..].starts_with(l) {
            return Match::Took(i, 0);
        }
    }
    Match::Took(s.len(), s.len() + 1)
}

// All bytes before the first l, where m ends.
pub fn then_up_to(s: &[u8], m: Match, l: &[u8]) -> Match
    requires { Within m s.now }
    ensures { Steps m (star (seq (neg (lit l.now)) any)) s.now result }
{
    then(s, m, |rest| up_to(rest, l))
}

// The text opening, all bytes before the first closing, and closing: a block comment, a string.
pub fn enclosed(s: &[u8], opening: &[u8], closing: &[u8]) -> Match
    ensures { Reads (seq (seq (lit opening.now) (star (seq (neg (lit closing.now)) any))) (lit closing.now))
        s.now result }
{
    then_literal(s, then_up_to(s, literal(s, opening), closing), closing)
}
