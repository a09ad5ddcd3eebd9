// Comments and blank runs.
ghost use Rattle.std.specs.Prelude.{◌≡◌, eqb};
ghost use Rattle.meaning.specs.Choice.{either};
ghost use Rattle.meaning.specs.Peg.{lit, seq, opt};
ghost use Rattle.meaning.specs.Pdl.{text, block_comment, line_comment, COMMENT, skip};
ghost use Rattle.grammar.specs.Matching.{Within, Reads, Steps};
ghost use Rattle.lexis.specs.Classes.{spaceb};
ghost use Rattle.lexis.specs.Skips.{Skips};

use crate::bytes::{Class, is_space, run_of};
use crate::texts::{enclosed, literal, then_literal, then_up_to};
use grammar::{optional, or_else, then};
use meaning::Match;

// A block comment; an unclosed one is none.
#[tactic(auto, unfolding(meaning::specs::Pdl::block_comment))]
pub fn block_comment(s: &[u8]) -> Match
    ensures { Reads block_comment s.now result }
{
    enclosed(s, b"/*", b"*/")
}

// A line comment; it ends before LF or at the end.
pub fn line_comment(s: &[u8]) -> Match
    ensures { Reads line_comment s.now result }
{
    then_up_to(s, literal(s, b"//"), b"\n")
}

// A comment.
pub fn comment(s: &[u8]) -> Match
    ensures { Reads COMMENT s.now result }
{
    or_else(s, block_comment(s), line_comment)
}

// Whether a blank run may begin with this byte.
#[inline(always)]
fn may_begin(b: u8) -> bool
    ensures { result ≡ either (spaceb b) (eqb 47 b) }
{
    is_space(b) || b == b'/'
}

// How long the blank run at the front is, by turns. A comment is looked for only at a slash. The loop is no `for`: each turn goes on
// from where the last one ended.
fn blank_run(s: &[u8]) -> usize
    ensures { Skips s.now result }
{
    let mut n = 0;
    loop {
        n += run_of(&s[n..], Class::Space);
        if s.len() <= n || s[n] != b'/' {
            return n;
        }
        match comment(&s[n..]) {
            Match::Missed(_) => return n,
            Match::Took(k, _) => n += k,
        }
    }
}

// How long the blank run at the front is. It never misses, and no try inside it counts. Mostly there is none, which the first byte tells.
#[inline(always)]
pub fn blanks(s: &[u8]) -> usize
    ensures { Skips s.now result }
{
    if s.is_empty() {
        return 0;
    }
    if !may_begin(s[0]) {
        return 0;
    }
    blank_run(s)
}

// A blank run, where m ends.
#[inline(always)]
pub fn then_blanks(s: &[u8], m: Match) -> Match
    requires { Within m s.now }
    ensures { Steps m skip s.now result }
{
    then(s, m, |rest| Match::Took(blanks(rest), 0))
}

// The text l after a blank run, where m ends.
#[inline(always)]
pub fn next_literal(s: &[u8], m: Match, l: &[u8]) -> Match
    requires { Within m s.now }
    ensures { Steps m (seq skip (lit l.now)) s.now result }
{
    then_literal(s, then_blanks(s, m), l)
}

// A last comma or none, after a blank run, where m ends: so ends every list but one of constraints.
pub fn then_last_comma(s: &[u8], m: Match) -> Match
    requires { Within m s.now }
    ensures { Steps m (seq skip (opt (text ","))) s.now result }
{
    let b = then_blanks(s, m);
    optional(s, b, then_literal(s, b, b","))
}
