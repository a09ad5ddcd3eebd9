// The combinators that every matcher is made of: a match goes on from another, stays where it was, or is tried after one
// that missed. Text and match stay two parameters, and each step asks that the match lies within the text: a struct of both
// would ask that once, but then each step would have to promise that the text is the same, and each answer carry the text.
#![tactic(auto)]

ghost use Rattle.std.specs.Prelude.{◌≡◌, ◌+◌, ◌^◌, ◌≤◌, ◌<◌, max, length, drop};
ghost use Rattle.meaning.specs.Peg.{lift, join};
ghost use Rattle.grammar.specs.Matching.{Within, Stays, Steps, Tries, stay};
ghost use Rattle.grammar.specs.Closures.{Fits, Matches};

use meaning::Match;

// The farther of a mark f and a mark g that was told from n bytes on.
#[inline(always)]
fn farther(f: usize, n: usize, g: usize) -> usize
    requires { n + g < 2 ^ 64 }
    ensures { result ≡ max f (lift n g) }
{
    if g == 0 { f } else { f.max(n + g) }
}

// The match m, which starts n bytes on, after tries as far as f.
#[inline(always)]
pub fn joined(s: &[u8], n: usize, f: usize, m: Match) -> Match
    requires { (n ≤ length s.now) × Within m (drop n s.now) }
    ensures { result ≡ join n f m }
{
    match m {
        Match::Missed(g) => Match::Missed(farther(f, n, g)),
        Match::Took(k, g) => Match::Took(n + k, farther(f, n, g)),
    }
}

// What the matcher takes where m ends.
#[inline(always)]
pub fn then<F: FnOnce(&[u8]) -> Match>(s: &[u8], m: Match, matcher: F) -> Match
    requires within { Within m s.now }
    requires callable { F.IsAlwaysCallable matcher }
    requires fits { Fits F.FnOnce matcher }
    ensures { (g : _) → Matches F.FnOnce matcher g → Steps m g s.now result }
{
    match m {
        Match::Missed(f) => Match::Missed(f),
        Match::Took(n, f) => joined(s, n, f, matcher(&s[n..])),
    }
}

// m, or, where it missed, what the matcher takes of s.
#[inline(always)]
pub fn or_else<F: FnOnce(&[u8]) -> Match>(s: &[u8], m: Match, matcher: F) -> Match
    requires within { Within m s.now }
    requires callable { F.IsAlwaysCallable matcher }
    requires fits { Fits F.FnOnce matcher }
    ensures { (g : _) → Matches F.FnOnce matcher g → Tries m g s.now result }
{
    match m {
        Match::Missed(f) => joined(s, 0, f, matcher(s)),
        Match::Took(_, _) => m,
    }
}

// x, or, where x missed, m with the mark of x: an optional part that may be absent.
#[inline(always)]
pub fn optional(s: &[u8], m: Match, x: Match) -> Match
    requires { Within m s.now × Within x s.now }
    ensures { Stays m x s.now result }
{
    match (m, x) {
        (Match::Missed(_), _) => m,
        (Match::Took(n, _), Match::Missed(g)) => Match::Took(n, g),
        (Match::Took(_, _), Match::Took(_, _)) => x,
    }
}
