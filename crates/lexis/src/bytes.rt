// Bytes by class, runs of a class, and words: one byte of a class and then a run of another.
ghost use Rattle.std.specs.Prelude.{◌≡◌};
ghost use Rattle.meaning.specs.Peg.{seq, star};
ghost use Rattle.grammar.specs.Matching.{Within, Reads, Steps};
ghost use Rattle.lexis.specs.Classes.{spaceb, classed, one_of, Runs};

use grammar::then;
use meaning::Match;

// The classes of bytes that tokens are made of. A class is a value and no closure, since the rules of tokens go by its cases.
#[derive(Clone, Copy)]
pub enum Class {
    Space,
    Alpha,
    Alphanum,
    Digit,
    Hexdigit,
}

// A space, LF, CR or tab.
pub fn is_space(b: u8) -> bool
    ensures { result ≡ spaceb b }
{
    b == b' ' || b == b'\n' || b == b'\r' || b == b'\t'
}

// Whether b is of the class.
pub fn in_class(class: Class, b: u8) -> bool
    ensures { result ≡ classed class b }
{
    match class {
        Class::Space => is_space(b),
        Class::Alpha => b.is_ascii_alphabetic(),
        Class::Alphanum => b.is_ascii_alphanumeric() || b == b'_',
        Class::Digit => b.is_ascii_digit(),
        Class::Hexdigit => b.is_ascii_hexdigit(),
    }
}

// How many bytes from the front are of the class. A loop by index: blank runs and words are gone over by it, and `position` takes a third
// longer.
pub fn run_of(s: &[u8], class: Class) -> usize
    ensures { Runs (classed class) s.now result }
{
    let mut i = 0;
    while i < s.len() {
        if !in_class(class, s[i]) {
            return i;
        }
        i += 1;
    }
    i
}

// One byte of the class head, and then as many of the class tail as there are.
pub fn word_of(s: &[u8], head: Class, tail: Class) -> Match
    ensures { Reads (seq (one_of head) (star (one_of tail))) s.now result }
{
    match s.split_first() {
        Some((b, rest)) if in_class(head, *b) => {
            let n = run_of(rest, tail);
            Match::Took(n + 1, n + 2)
        }
        _ => Match::Missed(1),
    }
}

// A word, where m ends.
pub fn then_word(s: &[u8], m: Match, head: Class, tail: Class) -> Match
    requires { Within m s.now }
    ensures { Steps m (seq (one_of head) (star (one_of tail))) s.now result }
{
    then(s, m, |rest| word_of(rest, head, tail))
}
