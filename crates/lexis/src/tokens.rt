// Names, numbers, strings and keywords: the atomic rules, with no blank between their parts.
ghost use Rattle.meaning.specs.Peg.{lit, seq};
ghost use Rattle.meaning.specs.Pdl.{WHITESPACE, skip, identifier, payload_identifier, body_identifier, intvalue, hexvalue, integer, string, size_modifier};
ghost use Rattle.grammar.specs.Matching.{Within, Reads, Steps};

use crate::blanks::then_blanks;
use crate::bytes::{Class, is_space, then_word, word_of};
use crate::texts::{either_literal, enclosed, literal, then_literal};
use grammar::{or_else, then};
use meaning::Match;

// A name: a letter, then letters, digits and underscores.
pub fn identifier(s: &[u8]) -> Match
    ensures { Reads identifier s.now result }
{
    word_of(s, Class::Alpha, Class::Alphanum)
}

// A name, where m ends.
pub fn then_identifier(s: &[u8], m: Match) -> Match
    requires { Within m s.now }
    ensures { Steps m identifier s.now result }
{
    then_word(s, m, Class::Alpha, Class::Alphanum)
}

// A name after a blank run, where m ends.
pub fn next_identifier(s: &[u8], m: Match) -> Match
    requires { Within m s.now }
    ensures { Steps m (seq skip identifier) s.now result }
{
    then_identifier(s, then_blanks(s, m))
}

// The payload's name.
pub fn payload_identifier(s: &[u8]) -> Match
    ensures { Reads payload_identifier s.now result }
{
    literal(s, b"_payload_")
}

// The payload's name, where m ends.
pub fn then_payload_identifier(s: &[u8], m: Match) -> Match
    requires { Within m s.now }
    ensures { Steps m payload_identifier s.now result }
{
    then_literal(s, m, b"_payload_")
}

// The body's name.
pub fn body_identifier(s: &[u8]) -> Match
    ensures { Reads body_identifier s.now result }
{
    literal(s, b"_body_")
}

// The body's name, where m ends.
pub fn then_body_identifier(s: &[u8], m: Match) -> Match
    requires { Within m s.now }
    ensures { Steps m body_identifier s.now result }
{
    then_literal(s, m, b"_body_")
}

// A number in base 10.
#[tactic(auto, unfolding(meaning::specs::Pdl::intvalue))]
pub fn intvalue(s: &[u8]) -> Match
    ensures { Reads intvalue s.now result }
{
    word_of(s, Class::Digit, Class::Digit)
}

// A number in base 16.
pub fn hexvalue(s: &[u8]) -> Match
    ensures { Reads hexvalue s.now result }
{
    let prefix = either_literal(s, b"0x", b"0X");
    then_word(s, prefix, Class::Hexdigit, Class::Hexdigit)
}

// A number.
pub fn integer(s: &[u8]) -> Match
    ensures { Reads integer s.now result }
{
    or_else(s, hexvalue(s), intvalue)
}

// A number, where m ends.
pub fn then_integer(s: &[u8], m: Match) -> Match
    requires { Within m s.now }
    ensures { Steps m integer s.now result }
{
    then(s, m, integer)
}

// A text in quotes, with no escapes.
pub fn string(s: &[u8]) -> Match
    ensures { Reads string s.now result }
{
    enclosed(s, b"\"", b"\"")
}

// A text in quotes, where m ends.
pub fn then_string(s: &[u8], m: Match) -> Match
    requires { Within m s.now }
    ensures { Steps m string s.now result }
{
    then(s, m, string)
}

// A plus sign and a number in base 10.
pub fn size_modifier(s: &[u8]) -> Match
    ensures { Reads size_modifier s.now result }
{
    then_word(s, literal(s, b"+"), Class::Digit, Class::Digit)
}

// A size modifier, where m ends.
pub fn then_size_modifier(s: &[u8], m: Match) -> Match
    requires { Within m s.now }
    ensures { Steps m size_modifier s.now result }
{
    then_word(s, then_literal(s, m, b"+"), Class::Digit, Class::Digit)
}

// One whitespace character. The space is tried first, so only with the others has a try failed.
pub fn whitespace(s: &[u8]) -> Match
    ensures { Reads WHITESPACE s.now result }
{
    match s.first() {
        Some(b' ') => Match::Took(1, 0),
        Some(b) if is_space(*b) => Match::Took(1, 1),
        _ => Match::Missed(1),
    }
}

// One whitespace character, where m ends.
pub fn then_whitespace(s: &[u8], m: Match) -> Match
    requires { Within m s.now }
    ensures { Steps m WHITESPACE s.now result }
{
    then(s, m, whitespace)
}

// A keyword: the word, and one whitespace character directly after it.
pub fn keyword(s: &[u8], word: &[u8]) -> Match
    ensures { Reads (seq (lit word.now) WHITESPACE) s.now result }
{
    then_whitespace(s, literal(s, word))
}
