// The file: its endianness line, its declarations, and where they stop.
ghost use Rattle.meaning.specs.Peg.{alt};
ghost use Rattle.meaning.specs.Pdl.{text, repeat, endianness_declaration, declaration, EOI};
ghost use Rattle.grammar.specs.Matching.{Within, Reads, Steps};
ghost use Rattle.declarations.specs.Files.{Files};

use crate::then_declaration;
use grammar::{optional, then};
use lexis::blanks::then_blanks;
use lexis::lists::then_many;
use lexis::texts::either_literal;
use lexis::tokens::then_whitespace;
use meaning::Match;
use spans::kept;

// The match of a file, and 01's place of 3 for where it missed. It is no `Matched`, whose value says nothing of a miss.
#[derive(Clone, Copy)]
pub struct FileMatch {
    pub at: Match,
    pub place: usize,
}

// The two words of the endianness.
fn endianness(s: &[u8]) -> Match
    ensures { Reads (alt (text "little_endian_packets") (text "big_endian_packets")) s.now result }
{
    either_literal(s, b"little_endian_packets", b"big_endian_packets")
}

// The endianness line at the front.
pub fn endianness_declaration(s: &[u8]) -> Match
    ensures { Reads endianness_declaration s.now result }
{
    then_whitespace(s, endianness(s))
}

// The endianness line, where m ends.
fn then_endianness_declaration(s: &[u8], m: Match) -> Match
    requires { Within m s.now }
    ensures { Steps m endianness_declaration s.now result }
{
    then(s, m, endianness_declaration)
}

// All declarations that follow m, each matched once.
fn then_declarations(s: &[u8], m: Match) -> Match
    requires { Within m s.now }
    ensures { Steps m (repeat declaration) s.now result }
{
    optional(s, m, then_many(s, then_declaration(s, m), then_declaration))
}

// The end of input.
pub fn end_of_input(s: &[u8]) -> Match
    ensures { Reads EOI s.now result }
{
    if s.is_empty() {
        return Match::Took(0, 0);
    }
    Match::Missed(1)
}

// The end of input, where m ends.
fn then_end(s: &[u8], m: Match) -> Match
    requires { Within m s.now }
    ensures { Steps m EOI s.now result }
{
    then(s, m, end_of_input)
}

// A whole file. Its place is where head ended, if there is the endianness line; else where start did.
pub fn file(s: &[u8]) -> FileMatch
    ensures { Files s.now result }
{
    let start = then_blanks(s, Match::Took(0, 0));
    let line = then_endianness_declaration(s, start);
    let head = then_blanks(s, then_declarations(s, then_blanks(s, line)));
    FileMatch {
        at: then_end(s, head),
        place: kept(line, head.taken(), start.taken()),
    }
}
