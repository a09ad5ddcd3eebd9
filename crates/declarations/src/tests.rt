// Test declarations: they must match, and add no row.
ghost use Rattle.meaning.specs.Pdl.{test_case, test_case_list, test_declaration};
ghost use Rattle.grammar.specs.Matching.{Within, Reads, Steps};

use grammar::then;
use lexis::blanks::{next_literal, then_blanks, then_last_comma};
use lexis::lists::then_list;
use lexis::tokens::{keyword, next_identifier, string};
use meaning::Match;

// A test case at the front.
pub fn test_case(s: &[u8]) -> Match
    ensures { Reads test_case s.now result }
{
    string(s)
}

// A test case, where m ends.
fn then_test_case(s: &[u8], m: Match) -> Match
    requires { Within m s.now }
    ensures { Steps m test_case s.now result }
{
    then(s, m, test_case)
}

// A list of test cases, which may have a last comma, where m ends.
fn then_test_case_list(s: &[u8], m: Match) -> Match
    requires { Within m s.now }
    ensures { Steps m test_case_list s.now result }
{
    then_last_comma(s, then_list(s, m, then_test_case))
}

// A list of test cases at the front.
pub fn test_case_list(s: &[u8]) -> Match
    ensures { Reads test_case_list s.now result }
{
    then_test_case_list(s, Match::Took(0, 0))
}

// A test declaration at the front.
pub fn test_declaration(s: &[u8]) -> Match
    ensures { Reads test_declaration s.now result }
{
    let id = next_identifier(s, keyword(s, b"test"));
    let b = then_blanks(s, next_literal(s, id, b"{"));
    next_literal(s, then_test_case_list(s, b), b"}")
}
