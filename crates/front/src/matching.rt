// The matchers of the rules, by the rules' numbers: their places in the printed order. They stand in groups, and each group
// hands a number above its own on to the next: C names a rule by its number, and one match of sixty arms is too long a function.
ghost use Rattle.std.specs.Prelude.{◌≡◌, ◌≤◌, ◌<◌};
ghost use Rattle.meaning.specs.Peg.{run, bytewise};
ghost use Rattle.grammar.specs.Matching.{Within, Reads};
ghost use Rattle.lexis.specs.Classes.{one_of};
ghost use Rattle.front.specs.Numbers.{ruled, extent};

use declarations::{files, tests};
use fields::kinds;
use lexis::bytes::Class;
use lexis::{blanks, tokens};
use meaning::Match;
use spans::{FieldDesc, Matched, Tag};

// How much m took, plus 1; 0 where it missed: C is told a number, and no Option.
fn extent(s: &[u8], m: Match) -> usize
    requires { Within m s.now }
    ensures { result ≡ extent m }
{
    match m {
        Match::Missed(_) => 0,
        Match::Took(n, _) => n + 1,
    }
}

// The extent of one byte of a class.
fn one(s: &[u8], class: Class) -> usize
    ensures { result ≡ extent (run (bytewise (one_of class)) s.now) }
{
    match s {
        [first, ..] if lexis::bytes::in_class(class, *first) => 2,
        _ => 0,
    }
}

// The end of input, the whitespace and the comments.
fn blank(rule: u64, s: &[u8]) -> Match
    requires { rule < 5 }
    ensures { Reads (ruled rule) s.now result }
{
    match rule {
        0 => files::end_of_input(s),
        1 => tokens::whitespace(s),
        2 => blanks::comment(s),
        3 => blanks::block_comment(s),
        _ => blanks::line_comment(s),
    }
}

// The declarations and the file, behind which there is no rule.
fn declaration(rule: u64, s: &[u8]) -> Match
    requires { 50 ≤ rule }
    ensures { Reads (ruled rule) s.now result }
{
    match rule {
        50 => declarations::packet_declaration(s),
        51 => declarations::struct_declaration(s),
        52 => declarations::group_declaration(s),
        53 => declarations::checksum_declaration(s),
        54 => declarations::custom_field_declaration(s),
        55 => tests::test_case(s),
        56 => tests::test_case_list(s),
        57 => tests::test_declaration(s),
        58 => declarations::declaration(s),
        59 => files::file(s).at,
        _ => Match::Missed(0),
    }
}

// The descriptions of fields. The answer is handed on whole, so that no function holds several of so wide a type.
fn description(rule: u64, s: &[u8]) -> Matched<FieldDesc>
    requires { (34 ≤ rule) × (rule < 48) }
    ensures { Reads (ruled rule) s.now result.at }
{
    match rule {
        34 => kinds::checksum_field(s),
        35 => kinds::padding_field(s),
        36 => kinds::size_field(s),
        37 => kinds::count_field(s),
        38 => kinds::elementsize_field(s),
        39 => kinds::body_field(s),
        40 => kinds::payload_field(s),
        41 => kinds::fixed_field(s),
        42 => kinds::reserved_field(s),
        43 => kinds::array_field(s),
        44 => kinds::scalar_field(s),
        45 => kinds::typedef_field(s),
        46 => kinds::group_field(s),
        _ => fields::field_desc(s),
    }
}

// The fields.
fn field(rule: u64, s: &[u8]) -> Match
    requires { 34 ≤ rule }
    ensures { Reads (ruled rule) s.now result }
{
    if rule < 48 {
        return description(rule, s).at;
    }
    match rule {
        48 => fields::field(s).at,
        49 => fields::field_list(s),
        _ => declaration(rule, s),
    }
}

// The tags of an enum, whose answers are wide too.
fn tag(rule: u64, s: &[u8]) -> Matched<Tag>
    requires { (25 ≤ rule) × (rule < 30) × (rule ≡ 26 → ⊥) }
    ensures { Reads (ruled rule) s.now result.at }
{
    match rule {
        25 => tags::enum_value(s),
        27 => tags::enum_range(s),
        28 => tags::enum_other(s),
        _ => tags::enum_tag(s),
    }
}

// The endianness line, the enum with its tags, and the constraints.
fn member(rule: u64, s: &[u8]) -> Match
    requires { 24 ≤ rule }
    ensures { Reads (ruled rule) s.now result }
{
    if 33 < rule {
        return field(rule, s);
    }
    match rule {
        24 => files::endianness_declaration(s),
        26 => tags::enum_value_list(s),
        30 => tags::enum_tag_list(s),
        31 => declarations::enum_declaration(s),
        32 => constraints::constraint(s).at,
        33 => constraints::constraint_list(s),
        _ => tag(rule, s).at,
    }
}

// The keywords.
fn keyword(rule: u64, s: &[u8]) -> Match
    requires { 17 ≤ rule }
    ensures { Reads (ruled rule) s.now result }
{
    match rule {
        17 => tokens::keyword(s, b"enum"),
        18 => tokens::keyword(s, b"packet"),
        19 => tokens::keyword(s, b"struct"),
        20 => tokens::keyword(s, b"group"),
        21 => tokens::keyword(s, b"checksum"),
        22 => tokens::keyword(s, b"custom_field"),
        23 => tokens::keyword(s, b"test"),
        _ => member(rule, s),
    }
}

// The names, numbers and strings.
fn token(rule: u64, s: &[u8]) -> Match
    requires { 9 ≤ rule }
    ensures { Reads (ruled rule) s.now result }
{
    match rule {
        9 => tokens::identifier(s),
        10 => tokens::payload_identifier(s),
        11 => tokens::body_identifier(s),
        12 => tokens::intvalue(s),
        13 => tokens::hexvalue(s),
        14 => tokens::integer(s),
        15 => tokens::string(s),
        16 => tokens::size_modifier(s),
        _ => keyword(rule, s),
    }
}

// Matches the rule of a number at the front: how much was taken, plus 1; 0 for a miss, or where there is no such rule.
#[unsafe(no_mangle)]
pub extern "C" fn pdl_match(rule: u64, s: &[u8]) -> usize
    ensures { result ≡ extent (run (bytewise (ruled rule)) s.now) }
{
    if rule < 5 {
        return extent(s, blank(rule, s));
    }
    match rule {
        5 => one(s, Class::Alpha),
        6 => one(s, Class::Digit),
        7 => one(s, Class::Hexdigit),
        8 => one(s, Class::Alphanum),
        _ => extent(s, token(rule, s)),
    }
}
