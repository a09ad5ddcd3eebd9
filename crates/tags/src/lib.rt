// Tags of an enum: `id = value`, `id = start .. end` with values in braces or none, and `id = ..`; alone and in lists.
#![tactic(auto)]

ghost use Rattle.std.specs.Prelude.{◌≡◌};
ghost use Rattle.meaning.specs.Choice.{pick};
ghost use Rattle.meaning.specs.Peg.{hit};
ghost use Rattle.meaning.specs.Pdl.{enum_value, enum_value_list, enum_range, enum_other, enum_tag, enum_tag_list};
ghost use Rattle.grammar.specs.Matching.{Within, Reads, Steps};
ghost use Rattle.spans.specs.Answers.{Tagged, Enumerated, no_tag};
ghost use Rattle.tags.specs.Fronts.{Front, InBraces, Ranged};

use grammar::{optional, then};
use lexis::blanks::{next_literal, then_blanks, then_last_comma};
use lexis::lists::then_list;
use lexis::texts::then_literal;
use lexis::tokens::{then_identifier, then_integer};
use meaning::Match;
use spans::{Matched, NO_TAG, Span, Tag, TagOther, TagRange, TagValue, between, kept};

// A tag with its match, where that took; else none. What a miss answers is named here, once for every tag.
#[inline(always)]
fn tagged(at: Match, tag: Tag) -> Matched<Tag>
    ensures { (result.at ≡ at) × (result.value ≡ pick (hit at) tag no_tag) }
{
    Matched {
        at,
        value: kept(at, tag, NO_TAG),
    }
}

// The front that all tags share, a name, `=`, and blanks: where these end, with the name.
fn front(s: &[u8]) -> Matched<Span>
    ensures { Front s.now result.at result.value }
{
    let first = Match::Took(0, 0);
    let a = then_identifier(s, first);
    Matched {
        at: then_blanks(s, next_literal(s, a, b"=")),
        value: between(first, a),
    }
}

// A name and its value.
pub fn enum_value(s: &[u8]) -> Matched<Tag>
    ensures { Tagged enum_value s.now result }
{
    let label = front(s);
    let at = then_integer(s, label.at);
    let value = between(label.at, at);
    let tag = TagValue {
        id: label.value,
        value,
    };
    tagged(at, Tag::Value(tag))
}

// A name and its value, where m ends. The closure has clauses of its own, which a function for this and the like would have to ask.
pub fn then_enum_value(s: &[u8], m: Match) -> Match
    requires { Within m s.now }
    ensures { Steps m enum_value s.now result }
{
    let matcher = |rest: &[u8]|
        ensures { Reads enum_value rest.now result }
    { enum_value(rest).at };
    then(s, m, matcher)
}

// A list of values, where m ends.
pub fn then_enum_value_list(s: &[u8], m: Match) -> Match
    requires { Within m s.now }
    ensures { Steps m enum_value_list s.now result }
{
    then_last_comma(s, then_list(s, m, then_enum_value))
}

// A list of values at the front.
pub fn enum_value_list(s: &[u8]) -> Match
    ensures { Reads enum_value_list s.now result }
{
    then_enum_value_list(s, Match::Took(0, 0))
}

// Values in braces, or nothing, where m ends: where they end, with their list.
fn then_braces(s: &[u8], m: Match) -> Matched<Option<Span>>
    requires { Within m s.now }
    ensures { InBraces m s.now result.at result.value }
{
    let a = then_blanks(s, then_literal(s, m, b"{"));
    let list = then_enum_value_list(s, a);
    let x = next_literal(s, list, b"}");
    Matched {
        at: optional(s, m, x),
        value: kept(x, Some(between(a, list)), None),
    }
}

// The rest of a range, whose first value ends at low: its last value, and values in braces; without these the range ends
// after the blanks.
#[inline(always)]
fn then_range(s: &[u8], label: Matched<Span>, low: Match) -> Matched<Tag>
    requires { Within low s.now }
    ensures { Ranged label low s.now result }
{
    let c = then_blanks(s, next_literal(s, low, b".."));
    let high = then_integer(s, c);
    // The most frequent tag is a plain value: nothing is tried behind a `..` that is missing.
    if let Match::Missed(_) = high {
        return tagged(high, NO_TAG);
    }
    let braces = then_braces(s, then_blanks(s, high));
    let range = TagRange {
        id: label.value,
        start: between(label.at, low),
        end: between(c, high),
        tags: braces.value,
    };
    tagged(braces.at, Tag::Range(range))
}

// A name, its first and last value, and values in braces.
pub fn enum_range(s: &[u8]) -> Matched<Tag>
    ensures { Tagged enum_range s.now result }
{
    let label = front(s);
    then_range(s, label, then_integer(s, label.at))
}

// A name for all other values.
pub fn enum_other(s: &[u8]) -> Matched<Tag>
    ensures { Tagged enum_other s.now result }
{
    let label = front(s);
    let at = then_literal(s, label.at, b"..");
    tagged(at, Tag::Other(TagOther { id: label.value }))
}

// A tag: a range, else a value, else the name for all others. What they share is matched once: a range that misses behind
// its first integer is a value, and where no integer stands only the name for all others is left.
pub fn enum_tag(s: &[u8]) -> Matched<Tag>
    ensures { Enumerated enum_tag s.now result }
{
    let label = front(s);
    let low = then_integer(s, label.at);
    if let Match::Missed(_) = low {
        let at = then_literal(s, optional(s, label.at, low), b"..");
        return tagged(at, Tag::Other(TagOther { id: label.value }));
    }
    let range = then_range(s, label, low);
    if let Match::Missed(_) = range.at {
        let tag = TagValue {
            id: label.value,
            value: between(label.at, low),
        };
        return tagged(optional(s, low, range.at), Tag::Value(tag));
    }
    range
}

// A tag, where m ends, by such a closure.
pub fn then_enum_tag(s: &[u8], m: Match) -> Match
    requires { Within m s.now }
    ensures { Steps m enum_tag s.now result }
{
    let matcher = |rest: &[u8]|
        ensures { Reads enum_tag rest.now result }
    { enum_tag(rest).at };
    then(s, m, matcher)
}

// A list of tags, where m ends.
pub fn then_enum_tag_list(s: &[u8], m: Match) -> Match
    requires { Within m s.now }
    ensures { Steps m enum_tag_list s.now result }
{
    then_last_comma(s, then_list(s, m, then_enum_tag))
}

// A list of tags at the front.
pub fn enum_tag_list(s: &[u8]) -> Match
    ensures { Reads enum_tag_list s.now result }
{
    then_enum_tag_list(s, Match::Took(0, 0))
}
