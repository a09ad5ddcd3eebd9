// The parts that the kinds of fields share: a name or a number after blanks, a word with a name in parentheses, two tokens
// with a colon between them, choices of tokens, an array's brackets and a group's braces. Where a match missed, its parts are absent.
ghost use Rattle.std.specs.Prelude.{[], ◌∷◌, None};
ghost use Rattle.meaning.specs.Rules.{Rule};
ghost use Rattle.meaning.specs.Peg.{Peg, seq, lit, opt};
ghost use Rattle.meaning.specs.Pdl.{text, ◌~◌, ◌∣◌, skip, identifier, payload_identifier, body_identifier, integer, size_modifier, constraint_list};
ghost use Rattle.meaning.specs.declared.Match.TheVariants.{Took};
ghost use Rattle.grammar.specs.Matching.{Within, Steps};
ghost use Rattle.grammar.specs.Closures.{GoesOn, StepsOver};
ghost use Rattle.lexis.specs.Leaves.{Leaf};
ghost use Rattle.spans.specs.Drawn.{draw_operand, draw_array_size, draw_target, list_at};
ghost use Rattle.spans.specs.Answers.{Continues, Free, MatchedPart, nowhere};
ghost use Rattle.spans.specs.declared.ArraySize.TheVariants.{Unknown};
ghost use Rattle.spans.specs.declared.Operand.TheVariants.{Identifier};
ghost use Rattle.spans.specs.declared.Target.TheVariants.{OfField};
ghost use Rattle.fields.specs.Tokens.{Leafed, Paired};
ghost use Rattle.fields.specs.Named.{Bracketed};

use constraints::then_constraint_list;
use grammar::optional;
use lexis::blanks::{next_literal, then_blanks};
use lexis::texts::then_literal;
use lexis::tokens::{
    then_body_identifier, then_identifier, then_integer, then_payload_identifier,
    then_size_modifier,
};
use meaning::Match;
use spans::{
    ArraySize, Matched, NOWHERE, Operand, Span, Target, between, kept, or_part, then_part,
};

// Two tokens, by names and not by a tuple's numbers, and where there are none.
#[derive(Clone, Copy)]
pub struct Pair {
    pub first: Span,
    pub second: Span,
}

const NO_PAIR: Pair = Pair {
    first: NOWHERE,
    second: NOWHERE,
};

// The byte b after a blank run, where m ends. It is passed by itself, since a text of one byte takes its caller more steps.
pub fn next_byte(s: &[u8], m: Match, b: u8) -> Match
    requires { Within m s.now }
    ensures { Steps m (seq skip (lit (b ∷ []))) s.now result }
{
    next_literal(s, m, &[b])
}

// A token after a blank run, where m ends.
fn next_token<F: Fn(&[u8], Match) -> Match>(s: &[u8], m: Match, then_token: F) -> Matched<Span>
    requires within { Within m s.now }
    requires callable { GoesOn F.Fn then_token }
    ensures { (k : Rule) (g : Peg) → Leaf k g → StepsOver F.Fn then_token g → Leafed k m (seq skip g) s.now result }
{
    let b = then_blanks(s, m);
    let at = then_token(s, b);
    Matched {
        at,
        value: kept(at, between(b, at), NOWHERE),
    }
}

// A name after a blank run, where m ends.
pub fn next_name(s: &[u8], m: Match) -> Matched<Span>
    requires { Within m s.now }
    ensures { Leafed Rule.identifier m (seq skip identifier) s.now result }
{
    next_token(s, m, then_identifier)
}

// A number after a blank run, where m ends.
pub fn next_number(s: &[u8], m: Match) -> Matched<Span>
    requires { Within m s.now }
    ensures { Leafed Rule.integer m (seq skip integer) s.now result }
{
    next_token(s, m, then_integer)
}

// A word and a name in parentheses, where m ends.
pub fn then_labelled(s: &[u8], m: Match, word: &[u8]) -> Matched<Span>
    requires { Within m s.now }
    ensures { Leafed Rule.identifier m (lit word.now ~ text "(" ~ identifier ~ text ")") s.now result }
{
    let id = next_name(s, next_byte(s, then_literal(s, m, word), b'('));
    let at = next_byte(s, id.at, b')');
    Matched {
        at,
        value: kept(at, id.value, NOWHERE),
    }
}

// A word, a name in parentheses, a colon and a width: a count or an element size.
pub fn counted(s: &[u8], word: &[u8]) -> Matched<Pair>
    ensures { Paired Rule.identifier Rule.integer (Took 0 0) (lit word.now ~ text "(" ~ identifier ~ text ")" ~ text ":" ~ integer)
        s.now result }
{
    let id = then_labelled(s, Match::Took(0, 0), word);
    let width = next_number(s, next_byte(s, id.at, b':'));
    let pair = Pair {
        first: id.value,
        second: width.value,
    };
    Matched {
        at: width.at,
        value: kept(width.at, pair, NO_PAIR),
    }
}

// Two tokens with a colon between them, where m ends.
fn then_pair<F: Fn(&[u8], Match) -> Match>(s: &[u8], m: Match, then_token: F) -> Matched<Pair>
    requires within { Within m s.now }
    requires callable { GoesOn F.Fn then_token }
    requires steps { (g : Peg) × StepsOver F.Fn then_token g }
    ensures { (k : Rule) (g : Peg) → Leaf k g → StepsOver F.Fn then_token g → Paired k k m (g ~ text ":" ~ g) s.now result }
{
    let a = then_token(s, m);
    let second = next_token(s, next_byte(s, a, b':'), then_token);
    let pair = Pair {
        first: between(m, a),
        second: second.value,
    };
    Matched {
        at: second.at,
        value: kept(second.at, pair, NO_PAIR),
    }
}

// Two names with a colon between them, where m ends.
pub fn then_names(s: &[u8], m: Match) -> Matched<Pair>
    requires { Within m s.now }
    ensures { Paired Rule.identifier Rule.identifier m (identifier ~ text ":" ~ identifier) s.now result }
{
    then_pair(s, m, then_identifier)
}

// Two numbers with a colon between them, where m ends.
pub fn then_numbers(s: &[u8], m: Match) -> Matched<Pair>
    requires { Within m s.now }
    ensures { Paired Rule.integer Rule.integer m (integer ~ text ":" ~ integer) s.now result }
{
    then_pair(s, m, then_integer)
}

// What a size is of: a field, the payload or the body, where m ends.
pub fn then_target(s: &[u8], m: Match) -> Matched<Target>
    requires { Within m s.now }
    ensures { Continues m (identifier ∣ payload_identifier ∣ body_identifier) s.now result.at (λ x o. draw_target o x) Free
        (OfField nowhere) result.value }
{
    let none = Target::OfField(NOWHERE);
    let field = then_part(s, m, then_identifier, |x| Target::OfField(x), none);
    let payload = or_part(
        s,
        m,
        field,
        then_payload_identifier,
        |x| Target::OfPayload(x),
    );
    or_part(s, m, payload, then_body_identifier, |x| Target::OfBody(x))
}

// An array's element: a width or a type, where m ends.
pub fn then_element(s: &[u8], m: Match) -> Matched<Operand>
    requires { Within m s.now }
    ensures { Continues m (integer ∣ identifier) s.now result.at (λ x o. draw_operand o x) Free (Identifier nowhere) result.value }
{
    let none = Operand::Identifier(NOWHERE);
    let width = then_part(s, m, then_integer, |x| Operand::Integer(x), none);
    or_part(s, m, width, then_identifier, |x| Operand::Identifier(x))
}

// An array's size: a modifier or a number, where m ends.
pub fn then_size(s: &[u8], m: Match) -> Matched<ArraySize>
    requires { Within m s.now }
    ensures { Continues m (size_modifier ∣ integer) s.now result.at (λ x o. draw_array_size o x) Free Unknown result.value }
{
    let none = ArraySize::Unknown;
    let modifier = then_part(s, m, then_size_modifier, |x| ArraySize::Modifier(x), none);
    or_part(s, m, modifier, then_integer, |x| ArraySize::Known(x))
}

// `[size]` behind an element, where m ends; the size may be a modifier, or missing.
pub fn then_brackets(s: &[u8], m: Match) -> Matched<ArraySize>
    requires { Within m s.now }
    ensures { Bracketed m s.now result }
{
    let b = then_blanks(s, next_byte(s, m, b'['));
    let size = then_size(s, b);
    let at = next_byte(s, optional(s, b, size.at), b']');
    Matched {
        at,
        value: kept(at, size.value, ArraySize::Unknown),
    }
}

// `{constraints}` behind a name, where m ends; the list or all of it may be missing.
pub fn then_braces(s: &[u8], m: Match) -> Matched<Option<Span>>
    requires { Within m s.now }
    ensures { Continues m (seq skip (opt (text "{" ~ opt constraint_list ~ text "}"))) s.now result.at
        (λ p o. list_at constraint_list o s.now p) (λ p. MatchedPart constraint_list s.now p) None result.value }
{
    let b = then_blanks(s, m);
    let left = then_literal(s, b, b"{");
    // Most groups have no constraints: nothing is tried behind a `{` that is missing.
    if let Match::Missed(_) = left {
        return Matched {
            at: optional(s, b, left),
            value: None,
        };
    }
    let c = then_blanks(s, left);
    let list = then_constraint_list(s, c);
    let braces = next_byte(s, optional(s, c, list), b'}');
    let inner = kept(list, Some(between(c, list)), None);
    Matched {
        at: optional(s, b, braces),
        value: kept(braces, inner, None),
    }
}
