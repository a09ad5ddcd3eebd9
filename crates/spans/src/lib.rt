// What the matchers of rules that make rows answer beside their match: where the rule's parts stand, as the nodes of the
// forest have them. Starts are counted from the start of the text that the matcher was given. A part that may be left out is
// an Option: a header's parent, width, function or list, a range's or a group's list, a payload's modifier, a field's condition.
#![tactic(auto)]

ghost use Rattle.std.specs.Prelude.{◌≡◌, ℕ};
ghost use Rattle.meaning.specs.Choice.{pick};
ghost use Rattle.meaning.specs.Rules.{Rule};
ghost use Rattle.meaning.specs.Peg.{Peg, hit};
ghost use Rattle.meaning.specs.Forest.{Forest};
ghost use Rattle.meaning.specs.Pdl.{◌∣◌};
ghost use Rattle.grammar.specs.Matching.{Within};
ghost use Rattle.grammar.specs.Closures.{GoesOn, StepsOver};
ghost use Rattle.lexis.specs.Leaves.{Leaf};
ghost use Rattle.spans.specs.Spans.{span_of};
ghost use Rattle.spans.specs.Answers.{Continues, Free};
ghost use Rattle.spans.specs.Makers.{Makes};

use grammar::optional;
use meaning::Match;

// A match, and what was matched: where the match missed, the value is the one that stands for none. It is no Option: each step reads
// where its parts ended, so an Option would be opened at every step.
#[derive(Clone, Copy)]
pub struct Matched<T> {
    pub at: Match,
    pub value: T,
}

// A part's first byte and its length.
#[derive(Clone, Copy)]
pub struct Span {
    pub start: usize,
    pub len: usize,
}

// A name or a number: a constraint's value, an array's element.
#[derive(Clone, Copy)]
pub enum Operand {
    Identifier(Span),
    Integer(Span),
}

// An array's size: none, a modifier or a number.
#[derive(Clone, Copy)]
pub enum ArraySize {
    Unknown,
    Modifier(Span),
    Known(Span),
}

// What `_size_` names: a field, the payload or the body.
#[derive(Clone, Copy)]
pub enum Target {
    OfField(Span),
    OfPayload(Span),
    OfBody(Span),
}

// A constraint (ast::Constraint): its own place, its id, and the tag's name or the integer.
#[derive(Clone, Copy)]
pub struct Constraint {
    pub span: Span,
    pub id: Span,
    pub value: Operand,
}

// The tags of an enum (ast::Tag): a value, a range with its inner list, the default.
#[derive(Clone, Copy)]
pub struct TagValue {
    pub id: Span,
    pub value: Span,
}

#[derive(Clone, Copy)]
pub struct TagRange {
    pub id: Span,
    pub start: Span,
    pub end: Span,
    pub tags: Option<Span>,
}

#[derive(Clone, Copy)]
pub struct TagOther {
    pub id: Span,
}

#[derive(Clone, Copy)]
pub enum Tag {
    Value(TagValue),
    Range(TagRange),
    Other(TagOther),
}

// What a field says (ast::FieldDesc), in the order of the kinds 1 to 14.
#[derive(Clone, Copy)]
pub enum FieldDesc {
    Checksum(Span),
    Padding(Span),
    Size(Target, Span),
    Count(Span, Span),
    ElementSize(Span, Span),
    Body,
    Payload(Option<Span>),
    FixedScalar(Span, Span),
    FixedEnum(Span, Span),
    Reserved(Span),
    Array(Span, Operand, ArraySize),
    Scalar(Span, Span),
    Typedef(Span, Span),
    Group(Span, Option<Span>),
}

// A whole field: its description, which ends where it matched, and its condition.
#[derive(Clone, Copy)]
pub struct Field {
    pub desc: Matched<FieldDesc>,
    pub condition: Option<Constraint>,
}

// The head of a declaration up to its first list or its end: what the row of a declaration needs.
#[derive(Clone, Copy)]
pub struct Header {
    pub keyword: Span,
    pub id: Span,
    pub parent: Option<Span>,
    pub width: Option<Span>,
    pub function: Option<Span>,
    pub constraints: Option<Span>,
}

// What stands where nothing was matched: no place, no constraint, no tag, and the head of no declaration.
pub const NOWHERE: Span = Span { start: 0, len: 0 };

pub const NO_CONSTRAINT: Constraint = Constraint {
    span: NOWHERE,
    id: NOWHERE,
    value: Operand::Identifier(NOWHERE),
};

pub const NO_TAG: Tag = Tag::Other(TagOther { id: NOWHERE });

pub const NO_HEADER: Header = Header {
    keyword: NOWHERE,
    id: NOWHERE,
    parent: None,
    width: None,
    function: None,
    constraints: None,
};

// From where m ended to where r ends.
pub fn between(m: Match, r: Match) -> Span
    ensures { result ≡ span_of m r }
{
    let a = m.taken();
    let b = r.taken();
    if b < a {
        return Span { start: a, len: 0 };
    }
    Span {
        start: a,
        len: b - a,
    }
}

// A value, where the match x that it stands in took; else the one that stands for none. The match itself stands beside it where both are
// answered, since a contract names the two.
pub fn kept<T: Copy>(x: Match, value: T, none: T) -> T
    ensures { result ≡ pick (hit x) value none }
{
    if x.is_hit() {
        return value;
    }
    none
}

// A token, where m ends, with the part that is made of where it stands.
pub fn then_part<T: Copy, F: Fn(&[u8], Match) -> Match, A: FnOnce(Span) -> T>(
    s: &[u8],
    m: Match,
    then_token: F,
    part: A,
    absent: T,
) -> Matched<T>
    requires within { Within m s.now }
    requires callable { GoesOn F.Fn then_token }
    requires made { A.IsAlwaysCallable part }
    ensures { (g : Peg) (k : Rule) (draw : T → ℕ → Forest) → Leaf k g → StepsOver F.Fn then_token g → Makes A.FnOnce part k draw
        → Continues m g s.now result.at draw Free absent result.value }
{
    let at = then_token(s, m);
    Matched {
        at,
        value: kept(at, part(between(m, at)), absent),
    }
}

// d, or, where it missed, such a token where m ends, with the mark of d.
pub fn or_part<T: Copy, F: Fn(&[u8], Match) -> Match, A: FnOnce(Span) -> T>(
    s: &[u8],
    m: Match,
    d: Matched<T>,
    then_token: F,
    part: A,
) -> Matched<T>
    requires within { Within m s.now × Within d.at s.now }
    requires callable { GoesOn F.Fn then_token }
    requires made { A.IsAlwaysCallable part }
    ensures { (g h : Peg) (k : Rule) (draw : T → ℕ → Forest) (absent : T) → Continues m g s.now d.at draw Free absent d.value
        → Leaf k h → StepsOver F.Fn then_token h → Makes A.FnOnce part k draw
        → Continues m (g ∣ h) s.now result.at draw Free absent result.value }
{
    match d.at {
        Match::Took(_, _) => d,
        Match::Missed(_) => then_part(s, optional(s, m, d.at), then_token, part, d.value),
    }
}
