// What a field row asks of the aligner: its words decide, and not the aligner's state.
ghost use Rattle.std.specs.Prelude.{◌≡◌, ◌<◌};
ghost use Rattle.meaning.specs.Tables.{Table, size, room};
ghost use Rattle.meaning.specs.Feeding.{word};
ghost use Rattle.layout.specs.Requests.{damage, by_kind, request};

use crate::{Refusal, Request};
use ast::{numbers, words};

// A word of a whole row.
pub fn word_of(t: &[u64], size: usize, k: usize, i: usize) -> u64
    requires { (k < room size t.now) × (i < size) }
    ensures { result ≡ word t.now size k i }
{
    t[k * size + i]
}

// Whether a row is damaged, by its kind and both number flags. All three are words of a lent table, and may be any numbers: what
// is no kind is found here, so that no enum of the kinds could be read before.
#[tactic(auto, unfolding(crate::specs::Requests::damage))]
fn is_damaged(kind: u64, flag: u64, other: u64) -> bool
    ensures { result ≡ damage kind flag other }
{
    !matches!(kind, 1..=14)
        || 1 < flag
        || 1 < other
        || (flag == 0 && matches!(kind, 2 | 3 | 4 | 5 | 8 | 10 | 12))
}

// What a kind asks for, without a condition. A kind is a number: this crate does not rest on the walk, where fields have an enum of them.
#[tactic(auto, unfolding(crate::specs::Requests::by_kind))]
fn kind_request(kind: u64, width: u64) -> Result<Request, Refusal>
    ensures { result ≡ by_kind kind width }
{
    match kind {
        3 | 4 | 5 | 8 | 10 | 12 => Ok(Request::Bits(width)),
        6 | 7 | 11 => Ok(Request::Dynamic),
        1 | 2 => Ok(Request::Nothing),
        _ => Err(Refusal::WidthNotInSyntax),
    }
}

// What a field row asks for: a condition makes any kind dynamic bytes.
#[tactic(auto, unfolding(crate::specs::Requests::request))]
pub fn field_request(fields: &[u64], i: usize) -> Result<Request, Refusal>
    requires { i < room (size Table.fields) fields.now }
    ensures { result ≡ request fields.now i }
{
    let kind = word_of(fields, numbers::FIELD_WORDS, i, words::ROW_KIND);
    let flag = word_of(fields, numbers::FIELD_WORDS, i, words::FIELD_FLAG_A);
    let other = word_of(fields, numbers::FIELD_WORDS, i, words::FIELD_FLAG_B);
    if is_damaged(kind, flag, other) {
        return Err(Refusal::DamagedRow);
    }
    let condition = word_of(fields, numbers::FIELD_WORDS, i, words::FIELD_CONDITION);
    if 0 < condition {
        return Ok(Request::Dynamic);
    }
    let width = word_of(fields, numbers::FIELD_WORDS, i, words::FIELD_NUMBER_A);
    kind_request(kind, width)
}
