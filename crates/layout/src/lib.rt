// Feeding a packet, struct or group to the aligner: first every field is judged and nothing is written, then the rows are placed.
// Two tables are read and two written, so they stay parameters: the judging pass is lent the last two without leave to write.
#![tactic(auto)]

ghost use Rattle.std.specs.Prelude.{◌≡◌, ◌-◌, Ok, IfOk};
ghost use Rattle.meaning.specs.Alignment.{fresh, world};
ghost use Rattle.meaning.specs.Feeding.{feed_fields, feed_number, layout};
ghost use Rattle.alignment.specs.Answers.{called};
ghost use Rattle.layout.specs.declared.Refusal.TheVariants.{Aligner};
ghost use Rattle.layout.specs.Refusals.{number, refused};
ghost use Rattle.layout.specs.Requests.{served};
ghost use Rattle.layout.specs.Judging.{Among, Accepted, answered};

use crate::judging::judge_fields;
use crate::requests::{field_request, word_of};
use ast::numbers;
use ast::numbers::DECLARATION_WORDS;
use ast::words::{DECLARATION_COUNT, DECLARATION_FIRST, ROW_KIND};
use meaning::Aligner;
use std::ops::Range;

mod judging;
mod requests;

// Why a feeding is refused.
#[derive(Clone, Copy, Debug, PartialEq, Eq, Hash)]
pub enum Refusal {
    NoSuchDeclaration,
    DamagedRow,
    WidthNotInSyntax,
    Aligner(alignment::Refusal),
}

impl Refusal {
    // The refusal's number, as it crosses to C.
    pub fn number(self) -> u64
        ensures { result ≡ number self }
    {
        match self {
            Refusal::NoSuchDeclaration => numbers::NO_SUCH_DECLARATION,
            Refusal::DamagedRow => numbers::DAMAGED_ROW,
            Refusal::WidthNotInSyntax => numbers::WIDTH_NOT_IN_SYNTAX,
            Refusal::Aligner(refusal) => refusal.number(),
        }
    }
}

impl From<alignment::Refusal> for Refusal {
    ghost from_gives = { λ e r. r ≡ Aligner e };

    fn from(refusal: alignment::Refusal) -> Refusal {
        Refusal::Aligner(refusal)
    }
}

// A refusal with its place: the declaration's row, the field's row, or at the end the first staged field row.
#[derive(Clone, Copy, Debug, PartialEq, Eq, Hash)]
pub struct Refused {
    pub refusal: Refusal,
    pub place: usize,
}

// What an accepted feeding answers: the counts of placed and chunk rows.
#[derive(Clone, Copy, Debug, PartialEq, Eq, Hash)]
pub struct Layout {
    pub placed: usize,
    pub chunks: usize,
}

// What a field row asks of the aligner.
#[derive(Clone, Copy)]
enum Request {
    Nothing,
    Bits(u64),
    Dynamic,
}

// Feeds a request to the aligner; the symbol is the field row's index.
#[tactic(auto, unfolding(crate::specs::Requests::served))]
fn place_field(
    asked: Request,
    symbol: u64,
    a: Aligner,
    placed: &mut [u64],
    chunks: &mut [u64],
) -> Result<Aligner, alignment::Refusal>
    ensures { called a result placed.new chunks.new ≡ served (Ok asked) symbol (world a placed.old chunks.old) }
{
    match asked {
        Request::Nothing => Ok(a),
        Request::Bits(width) => alignment::add_bitfield(a, placed, chunks, symbol, width),
        Request::Dynamic => alignment::add_dyn_bytes(a, placed, chunks, symbol),
    }
}

// Feeds fields that were judged and accepted.
fn place_fields(
    fields: &[u64],
    rows: &Range<usize>,
    placed: &mut [u64],
    chunks: &mut [u64],
) -> Aligner
    requires { Accepted fields.now rows.now.start rows.now.end placed.old chunks.old }
    ensures { world result placed.new chunks.new
        ≡ (feed_fields fields.now (rows.now.end - rows.now.start) rows.now.start (world fresh placed.old chunks.old)).left }
{
    let mut a = Aligner::new();
    for i in rows.start..rows.end {
        let asked = field_request(fields, i).unwrap();
        a = place_field(asked, i as u64, a, placed, chunks).unwrap();
    }
    a
}

// The field rows of a declaration, if there is such a declaration and they are among the rows; first plus count never wraps.
#[tactic(auto, unfolding(meaning::specs::Feeding::feed_number))]
fn field_rows(declarations: &[u64], fields: &[u64], index: usize) -> Result<Range<usize>, Refusal>
    ensures number { refused result ≡ feed_number declarations.now fields.now index }
    ensures rows { IfOk result (λ rows. Among declarations.now fields.now index rows.start rows.end) }
{
    if declarations.len() / DECLARATION_WORDS <= index {
        return Err(Refusal::NoSuchDeclaration);
    }
    // A kind is a number here, as in a lent row: this crate does not rest on those that have enums of them.
    let kind = word_of(declarations, DECLARATION_WORDS, index, ROW_KIND);
    if !matches!(kind, 2..=4) {
        return Err(Refusal::NoSuchDeclaration);
    }
    let rows = (fields.len() / numbers::FIELD_WORDS) as u64;
    let first = word_of(declarations, DECLARATION_WORDS, index, DECLARATION_FIRST);
    let count = word_of(declarations, DECLARATION_WORDS, index, DECLARATION_COUNT);
    if rows < count || rows - count < first {
        return Err(Refusal::DamagedRow);
    }
    Ok(first as usize..(first + count) as usize)
}

// Lays out the fields of a packet, struct or group. A refused feeding leaves both tables as they came.
pub fn lay_out(
    declarations: &[u64],
    fields: &[u64],
    index: usize,
    placed: &mut [u64],
    chunks: &mut [u64],
) -> Result<Layout, Refused>
    ensures { answered result placed.new chunks.new
        ≡ layout declarations.now fields.now index placed.old chunks.old }
{
    let rows = field_rows(declarations, fields, index).map_err(|refusal| Refused {
        refusal,
        place: index,
    })?;
    judge_fields(fields, &rows, placed, chunks)?;
    let a = place_fields(fields, &rows, placed, chunks);
    Ok(Layout {
        placed: a.placed,
        chunks: a.chunks,
    })
}
