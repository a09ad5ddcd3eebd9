// The byte aligner's core (alignment.rs, `ByteAligner`): a state by value over two lent tables of words. The three stay parameters:
// a judge only reads the tables that an adder writes. A chunk's kind is 1, 2 or 3, as its row has it, and is written in one place each.
#![tactic(auto)]

ghost use Rattle.std.specs.Prelude.{◌≡◌, not, ◌≤◌, OnOk, IsOkUnless};
ghost use Rattle.meaning.specs.Alignment.{world, staged, sound, due, bits_number, bytes_number, dyn_number, end_number, call, add_bitfield, add_bytes, add_dyn_bytes};
ghost use Rattle.alignment.specs.Refusals.{number, refused};
ghost use Rattle.alignment.specs.Answers.{told, judged, called, finished, ended};

use ast::numbers;
use meaning::Aligner;

// Why a call is refused. A refused call leaves the state and both tables as they came.
#[derive(Clone, Copy, Debug, PartialEq, Eq, Hash)]
pub enum Refusal {
    BytesWhileStaged,
    NotWholeBytes,
    TooWide,
    TableFull,
    EndWhileStaged,
    ContradictoryState,
}

impl Refusal {
    // The refusal's number, as it crosses to C.
    pub fn number(self) -> u64
        ensures { result ≡ number self }
    {
        match self {
            Refusal::BytesWhileStaged => numbers::BYTES_WHILE_STAGED,
            Refusal::NotWholeBytes => numbers::NOT_WHOLE_BYTES,
            Refusal::TooWide => numbers::TOO_WIDE,
            Refusal::TableFull => numbers::TABLE_FULL,
            Refusal::EndWhileStaged => numbers::END_WHILE_STAGED,
            Refusal::ContradictoryState => numbers::CONTRADICTORY_STATE,
        }
    }
}

// Whether no field is staged, zero-width ones too.
pub fn is_aligned(a: Aligner) -> bool
    ensures { result ≡ not (staged a) }
{
    a.placed <= a.start
}

// Whether a total becomes a chunk.
#[tactic(auto, unfolding(meaning::specs::Alignment::due))]
fn is_due(total: u64) -> bool
    ensures { result ≡ due total }
{
    0 < total && total % 8 == 0
}

// Refuses a state that contradicts itself or its tables.
#[tactic(auto, unfolding(meaning::specs::Alignment::sound))]
fn check_state(a: Aligner, placed: &[u64], chunks: &[u64]) -> Result<(), Refusal>
    ensures number { refused result ≡ sound (world a placed.now chunks.now) }
    ensures reason { IsOkUnless result Refusal.ContradictoryState }
    ensures narrow { OnOk result (a.width ≤ 63) }
{
    if 63 < a.width
        || a.placed < a.start
        || placed.len() / numbers::PLACED_WORDS < a.placed
        || chunks.len() / numbers::CHUNK_WORDS < a.chunks
        || (is_aligned(a) && 0 < a.width)
    {
        return Err(Refusal::ContradictoryState);
    }
    Ok(())
}

// Whether a bit field can be staged; the test of the total never wraps.
#[tactic(auto, unfolding(meaning::specs::Alignment::bits_number))]
fn check_bitfield(a: Aligner, placed: &[u64], chunks: &[u64], width: u64) -> Result<(), Refusal>
    ensures { refused result ≡ bits_number width (world a placed.now chunks.now) }
{
    check_state(a, placed, chunks)?;
    if Aligner::MAX_CHUNK_WIDTH - a.width < width {
        return Err(Refusal::TooWide);
    }
    if placed.len() / numbers::PLACED_WORDS <= a.placed {
        return Err(Refusal::TableFull);
    }
    if is_due(a.width + width) && chunks.len() / numbers::CHUNK_WORDS <= a.chunks {
        return Err(Refusal::TableFull);
    }
    Ok(())
}

// Whether bytes of a known width can be added.
#[tactic(auto, unfolding(meaning::specs::Alignment::bytes_number))]
fn check_bytes(a: Aligner, placed: &[u64], chunks: &[u64], width: u64) -> Result<(), Refusal>
    ensures { refused result ≡ bytes_number width (world a placed.now chunks.now) }
{
    check_state(a, placed, chunks)?;
    if !is_aligned(a) {
        return Err(Refusal::BytesWhileStaged);
    }
    if 0 < width % 8 {
        return Err(Refusal::NotWholeBytes);
    }
    if Aligner::MAX_CHUNK_WIDTH < width {
        return Err(Refusal::TooWide);
    }
    if chunks.len() / numbers::CHUNK_WORDS <= a.chunks {
        return Err(Refusal::TableFull);
    }
    Ok(())
}

// Whether dynamic bytes can be added.
#[tactic(auto, unfolding(meaning::specs::Alignment::dyn_number))]
fn check_dyn_bytes(a: Aligner, placed: &[u64], chunks: &[u64]) -> Result<(), Refusal>
    ensures { refused result ≡ dyn_number (world a placed.now chunks.now) }
{
    check_state(a, placed, chunks)?;
    if !is_aligned(a) {
        return Err(Refusal::BytesWhileStaged);
    }
    if chunks.len() / numbers::CHUNK_WORDS <= a.chunks {
        return Err(Refusal::TableFull);
    }
    Ok(())
}

// Whether the end may come.
#[tactic(auto, unfolding(meaning::specs::Alignment::end_number))]
fn check_end(a: Aligner, placed: &[u64], chunks: &[u64]) -> Result<(), Refusal>
    ensures { refused result ≡ end_number (world a placed.now chunks.now) }
{
    check_state(a, placed, chunks)?;
    if !is_aligned(a) {
        return Err(Refusal::EndWhileStaged);
    }
    Ok(())
}

// The state that a bit field would leave, or why it would be refused. No row is written.
#[tactic(auto, using(crate::proofs::Laws::bits_refused), unfolding(meaning::specs::Alignment::call, meaning::specs::Alignment::bits_done))]
pub fn judge_bitfield(
    a: Aligner,
    placed: &[u64],
    chunks: &[u64],
    width: u64,
) -> Result<Aligner, Refusal>
    ensures { told a result ≡ judged (add_bitfield 0 width) a placed.now chunks.now }
{
    check_bitfield(a, placed, chunks, width)?;
    let total = a.width + width;
    let next = a.placed + 1;
    if is_due(total) {
        return Ok(Aligner {
            placed: next,
            chunks: a.chunks + 1,
            start: next,
            width: 0,
        });
    }
    Ok(Aligner {
        placed: next,
        width: total,
        ..a
    })
}

// The state that bytes of a known width would leave, or why they would be refused.
#[tactic(auto, using(crate::proofs::Laws::bytes_refused), unfolding(meaning::specs::Alignment::call, meaning::specs::Alignment::chunk_done))]
pub fn judge_bytes(
    a: Aligner,
    placed: &[u64],
    chunks: &[u64],
    width: u64,
) -> Result<Aligner, Refusal>
    ensures { told a result ≡ judged (add_bytes 0 width) a placed.now chunks.now }
{
    check_bytes(a, placed, chunks, width)?;
    Ok(Aligner {
        chunks: a.chunks + 1,
        ..a
    })
}

// The state that dynamic bytes would leave, or why they would be refused.
#[tactic(auto, using(crate::proofs::Laws::dyn_refused), unfolding(meaning::specs::Alignment::call, meaning::specs::Alignment::chunk_done))]
pub fn judge_dyn_bytes(a: Aligner, placed: &[u64], chunks: &[u64]) -> Result<Aligner, Refusal>
    ensures { told a result ≡ judged (add_dyn_bytes 0) a placed.now chunks.now }
{
    check_dyn_bytes(a, placed, chunks)?;
    Ok(Aligner {
        chunks: a.chunks + 1,
        ..a
    })
}

// Stages a bit field at the staged width as its offset; a total that is due becomes one chunk. The three calls stay three, each over
// its own judge: C has an entry for each, and the contract of each is a call of the meaning.
#[tactic(auto, using(crate::proofs::Laws::bits_left), unfolding(meaning::specs::Alignment::call, meaning::specs::Alignment::bits_done))]
pub fn add_bitfield(
    a: Aligner,
    placed: &mut [u64],
    chunks: &mut [u64],
    symbol: u64,
    width: u64,
) -> Result<Aligner, Refusal>
    ensures { called a result placed.new chunks.new
        ≡ call (add_bitfield symbol width) (world a placed.old chunks.old) }
{
    let next = judge_bitfield(a, placed, chunks, width)?;
    let total = a.width + width;
    ast::put_row(placed, a.placed, &[symbol, width, a.width]);
    if is_due(total) {
        let count = next.start - a.start;
        ast::put_row(
            chunks,
            a.chunks,
            &[1, a.start as u64, count as u64, total, 0],
        );
    }
    Ok(next)
}

// One chunk of bytes of a known width.
#[tactic(auto, using(crate::proofs::Laws::bytes_left), unfolding(meaning::specs::Alignment::call, meaning::specs::Alignment::chunk_done))]
pub fn add_bytes(
    a: Aligner,
    placed: &mut [u64],
    chunks: &mut [u64],
    symbol: u64,
    width: u64,
) -> Result<Aligner, Refusal>
    ensures { called a result placed.new chunks.new
        ≡ call (add_bytes symbol width) (world a placed.old chunks.old) }
{
    let next = judge_bytes(a, placed, chunks, width)?;
    ast::put_row(chunks, a.chunks, &[2, 0, 0, width, symbol]);
    Ok(next)
}

// One chunk of bytes of an unknown width.
#[tactic(auto, using(crate::proofs::Laws::dyn_left), unfolding(meaning::specs::Alignment::call, meaning::specs::Alignment::chunk_done))]
pub fn add_dyn_bytes(
    a: Aligner,
    placed: &mut [u64],
    chunks: &mut [u64],
    symbol: u64,
) -> Result<Aligner, Refusal>
    ensures { called a result placed.new chunks.new
        ≡ call (add_dyn_bytes symbol) (world a placed.old chunks.old) }
{
    let next = judge_dyn_bytes(a, placed, chunks)?;
    ast::put_row(chunks, a.chunks, &[3, 0, 0, 0, symbol]);
    Ok(next)
}

// The end: the chunk count, where nothing is staged. It changes nothing.
#[tactic(auto, using(crate::proofs::Laws::end_refused), unfolding(crate::specs::Answers::ended))]
pub fn align(a: Aligner, placed: &[u64], chunks: &[u64]) -> Result<usize, Refusal>
    ensures { finished result ≡ ended a placed.now chunks.now }
{
    check_end(a, placed, chunks)?;
    Ok(a.chunks)
}
