// The byte aligner in the Rust's own forms (alignment.rs, `ByteAligner`): the state is lent and changed in place, over tables
// of words or over a table of chunk records.
#![tactic(auto)]

ghost use Rattle.std.specs.Prelude.{◌≡◌, length};
ghost use Rattle.meaning.specs.Alignment.{Call, world, call, add_bitfield, add_bytes, add_dyn_bytes};
ghost use Rattle.alignment.specs.Refusals.{refused};
ghost use Rattle.alignment.specs.Answers.{finished};
ghost use Rattle.byte_aligner.specs.Answers.{answered, ending, align_at};
ghost use Rattle.byte_aligner.specs.Records.{flat};
ghost use Rattle.byte_aligner.specs.Plans.{near_state, chunk_of, Performs};

use alignment::Refusal;
use ast::{numbers, words};
use meaning::Aligner;
use std::cmp::Ordering;

// Stages a bit field; a total that is due becomes one chunk row. The three calls stay three, over rows and over records, since C has
// an entry for each.
pub fn add_bitfield(
    a: &mut Aligner,
    placed: &mut [u64],
    chunks: &mut [u64],
    symbol: u64,
    width: u64,
) -> Result<(), Refusal>
    ensures { answered (refused result) a.new placed.new chunks.new
        ≡ call (add_bitfield symbol width) (world a.old placed.old chunks.old) }
{
    *a = alignment::add_bitfield(*a, placed, chunks, symbol, width)?;
    Ok(())
}

// One chunk row of bytes of a known width.
pub fn add_bytes(
    a: &mut Aligner,
    placed: &mut [u64],
    chunks: &mut [u64],
    symbol: u64,
    width: u64,
) -> Result<(), Refusal>
    ensures { answered (refused result) a.new placed.new chunks.new
        ≡ call (add_bytes symbol width) (world a.old placed.old chunks.old) }
{
    *a = alignment::add_bytes(*a, placed, chunks, symbol, width)?;
    Ok(())
}

// One chunk row of bytes of an unknown width.
pub fn add_dyn_bytes(
    a: &mut Aligner,
    placed: &mut [u64],
    chunks: &mut [u64],
    symbol: u64,
) -> Result<(), Refusal>
    ensures { answered (refused result) a.new placed.new chunks.new
        ≡ call (add_dyn_bytes symbol) (world a.old placed.old chunks.old) }
{
    *a = alignment::add_dyn_bytes(*a, placed, chunks, symbol)?;
    Ok(())
}

// The end: the chunk count, where nothing is staged. It changes nothing, and is lent the state like the calls before it, as C lends it.
pub fn align(a: &mut Aligner, placed: &[u64], chunks: &[u64]) -> Result<usize, Refusal>
    ensures { ending (finished result) a.new ≡ align_at a.old placed.now chunks.now }
{
    alignment::align(*a, placed, chunks)
}

// A chunk (alignment.rs, `Chunk`): kind (bits 1, bytes 2, dynamic 3), first placed row, count, width, symbol. It crosses to C, so its
// kind is a number.
#[repr(C)]
#[derive(Clone, Copy)]
pub struct Chunk {
    pub kind: u64,
    pub first: u64,
    pub count: u64,
    pub width: u64,
    pub symbol: u64,
}

impl From<[u64; numbers::CHUNK_WORDS]> for Chunk {
    ghost from_gives = { λ row c. c ≡ chunk_of row };

    // The record of a chunk row.
    fn from(row: [u64; numbers::CHUNK_WORDS]) -> Chunk {
        Chunk {
            kind: row[words::CHUNK_KIND],
            first: row[words::CHUNK_FIRST],
            count: row[words::CHUNK_COUNT],
            width: row[words::CHUNK_WIDTH],
            symbol: row[words::CHUNK_SYMBOL],
        }
    }
}

// The state as over a table of one row: 0 chunks where a record has room, 1 where none has, 2 where the count is too high.
fn near(a: Aligner, rows: usize) -> Aligner
    ensures { result ≡ near_state a rows }
{
    let chunks = match a.chunks.cmp(&rows) {
        Ordering::Less => 0,
        Ordering::Equal => 1,
        Ordering::Greater => 2,
    };
    Aligner { chunks, ..a }
}

// A call over records, by the core's call over one row: where the row was taken, its record is stored.
fn on_records<F>(
    a: &mut Aligner,
    placed: &mut [u64],
    chunks: &mut [Chunk],
    add: F,
) -> Result<(), Refusal>
where
    F: FnOnce(Aligner, &mut [u64], &mut [u64]) -> Result<Aligner, Refusal>,
    requires { F.IsAlwaysCallable add }
    ensures { (k : Call) → Performs (F.post add) k (near_state a.old (length chunks.old)) placed.old
        → answered (refused result) a.new placed.new (flat chunks.new) ≡ call k (world a.old placed.old (flat chunks.old)) }
{
    let mut row = [0u64; numbers::CHUNK_WORDS];
    let next = add(near(*a, chunks.len()), placed, &mut row)?;
    *a = Aligner {
        chunks: a.chunks,
        ..next
    };
    let at = a.chunks;
    if at < chunks.len() && 0 < next.chunks {
        chunks[at] = Chunk::from(row);
        a.chunks += 1;
    }
    Ok(())
}

// Stages a bit field; a total that is due becomes one chunk record.
pub fn add_bitfield_to(
    a: &mut Aligner,
    placed: &mut [u64],
    chunks: &mut [Chunk],
    symbol: u64,
    width: u64,
) -> Result<(), Refusal>
    ensures { answered (refused result) a.new placed.new (flat chunks.new)
        ≡ call (add_bitfield symbol width) (world a.old placed.old (flat chunks.old)) }
{
    on_records(a, placed, chunks, |near, placed, row| {
        alignment::add_bitfield(near, placed, row, symbol, width)
    })
}

// One chunk record of bytes of a known width.
pub fn add_bytes_to(
    a: &mut Aligner,
    placed: &mut [u64],
    chunks: &mut [Chunk],
    symbol: u64,
    width: u64,
) -> Result<(), Refusal>
    ensures { answered (refused result) a.new placed.new (flat chunks.new)
        ≡ call (add_bytes symbol width) (world a.old placed.old (flat chunks.old)) }
{
    on_records(a, placed, chunks, |near, placed, row| {
        alignment::add_bytes(near, placed, row, symbol, width)
    })
}

// One chunk record of bytes of an unknown width.
pub fn add_dyn_bytes_to(
    a: &mut Aligner,
    placed: &mut [u64],
    chunks: &mut [Chunk],
    symbol: u64,
) -> Result<(), Refusal>
    ensures { answered (refused result) a.new placed.new (flat chunks.new)
        ≡ call (add_dyn_bytes symbol) (world a.old placed.old (flat chunks.old)) }
{
    on_records(a, placed, chunks, |near, placed, row| {
        alignment::add_dyn_bytes(near, placed, row, symbol)
    })
}

// The end over records. It changes nothing.
pub fn align_to(a: &mut Aligner, placed: &[u64], chunks: &[Chunk]) -> Result<usize, Refusal>
    ensures { ending (finished result) a.new ≡ align_at a.old placed.now (flat chunks.now) }
{
    let row = [0u64; numbers::CHUNK_WORDS];
    alignment::align(near(*a, chunks.len()), placed, &row)?;
    Ok(a.chunks)
}
