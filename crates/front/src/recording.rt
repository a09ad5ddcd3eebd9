// The aligner's calls on a lent state, over a table of chunk records.
ghost use Rattle.std.specs.Prelude.{◌≡◌};
ghost use Rattle.meaning.specs.Alignment.{world, call, add_bitfield, add_bytes, add_dyn_bytes};
ghost use Rattle.byte_aligner.specs.Answers.{answered, ending, align_at};
ghost use Rattle.byte_aligner.specs.Records.{flat};
ghost use Rattle.front.specs.Endings.{end_crossed};

use crate::aligning::{Ended, number_of};
use byte_aligner::Chunk;
use meaning::Aligner;

// Stages a bit field: the number of the refusal, or 0.
#[unsafe(no_mangle)]
pub extern "C" fn pdl_add_bitfield_to(
    state: &mut Aligner,
    placed: &mut [u64],
    chunks: &mut [Chunk],
    symbol: u64,
    width: u64,
) -> u64
    ensures { answered result state.new placed.new (flat chunks.new)
        ≡ call (add_bitfield symbol width) (world state.old placed.old (flat chunks.old)) }
{
    number_of(byte_aligner::add_bitfield_to(state, placed, chunks, symbol, width))
}

// Adds bytes of a known width: the number of the refusal, or 0.
#[unsafe(no_mangle)]
pub extern "C" fn pdl_add_bytes_to(
    state: &mut Aligner,
    placed: &mut [u64],
    chunks: &mut [Chunk],
    symbol: u64,
    width: u64,
) -> u64
    ensures { answered result state.new placed.new (flat chunks.new)
        ≡ call (add_bytes symbol width) (world state.old placed.old (flat chunks.old)) }
{
    number_of(byte_aligner::add_bytes_to(state, placed, chunks, symbol, width))
}

// Adds bytes of an unknown width: the number of the refusal, or 0.
#[unsafe(no_mangle)]
pub extern "C" fn pdl_add_dyn_bytes_to(
    state: &mut Aligner,
    placed: &mut [u64],
    chunks: &mut [Chunk],
    symbol: u64,
) -> u64
    ensures { answered result state.new placed.new (flat chunks.new)
        ≡ call (add_dyn_bytes symbol) (world state.old placed.old (flat chunks.old)) }
{
    number_of(byte_aligner::add_dyn_bytes_to(state, placed, chunks, symbol))
}

// Ends an alignment: the number of the refusal, or 0, and the chunk count, 0 where refused.
#[unsafe(no_mangle)]
pub extern "C" fn pdl_align_to(state: &mut Aligner, placed: &[u64], chunks: &[Chunk]) -> Ended
    ensures { ending (end_crossed result) state.new ≡ align_at state.old placed.now (flat chunks.now) }
{
    Ended::from(byte_aligner::align_to(state, placed, chunks))
}
