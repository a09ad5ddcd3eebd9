// The aligner's calls on a lent state, over tables of words.
ghost use Rattle.std.specs.Prelude.{◌≡◌};
ghost use Rattle.meaning.specs.Alignment.{world, call, add_bitfield, add_bytes, add_dyn_bytes};
ghost use Rattle.byte_aligner.specs.Answers.{answered, ending, align_at};
ghost use Rattle.alignment.specs.Refusals.{refused};
ghost use Rattle.alignment.specs.Answers.{finished};
ghost use Rattle.front.specs.Endings.{end_crossed};

use alignment::Refusal;
use meaning::Aligner;

// The end's answer as it crosses to C, which has no Result: the number of the refusal, or 0, and the chunk count, 0 where refused.
#[repr(C)]
#[derive(Clone, Copy)]
pub struct Ended {
    pub number: u64,
    pub chunks: usize,
}

impl From<Result<usize, Refusal>> for Ended {
    ghost from_gives = { λ r e. end_crossed e ≡ finished r };

    fn from(outcome: Result<usize, Refusal>) -> Ended {
        match outcome {
            Ok(chunks) => Ended { number: 0, chunks },
            Err(refusal) => Ended {
                number: refusal.number(),
                chunks: 0,
            },
        }
    }
}

// The number of an outcome, as it crosses to C: 0 where it was accepted.
pub fn number_of(outcome: Result<(), Refusal>) -> u64
    ensures { result ≡ refused outcome }
{
    match outcome {
        Ok(()) => 0,
        Err(refusal) => refusal.number(),
    }
}

// Stages a bit field: the number of the refusal, or 0.
#[unsafe(no_mangle)]
pub extern "C" fn pdl_add_bitfield(
    state: &mut Aligner,
    placed: &mut [u64],
    chunks: &mut [u64],
    symbol: u64,
    width: u64,
) -> u64
    ensures { answered result state.new placed.new chunks.new
        ≡ call (add_bitfield symbol width) (world state.old placed.old chunks.old) }
{
    number_of(byte_aligner::add_bitfield(state, placed, chunks, symbol, width))
}

// Adds bytes of a known width: the number of the refusal, or 0.
#[unsafe(no_mangle)]
pub extern "C" fn pdl_add_bytes(
    state: &mut Aligner,
    placed: &mut [u64],
    chunks: &mut [u64],
    symbol: u64,
    width: u64,
) -> u64
    ensures { answered result state.new placed.new chunks.new
        ≡ call (add_bytes symbol width) (world state.old placed.old chunks.old) }
{
    number_of(byte_aligner::add_bytes(state, placed, chunks, symbol, width))
}

// Adds bytes of an unknown width: the number of the refusal, or 0.
#[unsafe(no_mangle)]
pub extern "C" fn pdl_add_dyn_bytes(
    state: &mut Aligner,
    placed: &mut [u64],
    chunks: &mut [u64],
    symbol: u64,
) -> u64
    ensures { answered result state.new placed.new chunks.new
        ≡ call (add_dyn_bytes symbol) (world state.old placed.old chunks.old) }
{
    number_of(byte_aligner::add_dyn_bytes(state, placed, chunks, symbol))
}

// Ends an alignment: the number of the refusal, or 0, and the chunk count, 0 where refused.
#[unsafe(no_mangle)]
pub extern "C" fn pdl_align(state: &mut Aligner, placed: &[u64], chunks: &[u64]) -> Ended
    ensures { ending (end_crossed result) state.new ≡ align_at state.old placed.now chunks.now }
{
    Ended::from(byte_aligner::align(state, placed, chunks))
}
