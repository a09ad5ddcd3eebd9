// Feeding a declaration to the aligner.
ghost use Rattle.std.specs.Prelude.{◌≡◌};
ghost use Rattle.meaning.specs.Feeding.{layout};
ghost use Rattle.front.specs.Layouts.{left, laying};

// Lays out the fields of the declaration row at index: the number of the refusal, or 0. Its place and the counts of placed
// and chunk rows go to answer.
#[unsafe(no_mangle)]
pub extern "C" fn pdl_layout(
    declarations: &[u64],
    fields: &[u64],
    index: usize,
    placed: &mut [u64],
    chunks: &mut [u64],
    answer: &mut [u64; 3],
) -> u64
    ensures { left result answer.new placed.new chunks.new
        ≡ laying (layout declarations.now fields.now index placed.old chunks.old) }
{
    match layout::lay_out(declarations, fields, index, placed, chunks) {
        Ok(laid) => {
            *answer = [0, laid.placed as u64, laid.chunks as u64];
            0
        }
        Err(refused) => {
            *answer = [refused.place as u64, 0, 0];
            refused.refusal.number()
        }
    }
}
