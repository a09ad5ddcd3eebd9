// Reading a source into five lent tables.
ghost use Rattle.std.specs.Prelude.{◌≡◌};
ghost use Rattle.meaning.specs.Reading.{answer};
ghost use Rattle.reading.specs.Outcomes.{lending};
ghost use Rattle.front.specs.Sources.{crossed, crossing};

use ast::numbers;

// Reads a source: the number of the refusal, or 0. Its place and reason go to refusal, the counts of rows to counts, and the
// endianness with its place to endianness.
#[unsafe(no_mangle)]
pub extern "C" fn pdl_read(
    s: &[u8],
    declarations: &mut [u64],
    fields: &mut [u64],
    tags: &mut [u64],
    constraints: &mut [u64],
    comments: &mut [u64],
    refusal: &mut [u64; 2],
    counts: &mut [u64; 5],
    endianness: &mut [u64; numbers::ENDIANNESS_WORDS],
) -> u64
    ensures { crossed result refusal.new counts.new endianness.new
        (lending declarations.new fields.new tags.new constraints.new comments.new)
        ≡ crossing
        (answer s.now (lending declarations.old fields.old tags.old constraints.old
        comments.old)) }
{
    match reading::read(s, declarations, fields, tags, constraints, comments) {
        Ok(reading) => {
            // The borrow check takes an array out of a field only by a variable.
            let rows = reading.counts;
            let line = reading.endianness;
            *refusal = [0, 0];
            *counts = rows;
            *endianness = line;
            0
        }
        Err(refused) => {
            *refusal = [refused.place(), refused.reason()];
            *counts = [0; 5];
            *endianness = [0; numbers::ENDIANNESS_WORDS];
            refused.number()
        }
    }
}
