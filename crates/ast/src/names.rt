// The text of a name (01, 'Rows'): a part of the source itself, and apart from it the number of the refusal.
ghost use Rattle.std.specs.Prelude.{◌+◌, ◌≡◌, length, ltb};
ghost use Rattle.meaning.specs.Reading.{name_number, name_text};
ghost use Rattle.ast.specs.Names.{name_place};

use crate::numbers;

// Whether a name reaches past the end of its source. The sum of offset and length is never made, as it may be too large.
fn is_outside(src: &[u8], offset: usize, len: usize) -> bool
    ensures { result ≡ ltb (length src.now) (offset + len) }
{
    src.len() < offset || src.len() - offset < len
}

// The part of the source where a name stands, in the source's own memory; of a name that lies outside, an empty part.
// It is no Option: the C interface tells the refusal beside the text, by `name_number`, and the place of the empty part is promised too.
pub fn name_text(src: &[u8], offset: usize, len: usize) -> &[u8]
    ensures result_value { result.now ≡ name_text src.now offset len }
    ensures ref_ptr_value { result.ref_ptr ≡ name_place src.entry.ref_ptr src.now offset len }
{
    if is_outside(src, offset, len) {
        return &src[..0];
    }
    &src[offset..offset + len]
}

// 6 for a name that lies outside its source, else 0. A Result of the text would be opened into these two at its one caller, which
// answers C by a number and copies the text, an empty one too.
pub fn name_number(src: &[u8], offset: usize, len: usize) -> u64
    ensures { result ≡ name_number src.now offset len }
{
    if is_outside(src, offset, len) {
        return numbers::NAME_OUTSIDE;
    }
    0
}
