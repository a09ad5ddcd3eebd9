// The UTF-8 test, the converter, and the text of a name.
ghost use Rattle.std.specs.Prelude.{◌≡◌};
ghost use Rattle.meaning.specs.Utf8.{valid};
ghost use Rattle.meaning.specs.Convert.{convert, reason_of, value_of};
ghost use Rattle.front.specs.Names.{named, naming, over};

use ast::names;

// How long the longest beginning is that is UTF-8.
#[unsafe(no_mangle)]
pub extern "C" fn pdl_valid_prefix(s: &[u8]) -> usize
    ensures { result ≡ valid s.now }
{
    text::valid_prefix(s)
}

// Converts a text: the reason of the refusal, or 0; the number goes to value, 0 where refused.
#[unsafe(no_mangle)]
pub extern "C" fn pdl_convert(s: &[u8], value: &mut u64) -> u64
    ensures { (result ≡ reason_of (convert s.now)) × (value.new ≡ value_of (convert s.now)) }
{
    let c = text::convert(s);
    *value = text::value_of(c);
    text::reason_of(c)
}

// Writes a text over the front of lent bytes, as far as they have room.
fn write_over(s: &[u8], t: &mut [u8])
    ensures { t.new ≡ over s.now t.old }
{
    let n = s.len().min(t.len());
    // Not `copy_from_slice`, as where the words of a row are written: the archive calls nothing but memcpy.
    for i in 0..n {
        t[i] = s[i];
    }
}

// The text of a name, over the front of lent bytes: the number of the refusal, or 0; the length of the text goes to count.
#[unsafe(no_mangle)]
pub extern "C" fn pdl_name_text(
    s: &[u8],
    offset: usize,
    len: usize,
    text: &mut [u8],
    count: &mut usize,
) -> u64
    ensures { named result count.new text.new ≡ naming s.now offset len text.old }
{
    let part = names::name_text(s, offset, len);
    *count = part.len();
    write_over(part, text);
    names::name_number(s, offset, len)
}
