// What the programs list of a source: the rows of its tables, or the layouts of its declarations. A source that is refused has
// the one line of its refusal in either list.
#![tactic(auto)]

ghost use Rattle.std.specs.Prelude.{◌+◌, ◌≡◌, length, replicate};
ghost use Rattle.printing.specs.Pages.{Wrote};
ghost use Rattle.printing.specs.Answers.{refusal};
ghost use Rattle.reading.specs.Outcomes.{leaving};
ghost use Rattle.reading.specs.Refusals.{number_of, place_of, reason_of};
ghost use Rattle.listing.specs.Lists.{longest, left, lines_of, listed};

use ast::numbers;
use printing::answers::Tables;
use printing::pages::Page;
use reading::{Reading, Refusal};

// The longest source that the programs take, in bytes.
const LONGEST: usize = 16384;

// What is to be listed. It is a value and no closure, since what is promised goes by its cases.
#[derive(Clone, Copy)]
pub enum Wanted {
    Tables,
    Layouts,
}

// A page that has room for the rows of all tables below: like these it is fixed, since the programs have no heap.
#[inline(always)]
pub fn empty_page() -> [u8; 131072]
    ensures { (result ≡ replicate 131072 0) × (131072 ≡ length result) }
{
    [0; 131072]
}

// The line of a refusal.
fn put_refused(page: &mut Page, why: Refusal)
    ensures { Wrote (refusal (number_of why) (place_of why) (reason_of why)) page.old page.new }
{
    page.put_refusal(why.number(), why.place(), why.reason());
}

// The lines of what was read.
fn put_answer(answer: Result<Reading, Refusal>, wanted: Wanted, t: &Tables, page: &mut Page)
    ensures { Wrote (lines_of wanted (leaving answer (left t.now))) page.old page.new }
{
    match answer {
        Err(why) => put_refused(page, why),
        Ok(reading) => match wanted {
            Wanted::Tables => page.put_reading(reading.endianness, reading.counts, t),
            Wanted::Layouts => page.put_layouts(reading.counts[0], t.declarations, t.fields),
        },
    }
}

// The lines of a source.
pub fn put_source(src: &[u8], wanted: Wanted, page: &mut Page)
    ensures { Wrote (listed wanted src.now) page.old page.new }
{
    if LONGEST < src.len() {
        put_refused(page, Refusal::TooLong(LONGEST));
        return;
    }
    let mut declarations = [0u64; 40 * numbers::DECLARATION_WORDS];
    let mut fields = [0u64; 100 * numbers::FIELD_WORDS];
    let mut tags = [0u64; 100 * numbers::TAG_WORDS];
    let mut constraints = [0u64; 60 * numbers::CONSTRAINT_WORDS];
    let mut comments = [0u64; 100 * numbers::COMMENT_WORDS];
    let answer = reading::read(
        src,
        &mut declarations,
        &mut fields,
        &mut tags,
        &mut constraints,
        &mut comments,
    );
    let tables = Tables {
        declarations: &declarations,
        fields: &fields,
        tags: &tags,
        constraints: &constraints,
        comments: &comments,
    };
    put_answer(answer, wanted, &tables, page);
}

// Room for one byte more than the longest source, so that a longer one is seen to be too long.
fn source_room() -> [u8; LONGEST + 1]
    ensures { (result ≡ replicate (longest + 1) 0) × (longest + 1 ≡ length result) }
{
    [0; LONGEST + 1]
}

// Reads a source from standard input and writes its list to standard output.
pub fn print_input(wanted: Wanted) {
    let mut source = source_room();
    let n = io::read_full(0, &mut source);
    let mut bytes = empty_page();
    let mut page = Page::new(&mut bytes);
    put_source(&source[..n], wanted, &mut page);
    io::write_all(1, page.written());
}
