// The lines of layouts: L for each declaration that can be laid out, P for its placed fields, K for its chunks.
ghost use Rattle.std.specs.Prelude.{◌≡◌, [], nat_eq};
ghost use Rattle.printing.specs.Pages.{Wrote};
ghost use Rattle.layout.specs.Judging.{answered};
ghost use Rattle.printing.specs.Layouts.{answer_words, laid, layout_of, layouts};

use crate::pages::Page;
use ast::numbers;
use layout::{Layout, Refusal, Refused};

// The words of a layout's line: row, number, place, reason, placed rows, chunk rows; the last two say how many lines follow.
fn layout_words(k: u64, outcome: Result<Layout, Refused>) -> [u64; 6]
    ensures { result ≡ answer_words k (answered outcome [] []) }
{
    match outcome {
        Ok(laid) => [k, 0, 0, 0, laid.placed as u64, laid.chunks as u64],
        Err(refused) => [k, refused.refusal.number(), refused.place as u64, 0, 0, 0],
    }
}

// Whether there is nothing to lay out: the declaration is no packet, struct or group.
fn is_unlaid(outcome: Result<Layout, Refused>) -> bool
    ensures { result ≡ nat_eq (answered outcome [] []).number 15 }
{
    matches!(outcome, Err(refused) if refused.refusal == Refusal::NoSuchDeclaration)
}

impl Page<'_> {
    // A layout's line, and those of its rows.
    fn put_laid(&mut self, answer: [u64; 6], placed: &[u64], chunks: &[u64])
        ensures { Wrote (laid answer placed.now chunks.now) self.old self.new }
    {
        self.put_line(b'L', &answer);
        self.put_lines(b'P', numbers::PLACED_WORDS, answer[4], placed);
        self.put_lines(b'K', numbers::CHUNK_WORDS, answer[5], chunks);
    }

    // The layout of a declaration row, none where it is no packet, struct or group.
    fn put_layout(&mut self, k: usize, declarations: &[u64], fields: &[u64])
        ensures { Wrote (layout_of declarations.now fields.now k) self.old self.new }
    {
        let mut placed = [0u64; 100 * numbers::PLACED_WORDS];
        let mut chunks = [0u64; 100 * numbers::CHUNK_WORDS];
        let outcome = layout::lay_out(declarations, fields, k, &mut placed, &mut chunks);
        if is_unlaid(outcome) {
            return;
        }
        self.put_laid(layout_words(k as u64, outcome), &placed, &chunks);
    }

    // The layouts of the first declaration rows, in row order.
    pub fn put_layouts(&mut self, count: u64, declarations: &[u64], fields: &[u64])
        ensures { Wrote (layouts declarations.now fields.now count 0) self.old self.new }
    {
        for k in 0..count {
            self.put_layout(k as usize, declarations, fields);
        }
    }
}
