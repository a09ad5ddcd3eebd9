// The lines of an answer: E, D, F, T, C, M, or the one line R.
ghost use Rattle.printing.specs.Pages.{Wrote};
ghost use Rattle.printing.specs.Answers.{refusal, tables_of, reading_of};

use crate::pages::Page;
use ast::numbers;

// The tables of a source, in number order, lent for reading alone; `walk::tables` has those that are lent to be written.
#[derive(Clone, Copy)]
pub struct Tables<'a> {
    pub declarations: &'a [u64],
    pub fields: &'a [u64],
    pub tags: &'a [u64],
    pub constraints: &'a [u64],
    pub comments: &'a [u64],
}

impl Page<'_> {
    // The line of a refusal.
    pub fn put_refusal(&mut self, number: u64, place: u64, reason: u64)
        ensures { Wrote (refusal number place reason) self.old self.new }
    {
        self.put_line(b'R', &[number, place, reason]);
    }

    // The lines of the rows of all tables that are filled, in number order.
    fn put_tables(&mut self, counts: [u64; 5], t: &Tables)
        ensures { Wrote (tables_of counts t.now) self.old self.new }
    {
        self.put_lines(b'D', numbers::DECLARATION_WORDS, counts[0], t.declarations);
        self.put_lines(b'F', numbers::FIELD_WORDS, counts[1], t.fields);
        self.put_lines(b'T', numbers::TAG_WORDS, counts[2], t.tags);
        self.put_lines(b'C', numbers::CONSTRAINT_WORDS, counts[3], t.constraints);
        self.put_lines(b'M', numbers::COMMENT_WORDS, counts[4], t.comments);
    }

    // The lines of an accepted source: its endianness, and the rows of all tables, of each as many as are filled.
    pub fn put_reading(
        &mut self,
        endianness: [u64; numbers::ENDIANNESS_WORDS],
        counts: [u64; 5],
        t: &Tables,
    )
        ensures { Wrote (reading_of endianness counts t.now) self.old self.new }
    {
        self.put_line(b'E', &endianness);
        self.put_tables(counts, t);
    }
}
