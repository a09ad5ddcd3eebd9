// Numbers, the line of a row, and the lines of a table's rows.
ghost use Rattle.std.specs.Prelude.{◌∷◌};
ghost use Rattle.printing.specs.Pages.{Wrote};
ghost use Rattle.printing.specs.Lines.{decimal, words, line, lines};

use crate::pages::Page;

impl Page<'_> {
    // A number in decimal digits.
    pub fn put_number(&mut self, n: u64)
        ensures { Wrote (decimal n) self.old self.new }
    {
        // Not by `write!`: it answers a `Result`, and what stands there at `Err` has no statement.
        let mut digits = [0u8; 20];
        let k = io::decimal(n, &mut digits);
        self.put_bytes(&digits[..k]);
    }

    // A word of a line: a space and its number.
    fn put_word(&mut self, n: u64)
        ensures { Wrote (32 ∷ decimal n) self.old self.new }
    {
        self.put_byte(b' ');
        self.put_number(n);
    }

    // The words of a line.
    fn put_words(&mut self, row: &[u64])
        ensures { Wrote (words row.now) self.old self.new }
    {
        for &n in row {
            self.put_word(n);
        }
    }

    // A row's line: a letter and its words, ended by LF.
    pub fn put_line(&mut self, letter: u8, row: &[u64])
        ensures { Wrote (line letter row.now) self.old self.new }
    {
        self.put_byte(letter);
        self.put_words(row);
        self.put_byte(b'\n');
    }

    // The lines of a table's first rows, so many as are asked for and fit whole.
    pub fn put_lines(&mut self, letter: u8, size: usize, count: u64, table: &[u64])
        ensures { Wrote (lines letter size count table.now) self.old self.new }
    {
        // The rows are cut off one by one, since `chunks_exact` takes no size of 0.
        let mut rest = table;
        for _ in 0..count {
            let Some((row, after)) = rest.split_at_checked(size) else {
                return;
            };
            self.put_line(letter, row);
            rest = after;
        }
    }
}
