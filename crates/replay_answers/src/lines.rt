// Lines, made on a page of their own: what stands in the list is compared with them.
ghost use Rattle.std.specs.Prelude.{◌≤◌, ◌≡◌, length, replicate};
ghost use Rattle.printing.specs.Lines.{line};
ghost use Rattle.std.specs.Bool.{Decides};

use printing::pages::Page;

// A page that has room for the longest line of this program: fixed, since the programs have no heap.
pub fn empty_line() -> [u8; 64]
    ensures { (result ≡ replicate 64 0) × (64 ≡ length result) }
{
    [0; 64]
}

// Whether a text is the line of a letter and two words at most.
pub fn is_line(text: &[u8], letter: u8, words: &[u64]) -> bool
    requires { length words.now ≤ 2 }
    ensures { Decides result (text.now ≡ line letter words.now) }
{
    let mut bytes = empty_line();
    let mut page = Page::new(&mut bytes);
    page.put_line(letter, words);
    text == page.written()
}
