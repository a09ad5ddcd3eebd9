// Replays the fixed list of the oracle's answers, which is its standard input: every source is listed, and the lines are
// compared with the answer byte for byte. Each entry of the list is a line `S n m`, n bytes of source, LF, m bytes of answer,
// LF; the last line is `Z` and the number of entries.
#![tactic(auto)]

ghost use Rattle.std.specs.Prelude.{◌+◌, ◌<◌, ◌≡◌, length, replicate};
ghost use Rattle.listing.specs.declared.Wanted.TheVariants.{Tables};
ghost use Rattle.listing.specs.Lists.{listed};
ghost use Rattle.std.specs.Bool.{Decides};
ghost use Rattle.replay_answers.specs.Tallies.{Bounds, Step, Replayed, start};
ghost use Rattle.replay_answers.specs.Verdicts.{Verdict};

use entries::{Entry, entry_at, head_end};
use lines::empty_line;
use listing::{Wanted, empty_page, put_source};
use printing::pages::Page;
use verdicts::put_verdict;

mod entries;
mod lines;
mod verdicts;

// How many answers are the same, how many are not, and how far the list was read.
#[derive(Clone, Copy)]
struct Tally {
    passed: u64,
    failed: u64,
    at: usize,
}

// Whether the source is answered with these lines.
fn is_answered(source: &[u8], lines: &[u8]) -> bool
    ensures { Decides result (listed Tables source.now ≡ lines.now) }
{
    let mut bytes = empty_page();
    let mut page = Page::new(&mut bytes);
    put_source(source, Wanted::Tables, &mut page);
    page.written() == lines
}

// The tally with this entry.
fn counted(t: Tally, e: Entry) -> Tally
    requires { t.passed + t.failed < e.next }
    ensures { Step t e.entry result }
{
    let at = e.next;
    if is_answered(e.source, e.lines) {
        Tally {
            passed: t.passed + 1,
            at,
            ..t
        }
    } else {
        Tally {
            failed: t.failed + 1,
            at,
            ..t
        }
    }
}

// The tally of all entries. The loop is no `for`: it goes on where an entry ends.
fn replayed(list: &[u8]) -> Tally
    ensures { Replayed list.now (start list.now) result × Bounds list.now result }
{
    let mut t = Tally {
        passed: 0,
        failed: 0,
        at: head_end(list),
    };
    while let Some(e) = entry_at(list, t.at) {
        t = counted(t, e);
    }
    t
}

// The line of what the replay of the list comes to.
fn put_replay(list: &[u8], page: &mut Page)
    ensures { Verdict list.now page.old page.new }
{
    put_verdict(list, replayed(list), page);
}

// Room for the list: fixed, since the programs have no heap.
fn room() -> [u8; 262144]
    ensures { (result ≡ replicate 262144 0) × (262144 ≡ length result) }
{
    [0; 262144]
}

fn main() {
    let mut list = room();
    let n = io::read_full(0, &mut list);
    let mut bytes = empty_line();
    let mut page = Page::new(&mut bytes);
    put_replay(&list[..n], &mut page);
    io::write_all(1, page.written());
}
