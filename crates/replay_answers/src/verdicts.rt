// The line that the program writes of a list.
ghost use Rattle.std.specs.Prelude.{◌+◌, ◌≤◌, ◌≡◌, length, drop};
ghost use Rattle.printing.specs.Pages.{Wrote};
ghost use Rattle.std.specs.Bool.{Decides};
ghost use Rattle.replay_answers.specs.Tallies.{Bounds};
ghost use Rattle.replay_answers.specs.Verdicts.{ending, tallied, damaged, TallyLine};

use crate::Tally;
use crate::lines::is_line;
use printing::pages::Page;

// Whether the list ends there as it should: with the line of the number of its entries, and nothing behind it.
fn is_ended(list: &[u8], at: usize, entries: u64) -> bool
    requires { at ≤ length list.now }
    ensures { Decides result (drop at list.now ≡ ending entries) }
{
    is_line(&list[at..], b'Z', &[entries])
}

// How many answers are the same, and how many are not.
fn put_tally(page: &mut Page, passed: u64, failed: u64)
    ensures { Wrote (tallied passed failed) page.old page.new }
{
    page.put_number(passed);
    page.put_bytes(b" passed, ");
    page.put_number(failed);
    page.put_bytes(b" failed\n");
}

// Where the list is not as it was written.
fn put_damage(page: &mut Page, at: u64)
    ensures { Wrote (damaged at) page.old page.new }
{
    page.put_bytes(b"the list is damaged at byte ");
    page.put_number(at);
    page.put_byte(b'\n');
}

// The line of a list that was read so far: the tally where the list is ended there, else the damage.
pub fn put_verdict(list: &[u8], t: Tally, page: &mut Page)
    requires { Bounds list.now t }
    ensures { TallyLine list.now t page.old page.new }
{
    if is_ended(list, t.at, t.passed + t.failed) {
        put_tally(page, t.passed, t.failed);
    } else {
        put_damage(page, t.at as u64);
    }
}
