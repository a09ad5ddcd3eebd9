// The entries of the list. A place within it stays a number beside it, and no slice of the rest: an entry's line is compared from its
// start to where its last number ends, and the tally says the place where a list is damaged.
ghost use Rattle.std.specs.Prelude.{◌≤◌, ◌≡◌, false, length, IfSome};
ghost use Rattle.replay_answers.specs.Entries.{over, heading, Behind, Ends, EntryAt};

use crate::lines::is_line;
use lexis::bytes::{Class, run_of};

// An entry: its source, its lines, and where the next entry starts.
#[derive(Clone, Copy)]
pub struct Entry<'a> {
    pub source: &'a [u8],
    pub lines: &'a [u8],
    pub next: usize,
}

// Whether the head is over at this byte: it starts a line, and is no `#`.
fn is_over(inside: bool, b: u8) -> bool
    ensures { result ≡ over inside b }
{
    !inside && b != b'#'
}

// Where the lines end that start with `#`.
pub fn head_end(list: &[u8]) -> usize
    ensures { (result ≡ heading false list.now) × (result ≤ length list.now) }
{
    let mut inside = false;
    for (i, &b) in list.iter().enumerate() {
        if is_over(inside, b) {
            return i;
        }
        inside = b != b'\n';
    }
    list.len()
}

// The place behind a byte, whichever it is; the list's end stays.
fn behind(list: &[u8], at: usize) -> usize
    requires { at ≤ length list.now }
    ensures { Behind list.now at result }
{
    list.len().min(at + 1)
}

// The number that stands there, and where it ends.
fn number_at(list: &[u8], at: usize) -> (u64, usize)
    requires { at ≤ length list.now }
    ensures { (at ≤ result.1) × (result.1 ≤ length list.now) }
{
    let end = at + run_of(&list[at..], Class::Digit);
    (text::value_of(text::convert(&list[at..end])), end)
}

// Where a part of so many bytes ends that has LF behind it.
fn part_end(list: &[u8], at: usize, bytes: u64) -> Option<usize>
    ensures { IfSome result (Ends list.now at bytes) }
{
    let end = at.checked_add(bytes as usize)?;
    (*list.get(end)? == b'\n').then_some(end)
}

// The entry between whose start and source its line stands, with parts of so many bytes.
fn entry_of(list: &[u8], at: usize, source: usize, n: u64, m: u64) -> Option<Entry<'_>>
    requires { (at ≤ source) × (source ≤ length list.now) }
    ensures { IfSome result (EntryAt list.now at) }
{
    let stop = part_end(list, source, n)?;
    let lines = stop + 1;
    let last = part_end(list, lines, m)?;
    if !is_line(&list[at..source], b'S', &[n, m]) {
        return None;
    }
    Some(Entry {
        source: &list[source..stop],
        lines: &list[lines..last],
        next: last + 1,
    })
}

// The entry that starts there. Its numbers are read between bytes that are not looked at, since its whole line is compared afterwards.
pub fn entry_at(list: &[u8], at: usize) -> Option<Entry<'_>>
    requires { at ≤ length list.now }
    ensures { IfSome result (EntryAt list.now at) }
{
    let (n, n_end) = number_at(list, behind(list, behind(list, at)));
    let (m, m_end) = number_at(list, behind(list, n_end));
    entry_of(list, at, behind(list, m_end), n, m)
}
