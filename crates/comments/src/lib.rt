// The comments of a source, by one pass over its bytes in linear time. A string is passed as a whole: what looks like a
// comment inside it is none.
#![tactic(auto)]

ghost use Rattle.std.specs.Prelude.{◌≡◌, ◌<◌, length, position};
ghost use Rattle.meaning.specs.Tables.{Table};
ghost use Rattle.walk.specs.State.{fresh, lend, Wrote};
ghost use Rattle.comments.specs.Lex.{lexical};
ghost use Rattle.comments.specs.Steps.{Closed, length_of, CommentAt, Ready, GoesComment, Past, opens, kind_of, words};

use ast::numbers;
use lexis::blanks::{comment, line_comment};
use lexis::tokens::string;
use meaning::{Match, SourceLocation};
use walk::{Door, Walk};

// A comment's kind, by the number in its row.
#[derive(Clone, Copy)]
enum CommentKind {
    Block = 1,
    Line = 2,
}

// An offset from which on no `*/` starts, just past the last one: unclosed comments are told by it, and not each followed to
// the end of the source. By index, since two neighbours are looked at, from the end.
fn last_close(s: &[u8]) -> usize
    ensures { Closed s.now result }
{
    for i in (1..s.len()).rev() {
        if s[i - 1] == b'*' && s[i] == b'/' {
            return i;
        }
    }
    0
}

// How much a match took, if it is one. Only comments ask so: elsewhere a miss is handed on.
fn length_of(m: Match) -> Option<usize>
    ensures { result ≡ length_of m }
{
    match m {
        Match::Missed(_) => None,
        Match::Took(n, _) => Some(n),
    }
}

// How long the comment at `at` is, if there is one: none is looked for at a quote. From `close` on no `*/` starts.
fn comment_at(s: &[u8], at: usize, close: usize) -> Option<usize>
    requires { (at < length s.now) × Closed s.now close }
    ensures { CommentAt s.now at result }
{
    if s[at] != b'/' {
        return None;
    }
    if close <= at {
        return length_of(line_comment(&s[at..]));
    }
    length_of(comment(&s[at..]))
}

// How far the pass goes at `at`, where there is no comment: over a string, or over one byte.
fn past_at(s: &[u8], at: usize) -> usize
    requires { at < length s.now }
    ensures { Past s.now at result }
{
    match string(&s[at..]) {
        Match::Missed(_) => 1,
        Match::Took(n, _) => n,
    }
}

// Where the first byte stands that may start a comment or a string. It stays a call: as a part of the loop that asks it a byte
// takes 13 instructions, and 8 by itself.
#[inline(never)]
fn next_start(s: &[u8]) -> Option<usize>
    ensures { result ≡ position opens s.now }
{
    s.iter().position(|&x| x == b'/' || x == b'"')
}

// The kind of the comment at `at`.
fn kind_at(s: &[u8], at: usize) -> CommentKind
    requires { at < length s.now }
    ensures { result ≡ kind_of s.now at }
{
    if s[at..].starts_with(b"/*") {
        CommentKind::Block
    } else {
        CommentKind::Line
    }
}

// A comment's row: its kind, and the places of its start and its end.
fn comment_row(
    kind: CommentKind,
    p: SourceLocation,
    q: SourceLocation,
) -> [u64; numbers::COMMENT_WORDS]
    ensures { result ≡ words kind p q }
{
    [
        kind as u64,
        p.offset as u64,
        p.line as u64,
        p.column as u64,
        q.offset as u64,
        q.line as u64,
        q.column as u64,
    ]
}

// A comment of `len` bytes at `at`: its row comes to the door.
fn put_comment(s: &[u8], at: usize, len: usize, n: Walk, t: &mut [u64]) -> Walk
    requires { Ready s.now at len n }
    ensures { GoesComment s.now at len n result (lend Table.comments t.old) (lend Table.comments t.new) }
{
    let a = n.to(s, at);
    let b = a.to(s, at + len);
    let row = comment_row(kind_at(s, at), a.here, b.here);
    b.put(walk::Table::Comments, &row, t)
}

// The comments of a source: the row of each comes to the door. The loop is no `for`: it goes on behind what was found.
pub fn put_comments(s: &[u8], door: Door, t: &mut [u64]) -> Walk
    ensures { Wrote (lexical s.now) (fresh door) result (lend Table.comments t.old) (lend Table.comments t.new) }
{
    let mut n = Walk::new(door);
    let close = last_close(s);
    let mut i = 0;
    while let Some(k) = next_start(&s[i..]) {
        i += k;
        match comment_at(s, i, close) {
            Some(len) => {
                n = put_comment(s, i, len, n, t);
                i += len;
            }
            None => i += past_at(s, i),
        }
    }
    n
}
