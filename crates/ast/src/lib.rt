// Rows of words in lent tables (ast.rs: its records become rows).
#![tactic(auto)]

pub mod names;
pub mod numbers;
pub mod tables;
pub mod words;

ghost use Rattle.std.specs.Prelude.{◌≡◌, length};
ghost use Rattle.meaning.specs.Tables.{put};

// A row written at row k of a table; where it does not fit whole, nothing changes.
pub fn put_row(t: &mut [u64], k: usize, row: &[u64])
    ensures { t.new ≡ put (length row.now) k row.now t.old }
{
    let size = row.len();
    if size > 0 && k < t.len() / size {
        let base = k * size;
        // Not `copy_from_slice`: it asks C for memmove, where the archive calls nothing but memcpy.
        for i in 0..size {
            t[base + i] = row[i];
        }
    }
}
