// The judging pass: what the aligner would answer to each field and to the end, by the aligner's own judges. No row is written.
ghost use Rattle.std.specs.Prelude.{◌≡◌, ◌-◌, ◌≤◌, ◌<◌};
ghost use Rattle.meaning.specs.Choice.{pick};
ghost use Rattle.meaning.specs.Tables.{Table, size, room};
ghost use Rattle.meaning.specs.Alignment.{fresh, world, staged};
ghost use Rattle.meaning.specs.Feeding.{feed_fields};
ghost use Rattle.layout.specs.Requests.{request};
ghost use Rattle.layout.specs.Judging.{told, foreseen, judgement, verdict};

use crate::requests::field_request;
use crate::{Refusal, Refused, Request};
use meaning::Aligner;
use std::ops::Range;

// The state that the aligner would leave of a field row's request, or why it would be refused.
#[tactic(auto, unfolding(crate::specs::Judging::foreseen))]
fn judge_field(
    fields: &[u64],
    i: usize,
    a: Aligner,
    placed: &[u64],
    chunks: &[u64],
) -> Result<Aligner, Refusal>
    requires { i < room (size Table.fields) fields.now }
    ensures { told a result ≡ foreseen (request fields.now i) a placed.now chunks.now }
{
    match field_request(fields, i)? {
        Request::Nothing => Ok(a),
        Request::Bits(width) => Ok(alignment::judge_bitfield(a, placed, chunks, width)?),
        Request::Dynamic => Ok(alignment::judge_dyn_bytes(a, placed, chunks)?),
    }
}

// The first staged field row, once field row i is fed: where nothing was staged, it is row i.
fn first_staged(a: Aligner, first: usize, i: usize) -> usize
    ensures { result ≡ pick (staged a) first i }
{
    if alignment::is_aligned(a) { i } else { first }
}

// Judges the fields of these rows, then the end. No row is written. The range is lent, since both passes go over it.
pub fn judge_fields(
    fields: &[u64],
    rows: &Range<usize>,
    placed: &[u64],
    chunks: &[u64],
) -> Result<(), Refused>
    requires { rows.now.end ≤ room (size Table.fields) fields.now }
    ensures { judgement result ≡ verdict (feed_fields fields.now (rows.now.end - rows.now.start) rows.now.start (world fresh placed.now chunks.now)) }
{
    let mut a = Aligner::new();
    let mut place = rows.start;
    for i in rows.start..rows.end {
        let next = judge_field(fields, i, a, placed, chunks).map_err(|refusal| Refused {
            refusal,
            place: i,
        })?;
        place = first_staged(a, place, i);
        a = next;
    }
    // A match, since the refusal is wrapped and given its place at once.
    match alignment::align(a, placed, chunks) {
        Ok(_) => Ok(()),
        Err(refusal) => Err(Refused {
            refusal: Refusal::Aligner(refusal),
            place,
        }),
    }
}
