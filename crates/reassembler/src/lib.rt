// Row reassembly, as rigflow-client/src/net/udp.rs has it: a waterfall row comes in chunks, each with the row's number,
// its total of bins and its first bin. The row's state goes in by value and comes back; its values stand at the front of
// a lent slice. A row is there once a chunk was stored: a receiver begins with none.
#![tactic(auto)]

ghost use Rattle.std.specs.Prelude.{◌≡◌, ◌+◌, ◌≤◌, ◌<◌, length, map};
ghost use Rattle.model.specs.Row.{open_row, row_for, store_chunk, push_chunk};
ghost use Rattle.reassembler.specs.Requires.{Storable, PushFits};
ghost use Rattle.reassembler.specs.Rows.{value_of, chunk_of, open_of, row_of, counted_row, ChunkIn, StoredPrefix, PushedAs};

use udp_framing::big_endian::BigEndian;

// A row that chunks are stored in. `filled` counts overlaps again.
// `done` is one of a receiver's words, and a state that is handed in may have it at odds with `filled`: the third question
// asks that, so it is no method here.
#[derive(Clone, Copy, PartialEq, Eq, Debug)]
pub struct OpenRow {
    pub row_seq: u16,
    pub total_bins: usize,
    pub filled: usize,
    pub done: bool,
}

// What a chunk leaves of what it goes to, as the row, the screen, the channel or the receiver, and the bins of the row that it
// completed, if it did.
#[derive(Clone, Copy, PartialEq, Eq, Debug)]
pub struct Pushed<S> {
    pub state: S,
    pub completed: Option<usize>,
}

// What a payload says of a row: its number, its total of bins, the first bin of the values, and these as they come.
#[derive(Clone, Copy)]
struct Chunk<'a> {
    row_seq: u16,
    total_bins: usize,
    first: usize,
    values: &'a [[u8; 4]],
}

// Feeds one chunk, the bytes after the media header. A new row number or total opens a zeroed row; a done row ignores the
// chunk. At a value that is not finite the earlier ones remain and nothing is counted.
#[tactic(auto, using(crate::proofs::WellFormed::chunk_stored, crate::proofs::WellFormed::chunk_ignored, crate::proofs::RowStore::row_for_total, crate::proofs::RowStore::row_for_filled), unfolding(model::specs::Row::chunk_fields))]
pub fn push_chunk(row: Option<OpenRow>, buf: &mut [f32], payload: &[u8]) -> Pushed<Option<OpenRow>>
    requires { PushFits (row_of row buf.old) (length buf.old) payload.now }
    ensures { PushedAs (push_chunk payload.now (row_of row buf.old)) result buf.new }
{
    let Some(chunk) = chunk_in(payload) else {
        return Pushed {
            state: row,
            completed: None,
        };
    };
    let open = row_for(row, buf, chunk);
    store_chunk(open, buf, chunk)
}

// The chunk of a payload that is not ignored: 6 bytes or more, a total that is not 0, whole values, and all of them inside
// the total.
#[tactic(auto, using(crate::proofs::WellFormed::too_short_law))]
fn chunk_in(payload: &[u8]) -> Option<Chunk<'_>>
    ensures { ChunkIn payload.now result }
{
    if payload.len() < 6 {
        return None;
    }
    let total_bins = u16::read_from(payload, 2) as usize;
    let first = u16::read_from(payload, 4) as usize;
    let (values, rest) = payload[6..].as_chunks::<4>();
    if total_bins == 0 || !rest.is_empty() || total_bins < first + values.len() {
        return None;
    }
    let row_seq = u16::read_from(payload, 0);
    Some(Chunk {
        row_seq,
        total_bins,
        first,
        values,
    })
}

// The row that a chunk goes to: the open one, or where the number or the total is another, a zeroed one.
#[tactic(auto, unfolding(model::specs::Row::row_for))]
fn row_for(row: Option<OpenRow>, buf: &mut [f32], chunk: Chunk<'_>) -> OpenRow
    requires { chunk.total_bins ≤ length buf.old }
    ensures { open_of result buf.new ≡ row_for (chunk_of chunk.entry) (row_of row buf.old) }
{
    match row {
        Some(open) if open.row_seq == chunk.row_seq && open.total_bins == chunk.total_bins => open,
        _ => open_row(buf, chunk),
    }
}

// A zeroed row.
#[tactic(auto, using(model::proofs::Constants::f_zero, crate::proofs::RowStore::take_filled), unfolding(model::specs::Row::open_row))]
fn open_row(buf: &mut [f32], chunk: Chunk<'_>) -> OpenRow
    requires { chunk.total_bins ≤ length buf.old }
    ensures { open_of result buf.new ≡ open_row (chunk_of chunk.entry) }
{
    let total_bins = chunk.total_bins;
    areas::fill(buf, 0, total_bins, 0.0);
    OpenRow {
        row_seq: chunk.row_seq,
        total_bins,
        filled: 0,
        done: false,
    }
}

// Stores a chunk's values in its row. Filled bins at the total or above complete the row.
fn store_chunk(row: OpenRow, buf: &mut [f32], chunk: Chunk<'_>) -> Pushed<Option<OpenRow>>
    requires { Storable row.total_bins row.filled (length buf.old) chunk.first (length chunk.values.now) }
    ensures { PushedAs (store_chunk (chunk_of chunk.entry) (open_of row buf.old)) result buf.new }
{
    let n = chunk.values.len();
    if row.done || store_finite(&mut buf[chunk.first..], chunk.values) != n {
        return Pushed {
            state: Some(row),
            completed: None,
        };
    }
    count_filled(row, n)
}

// The row with n bins more.
fn count_filled(row: OpenRow, n: usize) -> Pushed<Option<OpenRow>>
    requires { row.filled + n < 18446744073709551616 }
    ensures { result ≡ counted_row row n }
{
    let filled = row.filled + n;
    let done = filled >= row.total_bins;
    Pushed {
        state: Some(OpenRow {
            filled,
            done,
            ..row
        }),
        completed: done.then_some(row.total_bins),
    }
}

// Stores the values, each a little-endian f32, up to the first that is not finite. The answer is how many were stored.
// No `zip` of the two slices: an invariant cannot speak of what is written through one.
fn store_finite(to: &mut [f32], values: &[[u8; 4]]) -> usize
    requires { length values.now ≤ length to.old }
    ensures { StoredPrefix (map value_of values.now) to.old to.new result }
{
    for (j, four) in values.iter().enumerate() {
        let v = floats::from_bits(u32::from_le_bytes(*four));
        if !floats::is_finite(v) {
            return j;
        }
        to[j] = v;
    }
    values.len()
}
