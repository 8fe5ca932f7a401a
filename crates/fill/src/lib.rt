// Bitmap files that come in chunks: what is kept of one, and what its bytes do to it and to the slot that it fills.
#![tactic(auto)]

ghost use Rattle.std.specs.Prelude.{◌≡◌, ℕ, ◌+◌, ◌*◌, ◌<◌, ◌≤◌, length, take};
ghost use Rattle.bitmap.specs.Header.{header_length, file_length};
ghost use Rattle.fill.specs.Fills.{fill_with, none_kept, begun_fill, empty_fill, rows_come, kept_count};
ghost use Rattle.fill.specs.Feeding.{keeping, completed, piece_fed, bytes_fed};
ghost use Rattle.fill.specs.Facts.{part_length};

use bitmap::Palette;
use panel::Shape;

// A bitmap file on its way into a slot: the slot (0: none is being filled), how many bytes came, the palette once the header has come
// whole, and the bytes of the header or row that has not; after these there is 0. The store's state holds one, and the theorems on
// chunks speak of its fields.
#[derive(Clone, Copy)]
pub struct Fill {
    pub slot: u32,
    pub came: usize,
    pub palette: Option<Palette>,
    pub kept: [u8; 62],
}

// ---- fills

// A fill of a slot for which no byte has come.
pub fn begun(slot: u32) -> Fill
    ensures { result ≡ begun_fill slot }
{
    Fill {
        slot,
        came: 0,
        palette: None,
        kept: [0; 62],
    }
}

// The one fixed empty fill.
pub fn empty() -> Fill
    ensures { result ≡ empty_fill }
{
    begun(0)
}

// ---- what has come

// How many rows these bytes of a file make whole.
pub fn rows_come(shape: Shape, came: usize) -> usize
    ensures { result ≡ rows_come shape.stride came }
{
    came.saturating_sub(62) / shape.stride
}

// ---- the header or row that is not whole yet

// How many bytes of it have come.
pub fn kept_count(shape: Shape, came: usize) -> usize
    ensures { (result ≡ kept_count shape.stride came) × (result < part_length shape.stride came) }
{
    if came < 62 {
        came
    } else {
        (came - 62) % shape.stride
    }
}

// How many bytes it has.
fn part_length(shape: Shape, came: usize) -> usize
    ensures { result ≡ part_length shape.stride came }
{
    if came < 62 { 62 } else { shape.stride }
}

// Bytes of it are counted and kept.
fn keep(shape: Shape, fill: Fill, piece: &[u8]) -> Fill
    requires { (kept_count shape.stride fill.came + length piece.now ≤ part_length shape.stride fill.came)
        × (fill.came + length piece.now ≤ 10000) }
    ensures { (result ≡ keeping shape.stride fill piece.now) × (length fill.kept ≡ header_length) }
{
    let mut more = fill;
    lists::put_at(&mut more.kept, kept_count(shape, fill.came), piece);
    more.came += piece.len();
    more
}

// It is whole: the header says the palette, and a row is written. That `raw` has the length of a slot is asked here and below: the caller
// lends the slot's bytes, and no type of its own would be plainer.
#[tactic(auto, unfolding(crate::specs::Feeding::completed))]
fn complete(shape: Shape, fill: Fill, raw: &mut [u8]) -> Fill
    requires { (length raw.old ≡ shape.rows * shape.bytes) × (header_length ≤ fill.came)
        × ((fill.came ≡ header_length → ⊥) → (0 < rows_come shape.stride fill.came) × (rows_come shape.stride fill.came ≤ shape.rows)) }
    ensures { (result, raw.new) ≡ completed shape.bytes shape.rows shape.stride fill raw.old }
{
    let kept = [0; 62];
    if fill.came == 62 {
        let palette = bitmap::palette_of(&fill.kept);
        return Fill {
            palette,
            kept,
            ..fill
        };
    }
    let y = shape.rows - rows_come(shape, fill.came);
    bitmap_codec::put_dots(shape, fill.palette, raw, y, &fill.kept, 0);
    Fill { kept, ..fill }
}

// Takes in bytes of it, no more than it lacks.
#[tactic(auto, unfolding(crate::specs::Feeding::piece_fed))]
fn take_piece(shape: Shape, fill: Fill, piece: &[u8], raw: &mut [u8]) -> Fill
    requires { (length raw.old ≡ shape.rows * shape.bytes)
        × (kept_count shape.stride fill.came + length piece.now ≤ part_length shape.stride fill.came)
        × (fill.came + length piece.now ≤ file_length shape.rows shape.stride) × (0 < length piece.now) }
    ensures { ((result, raw.new) ≡ piece_fed shape.bytes shape.rows shape.stride fill raw.old piece.now)
        × (length fill.kept ≡ header_length) }
{
    let more = keep(shape, fill, piece);
    if kept_count(shape, more.came) != 0 {
        return more;
    }
    complete(shape, more, raw)
}

// ---- a chunk

// How many whole rows come first in `left` bytes: none where the bytes before them end inside a header or row.
fn whole_rows(shape: Shape, came: usize, left: usize) -> usize
    ensures { (result * shape.stride ≤ left) × (0 < result → (header_length ≤ came) × (kept_count shape.stride came ≡ 0)) }
{
    if came < 62 || kept_count(shape, came) != 0 {
        return 0;
    }
    left / shape.stride
}

// Takes in the whole rows at the front of `rows`, straight from where they stand, and answers how many bytes they have.
fn take_rows(
    shape: Shape,
    came: usize,
    palette: Option<Palette>,
    rows: &[u8],
    raw: &mut [u8],
) -> usize
    requires { (length raw.old ≡ shape.rows * shape.bytes) × (came + length rows.now ≤ file_length shape.rows shape.stride) }
    ensures { (result ≤ length rows.now) × (0 < result → kept_count shape.stride came ≡ 0)
        × ((slot : ℕ) → (fill_with slot (came + result) palette none_kept, raw.new)
        ≡ bytes_fed shape.bytes shape.rows shape.stride (fill_with slot came palette none_kept, raw.old) (take result rows.now)) }
{
    let n = whole_rows(shape, came, rows.len());
    if n == 0 {
        return 0;
    }
    let top = shape.rows - rows_come(shape, came);
    // by number: row k of the file is also row `top - 1 - k` of the picture
    for k in 0..n {
        bitmap_codec::put_dots(shape, palette, raw, top - 1 - k, rows, k * shape.stride);
    }
    n * shape.stride
}

// Takes in bytes of a file: each time all that the header or row lacks, or all that are left, and then the whole rows after them. Each
// turn takes another number of bytes, so no `for` over pieces of one size goes through them.
pub fn take_bytes(shape: Shape, fill: Fill, chunk: &[u8], raw: &mut [u8]) -> Fill
    requires { (length raw.old ≡ shape.rows * shape.bytes) × (fill.came + length chunk.now ≤ file_length shape.rows shape.stride) }
    ensures { (result, raw.new) ≡ bytes_fed shape.bytes shape.rows shape.stride (fill, raw.old) chunk.now }
{
    let mut here = fill;
    let mut rest = chunk;
    while !rest.is_empty() {
        let lacks = part_length(shape, here.came) - kept_count(shape, here.came);
        let (piece, after) = rest.split_at(lacks.min(rest.len()));
        here = take_piece(shape, here, piece, raw);
        let rows = take_rows(shape, here.came, here.palette, after, raw);
        here.came += rows;
        rest = &after[rows..];
    }
    here
}
