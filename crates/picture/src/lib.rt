// Painting on the slots of the lent memory. A slot has h rows of b bytes, one after the other, mostly those of a panel's shape.
// A slot is a part of memory that the caller lends, so each contract says how long it is: a type that holds the lent part would have to
// promise it back at each call, which is no plainer. The loops of the painters go by index, since the number of a dot, a byte or a row is
// asked for too.
#![tactic(auto)]

ghost use Rattle.std.specs.Prelude.{◌≡◌, ◌+◌, ◌-◌, ◌*◌, ◌/◌, ◌%◌, ◌<◌, ◌≤◌, true, map, leb, length, take, drop};
ghost use Rattle.lists.specs.Lists.{overlay_at};
ghost use Rattle.lists.specs.Rules.{all_below, first_of};
ghost use Rattle.panel.specs.Dots.{row_dot, dot};
ghost use Rattle.picture.specs.Pictures.{pack_dots, turned};
ghost use Rattle.picture.specs.Slots.{picture_of, raw_of, picture_row, painted};
ghost use Rattle.picture.specs.Regions.{
  region_good,
  payload_row,
  row_clear,
  payload_good,
  region_cases,
  with_region,
};
ghost use Rattle.picture.specs.Facts.{FillNoByte};
ghost use Rattle.refusal.specs.Numbers.{number_given};

use panel::Shape;
use refusal::Refusal;

// A region of a picture: its corner, and its size. `layout::Rect` has the same parts, but no crate stands on both.
#[derive(Clone, Copy)]
pub struct Region {
    pub x: u32,
    pub y: u32,
    pub width: u32,
    pub height: u32,
}

impl Region {
    // The bytes of a row of its payload.
    fn row_bytes(self) -> usize
        ensures { result ≡ payload_row self.width }
    {
        (self.width as usize).div_ceil(8)
    }
}

// Dot x of a row.
fn get_dot(row: &[u8], x: usize) -> u8
    requires { x / 8 < length row.now }
    ensures { result ≡ row_dot row.now x }
{
    row[x / 8] >> (7 - x % 8) & 1
}

// Sets dot x of row y of a slot of h rows of b bytes, by one write for either value: a branch on the dot costs twice the time.
#[tactic(auto, using(crate::proofs::Slots::dot_place))]
fn set_dot(b: usize, h: usize, raw: &mut [u8], x: usize, y: usize, v: u8)
    requires { (length raw.old ≡ h * b) × (x < 8 * b) × (y < h) × (v < 2) × (b ≤ 33) }
    ensures { raw.new ≡ painted b h raw.old x y 1 1 (λ _ _. v) }
{
    let at = y * b + x / 8;
    let mark = 128u8 >> (x % 8);
    raw[at] = if v == 1 {
        raw[at] | mark
    } else {
        raw[at] & !mark
    };
}

// Paints n dots of a row, from its dot i on, on a slot from dot x of row y on: each dot by itself.
pub fn paint_dots(
    b: usize,
    h: usize,
    raw: &mut [u8],
    x: usize,
    y: usize,
    n: usize,
    row: &[u8],
    i: usize,
)
    requires { (length raw.old ≡ h * b) × (x + n ≤ 8 * b) × (y < h) × (i + n ≤ 8 * length row.now)
        × (b ≤ 33) × (i ≤ 264) }
    ensures { raw.new
        ≡ painted b h raw.old x y n 1 (λ u _. row_dot row.now (i + u)) }
{
    for k in 0..n {
        set_dot(b, h, raw, x + k, y, get_dot(row, i + k));
    }
}

// Paints a ragged edge: `paint_dots`, for dots that fill no byte of the slot. Its contract is what keeps whole bytes from going by dots.
fn paint_edge(shape: Shape, raw: &mut [u8], x: usize, y: usize, n: usize, row: &[u8], i: usize)
    requires { (length raw.old ≡ shape.rows * shape.bytes) × (x + n ≤ 8 * shape.bytes) × (y < shape.rows)
        × (i + n ≤ 8 * length row.now) × (i ≤ 264) × FillNoByte x n }
    ensures { raw.new
        ≡ painted shape.bytes shape.rows raw.old x y n 1 (λ u _. row_dot row.now (i + u)) }
{
    paint_dots(shape.bytes, shape.rows, raw, x, y, n, row, i);
}

// The byte of the eight dots of a row from dot i on, which lie in one byte of it or run from one into the next.
fn eight_dots(row: &[u8], i: usize) -> u8
    requires { i + 8 ≤ 8 * length row.now }
    ensures { result ≡ pack_dots (λ u. row_dot row.now (i + u)) }
{
    let at = i / 8;
    let shift = i % 8;
    if shift == 0 {
        return row[at];
    }
    row[at] << shift | row[at + 1] >> (8 - shift)
}

// Paints 8n dots as `paint_dots` does, where x is a multiple of 8: each byte of the slot at once.
#[tactic(auto, using(lists::proofs::Parts::more_rows))]
fn paint_bytes(shape: Shape, raw: &mut [u8], x: usize, y: usize, n: usize, row: &[u8], i: usize)
    requires { (length raw.old ≡ shape.rows * shape.bytes) × (x + 8 * n ≤ 8 * shape.bytes) × (y < shape.rows)
        × (i + 8 * n ≤ 8 * length row.now) × (i ≤ 264) × (x % 8 ≡ 0) }
    ensures { raw.new
        ≡ painted shape.bytes shape.rows raw.old x y (8 * n) 1 (λ u _. row_dot row.now (i + u)) }
{
    let at = y * shape.bytes + x / 8;
    for k in 0..n {
        raw[at + k] = eight_dots(row, i + 8 * k);
    }
}

// A way to paint a row.
pub trait Painter {
    // Paints the first `width` dots of row j of a region whose corner is dot x of row y of a slot.
    fn paint_row(
        shape: Shape,
        raw: &mut [u8],
        x: usize,
        y: usize,
        j: usize,
        width: usize,
        row: &[u8],
    )
        requires { (length raw.old ≡ shape.rows * shape.bytes) × (x + width ≤ 8 * shape.bytes)
            × (y + j < shape.rows) × (width ≤ 8 * length row.now) }
        ensures { raw.new
            ≡ painted shape.bytes shape.rows raw.old x (y + j) width 1 (λ u _. row_dot row.now u) };
}

// By whole bytes.
pub struct ByBytes;

impl Painter for ByBytes {
    // Bytes of the slot that the dots fill are written whole, and only the ragged edges before and after them go by dots.
    fn paint_row(
        shape: Shape,
        raw: &mut [u8],
        x: usize,
        y: usize,
        j: usize,
        width: usize,
        row: &[u8],
    ) {
        let y = y + j;
        let left = (8 - x % 8) % 8;
        if width < left + 8 {
            paint_edge(shape, raw, x, y, width, row, 0);
            return;
        }
        let n = (width - left) / 8;
        let right = left + 8 * n;
        paint_edge(shape, raw, x, y, left, row, 0);
        paint_bytes(shape, raw, x + left, y, n, row, left);
        paint_edge(shape, raw, x + right, y, width - right, row, right);
    }
}

// Paints a good region on a slot, row by row. That it is good is asked by the two tests that refuse it: a region with a payload inside
// would be a type that borrows, for one pair of calls.
fn paint_rows<P: Painter>(shape: Shape, raw: &mut [u8], region: Region, payload: &[u8])
    requires { (length raw.old ≡ shape.rows * shape.bytes)
        × (region_good shape.bytes shape.rows region.x region.y region.width region.height ≡ true)
        × (payload_good region.width region.height payload.now ≡ true) }
    ensures { raw.new
        ≡ painted shape.bytes shape.rows raw.old region.x region.y region.width region.height
        (dot (payload_row region.width) payload.now) }
{
    let x = region.x as usize;
    let y = region.y as usize;
    let width = region.width as usize;
    let bytes = region.row_bytes();
    // by index: the row's number is asked for too, and std has no lemma on what `chunks_exact` yields
    for j in 0..region.height as usize {
        let end = (j + 1) * bytes;
        P::paint_row(shape, raw, x, y, j, width, &payload[end - bytes..end]);
    }
}

// Copies row y of the picture that a slot holds into `out`, from index `at` on.
#[tactic(auto, using(lists::proofs::Parts::more_rows))]
pub fn copy_row(shape: Shape, raw: &[u8], y: usize, out: &mut [u8], at: usize)
    requires { (length raw.now ≡ shape.rows * shape.bytes) × (y < shape.rows)
        × (at + shape.bytes ≤ length out.old) }
    ensures { out.new
        ≡ overlay_at at (picture_row shape.bytes (picture_of shape.bytes shape.rows raw.now) y) out.old }
{
    let start = y * shape.bytes;
    let end = start + shape.bytes;
    lists::put_at(out, at, &raw[start..end]);
}

// Makes row y of the picture that a slot holds the bytes of `rows` from index `at` on. The row is cut out of a file's rows here, so that
// this contract and the next speak of the file's bytes, as that of `read_bitmap` does.
pub fn put_row(shape: Shape, raw: &mut [u8], y: usize, rows: &[u8], at: usize)
    requires { (length raw.old ≡ shape.rows * shape.bytes) × (y < shape.rows)
        × (at + shape.bytes ≤ length rows.now) }
    ensures { raw.new
        ≡ raw_of shape.bytes shape.rows
        (overlay_at (y * shape.bytes) (take shape.bytes (drop at rows.now))
        (picture_of shape.bytes shape.rows raw.old)) }
{
    let end = at + shape.bytes;
    ByBytes::paint_row(shape, raw, 0, y, 0, 8 * shape.bytes, &rows[at..end]);
}

// Copies `bytes` into `out`, from index `at` on, with each dot turned over.
fn turn_at(out: &mut [u8], at: usize, bytes: &[u8])
    requires { at + length bytes.now ≤ length out.old }
    ensures { out.new ≡ overlay_at at (map turned bytes.now) out.old }
{
    for (i, &byte) in bytes.iter().enumerate() {
        out[at + i] = !byte;
    }
}

// Makes row y of the picture that a slot holds the bytes of `rows` from index `at` on, with each dot turned over.
#[tactic(auto, using(lists::proofs::Parts::more_rows))]
pub fn put_turned(shape: Shape, raw: &mut [u8], y: usize, rows: &[u8], at: usize)
    requires { (length raw.old ≡ shape.rows * shape.bytes) × (y < shape.rows)
        × (at + shape.bytes ≤ length rows.now) }
    ensures { raw.new
        ≡ raw_of shape.bytes shape.rows
        (overlay_at (y * shape.bytes) (map turned (take shape.bytes (drop at rows.now)))
        (picture_of shape.bytes shape.rows raw.old)) }
{
    let end = at + shape.bytes;
    turn_at(raw, y * shape.bytes, &rows[at..end]);
}

// Whether `size` dots from dot `from` on end by dot `limit`. The sum is a whole number: 64 bits hold it on any machine.
fn ends_by(from: u32, size: u32, limit: usize) -> bool
    requires { limit ≤ 264 }
    ensures { result ≡ leb (from + size) limit }
{
    u64::from(from) + u64::from(size) <= limit as u64
}

// Whether a region lies on the panel.
#[tactic(auto, unfolding(crate::specs::Regions::region_good))]
fn region_good(shape: Shape, region: Region) -> bool
    ensures { result
        ≡ region_good shape.bytes shape.rows region.x region.y region.width region.height }
{
    1 <= region.width
        && 1 <= region.height
        && ends_by(region.x, region.width, 8 * shape.bytes)
        && ends_by(region.y, region.height, shape.rows)
}

// Whether no unused bit of row j of a payload is set.
#[tactic(auto, using(lists::proofs::Parts::more_rows))]
fn row_clear(region: Region, payload: &[u8], j: usize) -> bool
    requires { (1 ≤ region.width) × (region.width ≤ 264) × (j < region.height) × (region.height ≤ 176)
        × (length payload.now ≡ region.height * payload_row region.width) }
    ensures { result ≡ row_clear region.width payload.now j }
{
    let bytes = region.row_bytes();
    let unused = 1u8 << (bytes * 8 - region.width as usize);
    payload[j * bytes + bytes - 1] % unused == 0
}

// Whether no unused bit of a payload is set.
fn rows_clear(region: Region, payload: &[u8]) -> bool
    requires { (1 ≤ region.width) × (region.width ≤ 264) × (region.height ≤ 176)
        × (length payload.now ≡ region.height * payload_row region.width) }
    ensures { result ≡ all_below region.height (row_clear region.width payload.now) }
{
    (0..region.height as usize).all(|j| row_clear(region, payload, j))
}

// Whether a payload is the rows of a region.
fn payload_good(region: Region, payload: &[u8]) -> bool
    requires { (1 ≤ region.width) × (region.width ≤ 264) × (region.height ≤ 176) }
    ensures { result ≡ payload_good region.width region.height payload.now }
{
    payload.len() == region.height as usize * region.row_bytes() && rows_clear(region, payload)
}

// Whether a region lies on the panel, and the payload is its rows.
pub fn check_region(shape: Shape, region: Region, payload: &[u8]) -> Result<(), Refusal>
    ensures { number_given result
        ≡ first_of
        (region_cases shape.bytes shape.rows region.x region.y region.width region.height payload.now)
        (λ n. n)
        0 }
{
    if !region_good(shape, region) {
        return Err(Refusal::Region);
    }
    if !payload_good(region, payload) {
        return Err(Refusal::Payload);
    }
    Ok(())
}

// Paints a good region on a slot of the memory, in a given way. A slot is its number, as C and the state have it.
pub fn paint_region_by<P: Painter>(
    shape: Shape,
    memory: &mut [u8],
    slot: usize,
    region: Region,
    payload: &[u8],
)
    requires { (slot ≤ 7)
        × (slot * (shape.rows * shape.bytes) + shape.rows * shape.bytes ≤ length memory.old)
        × (region_good shape.bytes shape.rows region.x region.y region.width region.height ≡ true)
        × (payload_good region.width region.height payload.now ≡ true) }
    ensures { memory.new
        ≡ with_region shape.bytes shape.rows memory.old slot region.x region.y region.width
        region.height payload.now }
{
    let start = slot * (shape.rows * shape.bytes);
    let end = start + shape.rows * shape.bytes;
    paint_rows::<P>(shape, &mut memory[start..end], region, payload);
}

// The same by whole bytes, as uploads paint: their caller names no way, and `by_dots`, which compares two, names each.
pub fn paint_region(shape: Shape, memory: &mut [u8], slot: usize, region: Region, payload: &[u8])
    requires { (slot ≤ 7)
        × (slot * (shape.rows * shape.bytes) + shape.rows * shape.bytes ≤ length memory.old)
        × (region_good shape.bytes shape.rows region.x region.y region.width region.height ≡ true)
        × (payload_good region.width region.height payload.now ≡ true) }
    ensures { memory.new
        ≡ with_region shape.bytes shape.rows memory.old slot region.x region.y region.width
        region.height payload.now }
{
    paint_region_by::<ByBytes>(shape, memory, slot, region, payload);
}
