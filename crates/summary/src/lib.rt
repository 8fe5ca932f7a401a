// The summary of a slot: how many dots are black, and the first and last row with one. A slot has h rows of b bytes.
#![tactic(auto)]

ghost use Rattle.std.specs.Prelude.{◌≡◌, ◌+◌, ◌*◌, ◌≤◌, eqb, length, get_or, set, replicate, sum_by, Some};
ghost use Rattle.picture.specs.Slots.{picture_of, slot_picture};
ghost use Rattle.summary.specs.Summaries.{summary_of, empty_summary};
ghost use Rattle.summary.specs.Facts.{black_in_byte, first_black, last_black};

use panel::Shape;

// The first and the last row with a black dot.
#[derive(Clone, Copy, Debug, PartialEq, Eq)]
pub struct Span {
    pub first: u32,
    pub last: u32,
}

// What is kept beside a slot: the number of its black dots, and the rows where they are, none where the slot is blank.
#[derive(Clone, Copy, Debug, PartialEq, Eq)]
pub struct Summary {
    pub black: u32,
    pub span: Option<Span>,
}

// ---- black dots, by the bytes that hold them

// The black dots of a byte: its bits that are 0.
fn byte_black(byte: u8) -> u8
    ensures { result ≡ black_in_byte byte }
{
    byte.count_zeros() as u8
}

// The black dots of at most sixteen bytes. Their number fits a byte, so that the compiler can count sixteen bytes at once.
fn few_black(bytes: &[u8]) -> u8
    requires { length bytes.now ≤ 16 }
    ensures { result ≡ sum_by black_in_byte bytes.now }
{
    let mut black: u8 = 0;
    for byte in bytes {
        black += byte_black(*byte);
    }
    black
}

// The black dots of bytes: of the last ones, and of whole sixteens.
fn black_in(bytes: &[u8]) -> u32
    requires { length bytes.now ≤ 5808 }
    ensures { result ≡ sum_by black_in_byte bytes.now }
{
    let (whole, last) = bytes.split_at(bytes.len() - bytes.len() % 16);
    let mut black = u32::from(few_black(last));
    for part in whole.chunks_exact(16) {
        black += u32::from(few_black(part));
    }
    black
}

// Whether none of a few bytes has a black dot: all are FF. Every byte is read, without a test in between, so that the compiler can take
// sixteen at once.
fn few_white(bytes: &[u8]) -> bool
    ensures { result ≡ eqb (sum_by black_in_byte bytes.now) 0 }
{
    bytes.iter().fold(0xFF, |all, byte| all & *byte) == 0xFF
}

// Whether no byte has a black dot, sixteen bytes at a time: a row has one or two sixteens, and at most nine bytes more.
fn all_white(bytes: &[u8]) -> bool
    ensures { result ≡ eqb (sum_by black_in_byte bytes.now) 0 }
{
    let (whole, last) = bytes.split_at(bytes.len() - bytes.len() % 16);
    for sixteen in whole.chunks_exact(16) {
        if !few_white(sixteen) {
            return false;
        }
    }
    few_white(last)
}

// ---- a fresh count

// The caller lends the bytes of one slot, so each function asks for their length; a type of its own would be no plainer.

// The first row with a black dot. A nested scan over rows and bytes, left by a labelled break with the row found, is the form that the
// project's rules ask for here. A white row is passed as a whole, many bytes at a time.
fn first_row(b: usize, h: usize, raw: &[u8]) -> Option<usize>
    requires { (length raw.now ≡ h * b) × (b ≤ 33) × (h ≤ 176) }
    ensures { result ≡ first_black b h (picture_of b h raw.now) }
{
    let mut y: usize = 0;
    'rows: loop {
        if y == h {
            break 'rows None;
        }
        let row = &raw[y * b..(y + 1) * b];
        if !all_white(row) {
            for byte in row {
                if *byte != 0xFF {
                    break 'rows Some(y);
                }
            }
        }
        y += 1;
    }
}

// The last row with a black dot, found from the bottom up in the same way.
fn last_row(b: usize, h: usize, raw: &[u8]) -> Option<usize>
    requires { (length raw.now ≡ h * b) × (b ≤ 33) × (h ≤ 176) }
    ensures { result ≡ last_black b h (picture_of b h raw.now) }
{
    let mut y = h;
    'rows: loop {
        if y == 0 {
            break 'rows None;
        }
        y -= 1;
        let row = &raw[y * b..(y + 1) * b];
        if !all_white(row) {
            for byte in row {
                if *byte != 0xFF {
                    break 'rows Some(y);
                }
            }
        }
    }
}

// 0 and none.
pub fn empty_summary() -> Summary
    ensures { result ≡ empty_summary }
{
    Summary {
        black: 0,
        span: None,
    }
}

// The summary of the picture that a slot's bytes hold, where the first and the last row with a black dot are known. Rows outside these
// are not counted.
fn summary_between(b: usize, h: usize, raw: &[u8], first: usize, last: usize) -> Summary
    requires { (length raw.now ≡ h * b) × (b ≤ 33) × (h ≤ 176)
        × (first_black b h (picture_of b h raw.now) ≡ Some first)
        × (last_black b h (picture_of b h raw.now) ≡ Some last) }
    ensures { result ≡ summary_of b h (picture_of b h raw.now) }
{
    let rows = &raw[first * b..(last + 1) * b];
    Summary {
        black: black_in(rows),
        span: Some(Span {
            first: first as u32,
            last: last as u32,
        }),
    }
}

// The summary of the picture that a slot's bytes hold.
pub fn summary_of(b: usize, h: usize, raw: &[u8]) -> Summary
    requires { (length raw.now ≡ h * b) × (b ≤ 33) × (h ≤ 176) }
    ensures { result ≡ summary_of b h (picture_of b h raw.now) }
{
    let Some(first) = first_row(b, h, raw) else {
        return empty_summary();
    };
    let Some(last) = last_row(b, h, raw) else {
        return empty_summary();
    };
    summary_between(b, h, raw, first, last)
}

// A fresh count of a slot of the memory: what a call that writes the slot leaves at its place.
pub fn fresh_count(shape: Shape, memory: &[u8], slot: usize) -> Summary
    requires { (slot ≤ 7) × (slot * (shape.rows * shape.bytes) + shape.rows * shape.bytes ≤ length memory.now) }
    ensures { result ≡ summary_of shape.bytes shape.rows (slot_picture shape.bytes shape.rows memory.now slot) }
{
    let size = shape.rows * shape.bytes;
    let start = slot * size;
    summary_of(shape.bytes, shape.rows, &memory[start..start + size])
}

// ---- the places of a store's slots

// Slots 0 to 7 have one place each, used or not: there is no heap, and the store's state holds such an array. A slot is a number there, so
// `slot ≤ 7` is asked; a type of its own would be no plainer.

// 0 and none at every place, as an opening leaves them.
pub fn empty_summaries() -> [Summary; 8]
    ensures { result ≡ replicate 8 empty_summary }
{
    let empty = empty_summary();
    [empty; 8]
}

// The summary at the place of a slot.
pub fn summary_at(summaries: [Summary; 8], slot: usize) -> Summary
    requires { slot ≤ 7 }
    ensures { result ≡ get_or summaries slot empty_summary }
{
    summaries[slot]
}

// The summaries with another one at the place of a slot.
pub fn with_summary(mut summaries: [Summary; 8], slot: usize, summary: Summary) -> [Summary; 8]
    requires { slot ≤ 7 }
    ensures { result ≡ set summaries slot summary }
{
    summaries[slot] = summary;
    summaries
}

// The summaries after a slot was copied to slot 0: its summary stands at place 0 too.
pub fn with_shown(summaries: [Summary; 8], slot: usize) -> [Summary; 8]
    requires { slot ≤ 7 }
    ensures { result ≡ set summaries 0 (get_or summaries slot empty_summary) }
{
    with_summary(summaries, 0, summary_at(summaries, slot))
}
