// Register writes and lines, as bytes on the wire.
#![tactic(auto)]

ghost use Rattle.std.specs.Prelude.{◌≡◌, ◌+◌, ◌*◌, ◌/◌, ◌%◌, ◌^◌, ◌≤◌, ◌<◌, cond, [], ◌∷◌, eqb, leb, ltb, length};
ghost use Rattle.lists.specs.Lists.{tabulate, overlay, overlay_at};
ghost use Rattle.lists.specs.Rules.{every};
ghost use Rattle.panel.specs.Codes.{code_by};
ghost use Rattle.panel.specs.Dots.{bit, row_dot};
ghost use Rattle.refusal.specs.Numbers.{number_given};
ghost use Rattle.wire.specs.Registers.{register_write};
ghost use Rattle.wire.specs.Line.{pack_codes, dots_byte, scan_byte, line, line_length, handed_line};
ghost use Rattle.wire.specs.Builder.{build_line};

use panel::{Panel, Shape};
use refusal::Refusal;

// Puts a register write at the front of `out`, and answers its length.
pub fn put_write(out: &mut [u8], register: u8, bytes: &[u8]) -> usize
    requires { (3 + length bytes.now ≤ length out.old) × (length bytes.now ≤ 110) }
    ensures { (result ≡ 3 + length bytes.now)
        × (out.new ≡ overlay (register_write register bytes.now) out.old) }
{
    put_head(out, 0, register);
    lists::put_at(out, 3, bytes);
    3 + bytes.len()
}

// One code more at the low end of those joined so far.
fn join(high: u8, code: u8) -> u8
    requires { (high < 64) × (code < 4) }
    ensures { result ≡ high * 4 + code }
{
    (high << 2) | code
}

// The dot codes of a stage, where its picture is white and where it is black.
#[derive(Clone, Copy)]
struct Codes {
    white: u8,
    black: u8,
    ghost white_low: { white < 4 },
    ghost black_low: { black < 4 },
}

impl Codes {
    // The code of the dot at bit k of a picture byte.
    fn of_dot(self, byte: u8, k: u8) -> u8
        requires { k < 8 }
        ensures { (result ≡ code_by self.white self.black (byte / 2 ^ k % 2)) × (result < 4) }
    {
        if (byte >> k) & 1 == 1 {
            self.white
        } else {
            self.black
        }
    }

    // The codes of the dots at four bits of a picture byte, joined, high pair first.
    fn of_four(self, byte: u8, i: u8, j: u8, k: u8, l: u8) -> u8
        requires { (i < 8) × (j < 8) × (k < 8) × (l < 8) }
        ensures { result
            ≡ pack_codes (code_by self.white self.black (byte / 2 ^ i % 2))
            (code_by self.white self.black (byte / 2 ^ j % 2))
            (code_by self.white self.black (byte / 2 ^ k % 2))
            (code_by self.white self.black (byte / 2 ^ l % 2)) }
    {
        let one = self.of_dot(byte, i);
        let two = join(one, self.of_dot(byte, j));
        let three = join(two, self.of_dot(byte, k));
        join(three, self.of_dot(byte, l))
    }

    // The codes of every second dot of a picture byte: of its odd dots, last to first, or of its even dots, first to last.
    fn of_byte<const ODD: bool>(self, byte: u8) -> u8
        ensures { result
            ≡ dots_byte ODD 8 (λ x. code_by self.white self.black (bit byte x)) 0 }
    {
        if ODD {
            self.of_four(byte, 0, 2, 4, 6)
        } else {
            self.of_four(byte, 7, 5, 3, 1)
        }
    }
}

// Puts the codes of every second dot of a row: of its odd dots, last to first, or of its even dots, first to last. It is compiled by itself:
// both loops together would take more stack.
#[inline(never)]
fn put_dots<const ODD: bool>(out: &mut [u8], at: usize, row: &[u8], codes: Codes)
    requires { at + length row.now ≤ length out.old }
    ensures { out.new
        ≡ overlay_at at
        (tabulate (length row.now)
        (dots_byte ODD (8 * length row.now)
        (λ x. code_by codes.white codes.black (row_dot row.now x))))
        out.old }
{
    // by index: the byte written goes up while the odd dots' byte read goes down
    for k in 0..row.len() {
        let j = if ODD { row.len() - 1 - k } else { k };
        out[at + k] = codes.of_byte::<ODD>(row[j]);
    }
}

// Puts the n scan bytes of row y.
fn put_scan(out: &mut [u8], at: usize, n: usize, y: usize)
    requires { at + n ≤ length out.old }
    ensures { out.new ≡ overlay_at at (tabulate n (scan_byte y)) out.old }
{
    lists::fill_at(out, at, n, 0);
    let place = y / 4;
    if place < n {
        out[at + place] = panel::scan_mark(y % 4);
    }
}

// Puts the line of a picture row at the front of `out`, on a panel of `rows` rows that are as wide as this one.
// A stage is its number, 1 to 4, here and above: `epd_build_line` is called with it, and `line` speaks of it.
pub fn put_line(out: &mut [u8], rows: usize, stage: usize, y: usize, row: &[u8])
    requires { (rows ≤ 176) × (1 ≤ stage) × (stage ≤ 4) × (length row.now ≤ 33)
        × (line_length (length row.now) rows ≤ length out.old) }
    ensures { out.new
        ≡ overlay (line (length row.now) rows stage y (row_dot row.now)) out.old }
{
    let (white, black) = panel::dot_codes(stage);
    let codes = Codes { white, black };
    let n = row.len();
    let scans = rows / 4;
    put_dots::<false>(out, 0, row, codes);
    put_scan(out, n, scans, y);
    put_dots::<true>(out, n + scans, row, codes);
}

// The head of a register write: 70, the register, 72.
fn put_head(out: &mut [u8], at: usize, register: u8)
    requires { (at + 3 ≤ length out.old) × (at ≤ 120) }
    ensures { out.new ≡ overlay_at at (0x70 ∷ register ∷ 0x72 ∷ []) out.old }
{
    let head = [0x70, register, 0x72];
    lists::put_at(out, at, &head);
}

// Puts at the front of `out` what is handed out for a line, and answers its length.
pub fn hand_out_line(out: &mut [u8], rows: usize, stage: usize, y: usize, row: &[u8]) -> usize
    requires { (rows ≤ 176) × (1 ≤ stage) × (stage ≤ 4) × (length row.now ≤ 33)
        × (line_length (length row.now) rows + 7 ≤ length out.old) }
    ensures { (result ≡ line_length (length row.now) rows + 7)
        × (out.new
        ≡ overlay (handed_line (length row.now) rows stage y (row_dot row.now)) out.old) }
{
    let n = row.len() + rows / 4 + row.len();
    put_head(out, 0, 0x0A);
    put_line(&mut out[3..], rows, stage, y, row);
    let after = [0x70, 0x02, 0x72, 0x2F];
    lists::put_at(out, n + 3, &after);
    n + 7
}

// Whether stage and row are in range, and a picture row has the panel's row bytes.
fn in_range(shape: Shape, stage: u32, y: u32, row_length: usize) -> bool
    ensures { result
        ≡ every (leb 1 stage ∷ leb stage 4 ∷ ltb y shape.rows ∷ eqb row_length shape.bytes ∷ []) }
{
    (1..=4).contains(&stage) && (y as usize) < shape.rows && row_length == shape.bytes
}

// The line builder: the line of a picture row in a stage. The panel comes by its code, as in `epd_build_line`, since a code that names
// none is refused here.
pub fn build_line(panel: u32, stage: u32, y: u32, row: &[u8], out: &mut [u8]) -> Result<(), Refusal>
    ensures { (number_given result, out.new) ≡ build_line panel stage y row.now out.old }
{
    let panel = Panel::try_from(panel)?;
    let shape = panel.shape();
    if !in_range(shape, stage, y, row.len()) {
        return Err(Refusal::Argument);
    }
    if out.len() < row.len() + shape.rows / 4 + row.len() {
        return Err(Refusal::Output);
    }
    put_line(out, shape.rows, stage as usize, y as usize, row);
    Ok(())
}
