// States that a caller made up, with a fill: for each condition of STATE.md on it some that break only it, and some that just keep it.
// A store with no run refuses a poll with 9 where it keeps them.
use crate::made;
use bitmap::Palette;
use board::State;
use fill::Fill;
use std::io;

// The state with another fill.
fn with_fill(state: State, fill: Fill) -> State {
    let mut made = state;
    made.store.fill = fill;
    made
}

// Polls a store with no run and a made-up fill, after the words that say whether it breaks a condition or just keeps it.
fn tried(rt: &impl Print, words: &str, fill: Fill) -> io::Result<()> {
    made::told(rt, words, with_fill(made::opened(), fill))
}

// ---- made-up fills, of slot 1 where none is named

// No byte is kept.
fn none() -> [u8; 62] {
    [0; 62]
}

// The bytes with another one at an index.
fn with_byte(bytes: [u8; 62], at: usize, byte: u8) -> [u8; 62] {
    let mut after = bytes;
    if at < 62 {
        after[at] = byte;
    }
    after
}

// `BM`, with which a header begins.
fn magic() -> [u8; 62] {
    let mut bytes = none();
    bytes[0] = 0x42;
    bytes[1] = 0x4D;
    bytes
}

// The whole header of a file for the 1.44" panel: its length 1,598 at 2, the numbers 62, 40, 128, 96, 1 and 1, the 1,536 bytes of the
// rows at 34, and white as the second colour.
fn header() -> [u8; 62] {
    let mut bytes = magic();
    bytes[2] = 0x3E;
    bytes[3] = 0x06;
    bytes[10] = 62;
    bytes[14] = 40;
    bytes[18] = 128;
    bytes[22] = 96;
    bytes[26] = 1;
    bytes[28] = 1;
    bytes[35] = 0x06;
    bytes[58] = 0xFF;
    bytes[59] = 0xFF;
    bytes[60] = 0xFF;
    bytes
}

// With no palette before the header is whole, and with one after it.
fn part(palette: Option<Palette>, came: usize, kept: [u8; 62]) -> Fill {
    Fill {
        slot: 1,
        came,
        palette,
        kept,
    }
}

fn with_palette(fill: Fill, palette: Palette) -> Fill {
    Fill {
        palette: Some(palette),
        ..fill
    }
}

fn with_no_slot(fill: Fill) -> Fill {
    Fill { slot: 0, ..fill }
}

// ---- the conditions

// (n) and (o), on the slot. With n = 2 the memory is too short, which is 1.
fn slot(rt: &impl Print) -> io::Result<()> {
    tried(rt, "condition n: ", fill::begun(2))?;
    tried(rt, "condition n: ", fill::begun(4294967295))?;
    tried(rt, "kept n: ", fill::begun(1))?;
    made::told(
        rt,
        "kept n: ",
        with_fill(made::with_slots(made::opened(), 2), fill::begun(2)),
    )?;
    let run = made::run(1, 0, 5, 5, made::line(1, 0, 1));
    let running = made::with_run(made::opened(), run);
    made::told(rt, "condition o: ", with_fill(running, fill::begun(1)))?;
    made::told(rt, "kept o: ", running)?;
    made::told(
        rt,
        "kept o: ",
        with_fill(made::with_slots(running, 2), fill::begun(2)),
    )
}

// (p), on how many bytes came: a file has 1,598.
fn count(rt: &impl Print) -> io::Result<()> {
    let black = Some(Palette::BlackFirst);
    tried(rt, "condition p: ", part(black, 1599, none()))?;
    tried(rt, "condition p: ", part(black, usize::MAX, none()))?;
    tried(rt, "kept p: ", part(black, 1598, none()))
}

// (q) before the header is whole, the bytes that came: at 35 the second byte of 1,536 or of 0, at 38 anything, at 46 the first byte of 0
// or of 2, at 60 the last byte of white.
fn begun_header(rt: &impl Print) -> io::Result<()> {
    tried(
        rt,
        "condition q: ",
        part(None, 1, with_byte(none(), 0, 0x43)),
    )?;
    tried(
        rt,
        "condition q: ",
        part(None, 61, with_byte(header(), 35, 1)),
    )?;
    tried(
        rt,
        "condition q: ",
        part(None, 61, with_byte(header(), 46, 1)),
    )?;
    tried(
        rt,
        "condition q: ",
        part(None, 61, with_byte(header(), 60, 0xFE)),
    )?;
    tried(rt, "kept q: ", part(None, 2, magic()))?;
    tried(rt, "kept q: ", part(None, 61, header()))?;
    tried(rt, "kept q: ", part(None, 61, with_byte(header(), 35, 0)))?;
    tried(rt, "kept q: ", part(None, 61, with_byte(header(), 38, 1)))?;
    tried(rt, "kept q: ", part(None, 61, with_byte(header(), 46, 2)))
}

// (q), the palette: not known before the header is whole, and good then.
fn palette(rt: &impl Print) -> io::Result<()> {
    let black = Some(Palette::BlackFirst);
    tried(
        rt,
        "condition q: ",
        with_palette(fill::empty(), Palette::BlackFirst),
    )?;
    tried(
        rt,
        "condition q: ",
        with_palette(fill::begun(1), Palette::WhiteFirst),
    )?;
    tried(rt, "condition q: ", part(black, 2, magic()))?;
    tried(rt, "condition q: ", part(None, 62, none()))?;
    tried(rt, "condition q: ", part(None, 1598, none()))?;
    tried(rt, "kept q: ", part(black, 62, none()))?;
    tried(rt, "kept q: ", part(Some(Palette::WhiteFirst), 62, none()))
}

// (r): after what came of the header, and of a row of 16 bytes, there is 0.
fn unused(rt: &impl Print) -> io::Result<()> {
    let black = Some(Palette::BlackFirst);
    tried(
        rt,
        "condition r: ",
        with_no_slot(part(None, 0, with_byte(none(), 61, 1))),
    )?;
    tried(rt, "condition r: ", part(None, 0, magic()))?;
    tried(rt, "condition r: ", part(None, 1, magic()))?;
    tried(
        rt,
        "condition r: ",
        part(black, 62, with_byte(none(), 0, 1)),
    )?;
    tried(
        rt,
        "condition r: ",
        part(black, 77, with_byte(none(), 15, 1)),
    )?;
    tried(
        rt,
        "condition r: ",
        part(black, 78, with_byte(none(), 0, 1)),
    )?;
    tried(
        rt,
        "condition r: ",
        part(black, 1598, with_byte(none(), 61, 1)),
    )?;
    tried(rt, "kept r: ", part(black, 63, with_byte(none(), 0, 1)))?;
    tried(rt, "kept r: ", part(black, 77, with_byte(none(), 14, 1)))?;
    tried(rt, "kept r: ", part(black, 78, none()))
}

// (s), with no slot.
fn no_slot(rt: &impl Print) -> io::Result<()> {
    let black = Some(Palette::BlackFirst);
    tried(rt, "condition s: ", with_no_slot(part(None, 2, magic())))?;
    tried(rt, "condition s: ", with_no_slot(part(black, 62, none())))?;
    tried(rt, "kept s: ", fill::empty())
}

pub fn examples(rt: &impl Print) -> io::Result<()> {
    slot(rt)?;
    count(rt)?;
    begun_header(rt)?;
    palette(rt)?;
    unused(rt)?;
    no_slot(rt)
}
