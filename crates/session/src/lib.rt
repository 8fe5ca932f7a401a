// A store under a script: makes the call that a line asks for, on the memory that the script lends, and writes its answer.
#![tactic(auto)]

use arrayvec::ArrayVec;
use board::{Reply, State};
use panel::Panel;
use picture::Region;
use poll::Answer;
use run::Tick;
use std::io::{self, Write};
use summary::{Span, Summary};

// The most bytes that a script may lend: the slots 0 to 7 of the largest panel, and its bitmap file.
pub const MEMORY: usize = 46464;

pub const OUTPUT: usize = 6398;

// The answers that wait to be written out.
pub type Answers = ArrayVec<u8, 65536>;

// What a line of a script asks for, with the bytes that its HEX stands for.
#[derive(Clone, Copy)]
pub enum Command<'a> {
    Open {
        n: u32,
        file: &'a [u8],
        lent: Option<usize>,
    },
    Lend(usize),
    Region {
        slot: u32,
        region: Region,
        payload: &'a [u8],
    },
    Bitmap {
        slot: u32,
        file: &'a [u8],
    },
    Begin(u32),
    Chunk(&'a [u8]),
    Finish,
    Cancel,
    Start {
        slot: u32,
        tick: Tick,
    },
    Poll {
        tick: Tick,
        len: usize,
    },
    Abandon,
    Write {
        slot: u32,
        len: usize,
    },
    Summary(u32),
}

// The store's state, and how many bytes of the memory a call is lent. The memory is the caller's: each call of the store is lent it anew.
#[derive(Clone, Copy)]
pub struct Session {
    pub state: State,
    pub lent: usize,
}

// The bytes that an opening on this file takes. Where the file names no panel, or n is above 7, it is refused with any length.
fn exact_length(n: u32, file: &[u8]) -> usize {
    let named = file
        .get(1)
        .and_then(|&code| Panel::try_from(u32::from(code)).ok());
    match named {
        Some(panel) if n <= 7 => {
            let shape = panel.shape();
            (n as usize + 1) * (shape.rows * shape.bytes)
        }
        _ => MEMORY,
    }
}

// The bytes of a bitmap file of the panel that a settings file names.
fn file_length(file: &[u8; 637]) -> usize {
    match Panel::try_from(u32::from(file[1])) {
        Ok(panel) => {
            let shape = panel.shape();
            bitmap::file_length(shape.rows, shape.stride)
        }
        Err(_) => OUTPUT,
    }
}

// The hexadecimal digit of a value below 16.
fn digit_of(value: u8) -> u8 {
    b"0123456789ABCDEF"[usize::from(value % 16)]
}

// A byte as a pair of digits.
fn pair_of(byte: u8) -> [u8; 2] {
    [digit_of(byte / 16), digit_of(byte)]
}

// Sixteen bytes as pairs of digits.
fn pairs_of(bytes: &[u8; 16]) -> [u8; 32] {
    let mut digits = [0u8; 32];
    for i in 0..16usize {
        let [high, low] = pair_of(bytes[i]);
        digits[2 * i] = high;
        digits[2 * i + 1] = low;
    }
    digits
}

// A word, and the first `len` bytes of `bytes` as pairs of hexadecimal digits. The digits are put by hand, since most of what a script is
// answered is bytes: `{:02X}` for each takes seven times as long, and a write for each takes twice as long.
fn put_bytes<W: Write>(out: &mut W, word: &str, bytes: &[u8], len: usize) -> io::Result<()> {
    write!(out, "{word}")?;
    let (sixteens, last) = bytes[..len.min(bytes.len())].as_chunks::<16>();
    for part in sixteens {
        out.write_all(&pairs_of(part))?;
    }
    for &byte in last {
        out.write_all(&pair_of(byte))?;
    }
    writeln!(out)
}

// What a poll answers, with the output that it was lent.
fn put_answer<W: Write>(out: &mut W, answer: Answer, lent: &[u8]) -> io::Result<()> {
    match answer {
        Answer::Refused(number) => writeln!(out, "{number}"),
        Answer::Write(len) => put_bytes(out, "0 write ", lent, len),
        Answer::Line(len) => put_bytes(out, "0 line ", lent, len),
        Answer::Wait(ms) => writeln!(out, "0 wait {ms}"),
        Answer::Done => writeln!(out, "0 done"),
    }
}

// The black dots of a slot, and the first and the last row with one, or `none`.
fn put_summary<W: Write>(out: &mut W, summary: Summary) -> io::Result<()> {
    let black = summary.black;
    match summary.span {
        None => writeln!(out, "0 {black} none"),
        Some(Span { first, last }) => writeln!(out, "0 {black} {first} {last}"),
    }
}

impl Session {
    // No store is open: the state is the empty one, and a call is lent nothing.
    pub fn new() -> Session {
        Session {
            state: board::empty_state(),
            lent: 0,
        }
    }

    // Keeps a call's state and writes its number.
    fn keep<W: Write>(&mut self, out: &mut W, reply: Reply) -> io::Result<()> {
        self.state = reply.state;
        let number = reply.number;
        writeln!(out, "{number}")
    }

    // Opens a store on as many bytes as the line says, else as many as the opening takes. The calls after it are lent as many.
    fn open<W: Write>(
        &mut self,
        out: &mut W,
        memory: &mut [u8],
        n: u32,
        file: &[u8],
        asked: Option<usize>,
    ) -> io::Result<()> {
        self.lent = asked.unwrap_or(exact_length(n, file)).min(memory.len());
        let lent = &mut memory[..self.lent];
        self.keep(out, board::open(file, n, lent))
    }

    fn poll<W: Write>(
        &mut self,
        out: &mut W,
        memory: &mut [u8],
        tick: Tick,
        len: usize,
    ) -> io::Result<()> {
        let mut room = [0u8; OUTPUT];
        let put = &mut room[..len.min(OUTPUT)];
        let polled = self.state.poll(tick, memory, put);
        self.state = polled.state;
        put_answer(out, polled.answer, put)
    }

    fn write_bitmap<W: Write>(
        &mut self,
        out: &mut W,
        memory: &[u8],
        slot: u32,
        len: usize,
    ) -> io::Result<()> {
        let mut room = [0u8; OUTPUT];
        let put = &mut room[..len.min(OUTPUT)];
        let reply = self.state.write_bitmap(memory, slot, put);
        if reply.number != 0 {
            return self.keep(out, reply);
        }
        self.state = reply.state;
        put_bytes(out, "0 ", put, file_length(&self.state.settings.file))
    }

    fn summary<W: Write>(&mut self, out: &mut W, slot: u32) -> io::Result<()> {
        let told = self.state.summary(slot);
        self.state = told.state;
        let number = told.number;
        if number != 0 {
            return writeln!(out, "{number}");
        }
        put_summary(out, told.summary)
    }

    // The call, and its answer on a line of any writer.
    fn answer<W: Write>(
        &mut self,
        out: &mut W,
        memory: &mut [u8],
        command: Command,
    ) -> io::Result<()> {
        let state = self.state;
        let room = self.lent.min(memory.len());
        let lent = &mut memory[..room];
        match command {
            Command::Open {
                n,
                file,
                lent: asked,
            } => self.open(out, memory, n, file, asked),
            Command::Lend(len) => {
                self.lent = len;
                writeln!(out, "0")
            }
            Command::Region {
                slot,
                region,
                payload,
            } => {
                // The store's call takes the four numbers apart: its signature may not change.
                let reply = state.upload_region(
                    lent,
                    slot,
                    region.x,
                    region.y,
                    region.width,
                    region.height,
                    payload,
                );
                self.keep(out, reply)
            }
            Command::Bitmap { slot, file } => {
                let reply = state.upload_bitmap(lent, slot, file);
                self.keep(out, reply)
            }
            Command::Begin(slot) => self.keep(out, state.begin_fill(lent, slot)),
            Command::Chunk(bytes) => self.keep(out, state.feed_fill(lent, bytes)),
            Command::Finish => self.keep(out, state.finish_fill(lent)),
            Command::Cancel => self.keep(out, state.cancel_fill(lent)),
            Command::Start { slot, tick } => self.keep(out, state.start(lent, slot, tick)),
            Command::Poll { tick, len } => self.poll(out, lent, tick, len),
            Command::Abandon => self.keep(out, state.abandon(lent)),
            Command::Write { slot, len } => self.write_bitmap(out, lent, slot, len),
            Command::Summary(slot) => self.summary(out, slot),
        }
    }

    // Makes the call that a line asks for, on the lent part of the memory, and puts its answer on a line. What has no room is left out, which
    // the program rules out by writing the answers out in time.
    pub fn call(&mut self, answers: &mut Answers, memory: &mut [u8], command: Command) {
        let _ = self.answer(answers, memory, command);
    }
}

// The answer to a line that is none of the script's.
pub fn malformed(answers: &mut Answers) {
    let _ = writeln!(answers, "?");
}
