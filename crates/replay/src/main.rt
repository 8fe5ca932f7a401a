// Replays a script of calls on one store: a call on each line of standard input, its answer on a line of standard output.
#![tactic(auto)]

mod script;

use arrayvec::ArrayVec;
use session::{Answers, Session};
use std::io::{self, Read, Write};

// The answers are written out once they have grown to this length. The longest answer is 12,805 bytes, so room for 65,536 bytes takes
// one more.
const FULL: usize = 32768;

// What has been read of a line whose end has not come. It has room for one byte more than a line may have, so one that fills it is too
// long.
type Line = ArrayVec<u8, 16385>;

// The store and the memory that it lends, the answers so far, and the line that is being read.
#[derive(Drop)]
struct Desk {
    session: Session,
    memory: [u8; session::MEMORY],
    answers: Answers,
    line: Line,
}

impl Desk {
    fn new() -> Desk {
        Desk {
            session: Session::new(),
            memory: [0; session::MEMORY],
            answers: Answers::new(),
            line: Line::new(),
        }
    }

    // Writes out the answers that wait for it.
    fn flush<W: Write>(&mut self, out: &mut W) -> io::Result<()> {
        out.write_all(self.answers.as_slice())?;
        self.answers.clear();
        Ok(())
    }

    // Answers the line.
    fn answer(&mut self) {
        if self.line.is_full() {
            return session::malformed(&mut self.answers);
        }
        let mut room = [0u8; 8192];
        match script::command_of(self.line.as_slice(), &mut room) {
            Some(command) => self
                .session
                .call(&mut self.answers, &mut self.memory, command),
            None => session::malformed(&mut self.answers),
        }
    }

    // Ends the line: answers it, and writes the answers out where they have grown long.
    fn end_line<W: Write>(&mut self, out: &mut W) -> io::Result<()> {
        self.answer();
        self.line.clear();
        if self.answers.len() < FULL {
            return Ok(());
        }
        self.flush(out)
    }

    // Reads all lines that the input has, and keeps what stands after the last line end.
    fn take_input<W: Write>(&mut self, out: &mut W, input: &[u8]) -> io::Result<()> {
        for piece in input.split_inclusive(|byte| *byte == b'\n') {
            let front = piece.strip_suffix(b"\n");
            // What does not fit makes the line too long.
            let _ = self.line.extend(front.unwrap_or(piece).iter().copied());
            if front.is_some() {
                self.end_line(out)?;
            }
        }
        Ok(())
    }
}

// Reads to the end of the input, and answers what came after each read. A proved loop has to end, and nothing says that the input does, so
// the loop counts its turns up to a number that no run reaches.
fn replay<R: Read, W: Write>(reader: &mut R, out: &mut W) -> io::Result<()> {
    let mut desk = Desk::new();
    let mut input = [0u8; 65536];
    for _ in 0..u64::MAX {
        let n = reader.read(&mut input)?;
        if n == 0 {
            break;
        }
        desk.take_input(out, &input[..n])?;
        desk.flush(out)?;
    }
    // A last line that has no line end.
    if !desk.line.is_empty() {
        desk.end_line(out)?;
    }
    desk.flush(out)
}

fn main(rt: HostRuntime) -> io::Result<()> {
    replay(&mut rt.stdin(), &mut rt.stdout())
}
