// Runs the worked examples of document 01 that are about the time of a run, all with its example file and F at tick 4294967290, and prints
// a line for each.
#![tactic(auto)]

use board::State;
use poll::Answer;
use run::Tick;
use std::io;
use worked::{Lent, tell};

// The example file of document 01: panel 1.44", two start writes, one stop wait of 15 ms.
const FILE: [u8; 20] = [
    0x01, 0x00, 0x02, 0x57, 0x01, 0x00, 0x00, 0x00, 0x00, 0x00, 0x0F, 0xFF, 0x00, 0x57, 0x04, 0x03,
    0x01, 0x44, 0x00, 0x0F,
];

// The tick of the start and of F.
const FIRST: u32 = 4294967290;

// The lines of a frame, and of a run: 4 stages of 16 frames of 96 rows.
const FRAME: u32 = 96;

const ALL: u32 = 6144;

// More polls than a run takes: 2 writes, 6,144 lines, at most a wait for each of 64 frames and one at the end, and done.
const ENOUGH: u32 = 7000;

// A store of slots 0 and 1 that shows slot 1 from tick FIRST on.
fn started(lent: &mut Lent) -> State {
    let opened = board::open(&FILE, 1, &mut lent.memory).state;
    opened.start(&lent.memory, 1, Tick(FIRST)).state
}

// What some polls leave: the state, and how many of them handed out what was asked for.
#[derive(Clone, Copy)]
struct Batch {
    state: State,
    count: u32,
}

// Polls n times at a tick, or until an answer comes that is not wanted.
fn polls<F: Fn(Answer) -> bool + Drop>(
    state: State,
    wanted: F,
    n: u32,
    tick: u32,
    lent: &mut Lent,
) -> Batch
    requires { F.IsAlwaysCallable wanted }
{
    let mut state = state;
    for count in 0..n {
        let polled = state.poll(Tick(tick), &mut lent.memory, &mut lent.out);
        state = polled.state;
        if !wanted(polled.answer) {
            return Batch { state, count };
        }
    }
    Batch { state, count: n }
}

// Polls for n lines at a tick and prints how many came.
fn tell_lines(
    rt: &impl Print,
    words: &str,
    state: State,
    n: u32,
    tick: u32,
    lent: &mut Lent,
) -> io::Result<State> {
    let batch = polls(
        state,
        |answer| matches!(answer, Answer::Line(_)),
        n,
        tick,
        lent,
    );
    let count = batch.count;
    println!(rt; "{words}{count}")?;
    Ok(batch.state)
}

// A run whose two start writes are out.
fn behind_writes(rt: &impl Print, lent: &mut Lent) -> io::Result<State> {
    let batch = polls(
        started(lent),
        |answer| matches!(answer, Answer::Write(_)),
        2,
        FIRST,
        lent,
    );
    let count = batch.count;
    println!(rt; "writes at F: {count}")?;
    Ok(batch.state)
}

// A run whose first n lines went at F.
fn behind_first(rt: &impl Print, n: u32, lent: &mut Lent) -> io::Result<State> {
    let state = behind_writes(rt, lent)?;
    tell_lines(rt, "lines at F: ", state, n, FIRST, lent)
}

// With frame 0 out at F, a poll at 10 answers wait 14, and frame 1 begins at 24.
fn poll_frame_1(rt: &impl Print, lent: &mut Lent) -> io::Result<()> {
    let state = behind_first(rt, FRAME, lent)?;
    let waiting = tell::poll(rt, "poll at 10: ", state, 10, lent)?;
    tell::poll(rt, "poll at 24: ", waiting, 24, lent)?;
    Ok(())
}

// A run whose frame 0 has its last line at 40; after it frame 1 goes at once.
fn late_frame_1(rt: &impl Print, lent: &mut Lent) -> io::Result<State> {
    let state = behind_first(rt, FRAME - 1, lent)?;
    let late = tell::poll(rt, "frame 0's last line, at 40: ", state, 40, lent)?;
    tell_lines(rt, "lines of frame 1, at 40: ", late, FRAME, 40, lent)
}

// After that frame 2 goes from 54, not 70.
fn poll_frame_2(rt: &impl Print, lent: &mut Lent) -> io::Result<()> {
    let state = late_frame_1(rt, lent)?;
    let waiting = tell::poll(rt, "frame 2, at 53: ", state, 53, lent)?;
    tell::poll(rt, "frame 2, at 54: ", waiting, 54, lent)?;
    Ok(())
}

// ---- whole runs

// A run that is polled as soon as something is due: its tick, how many lines went out, and whether done came.
#[derive(Clone, Copy)]
struct Drive {
    state: State,
    tick: u32,
    lines: u32,
    done: bool,
}

impl Drive {
    // Polls once. The clock goes on by the ms of a wait.
    fn turn(&mut self, lent: &mut Lent) {
        let polled = self
            .state
            .poll(Tick(self.tick), &mut lent.memory, &mut lent.out);
        self.state = polled.state;
        match polled.answer {
            Answer::Wait(ms) => self.tick = self.tick.wrapping_add(ms),
            Answer::Line(_) => self.lines = self.lines.wrapping_add(1),
            Answer::Done => self.done = true,
            _ => {}
        }
    }

    // Polls until this many lines went out, or done came.
    fn go(&mut self, lines: u32, lent: &mut Lent) {
        for _ in 0..ENOUGH {
            if self.done || self.lines == lines {
                return;
            }
            self.turn(lent);
        }
    }

    // The ms from F to its tick.
    fn since_first(&self) -> u32 {
        self.tick.wrapping_sub(FIRST)
    }
}

// Hands out the last line and goes on to done.
fn finish(rt: &impl Print, drive: &mut Drive, lent: &mut Lent) -> io::Result<()> {
    drive.go(ALL, lent);
    let lines = drive.lines;
    let last = drive.since_first();
    println!(rt; "lines: {lines}")?;
    println!(rt; "last line at F + {last}")?;
    drive.go(ALL + 1, lent);
    let over = drive.since_first();
    if drive.done {
        println!(rt; "done at F + {over}")?;
    }
    Ok(())
}

// A whole run, polled as soon as each thing was due, whose last line is held back until F + `hold` if that is given.
fn run_out(rt: &impl Print, hold: Option<u32>, lent: &mut Lent) -> io::Result<()> {
    let mut drive = Drive {
        state: started(lent),
        tick: FIRST,
        lines: 0,
        done: false,
    };
    drive.go(ALL - 1, lent);
    if let Some(ms) = hold {
        drive.tick = FIRST.wrapping_add(ms);
    }
    finish(rt, &mut drive, lent)
}

// Each example opens the store anew, which makes its memory white. One memory for all of them: five would lie on the stack together.
fn main(rt: HostRuntime) -> io::Result<()> {
    let mut lent = Lent::new();
    poll_frame_1(&rt, &mut lent)?;
    poll_frame_2(&rt, &mut lent)?;
    run_out(&rt, None, &mut lent)?;
    run_out(&rt, Some(1920), &mut lent)?;
    run_out(&rt, Some(2000), &mut lent)
}
