// States that a caller made up: at the end of passed time, and for each condition of STATE.md on the settings file, the slots and a
// run some that break only it (`condition`) and some that just keep it (`kept`).
use board::State;
use run::{Passed, Phase, Position, Run, Tick};
use std::io;
use worked::{Lent, tell};

// Panel 1.44"; start steps: a wait of 5 ms, a write of 01, a write of 04; stop steps: a write of 03, a wait of 15 ms.
const FILE: [u8; 26] = [
    0x01, 0x00, 0x03, 0x44, 0x00, 0x05, 0x57, 0x01, 0x00, 0x00, 0x00, 0x00, 0x00, 0x0F, 0xFF, 0x00,
    0x57, 0x04, 0x03, 0x02, 0x57, 0x03, 0x00, 0x44, 0x00, 0x0F,
];

// A run with the last tick 0.
pub fn run(slot: u32, first: u64, handed: u64, passed: u64, next: Position) -> Run {
    Run {
        slot,
        last: Tick(0),
        passed: Passed(passed),
        handed: Passed(handed),
        first: Passed(first),
        next,
    }
}

pub fn line(stage: u32, frame: u32, row: u32) -> Position {
    Position::Line { stage, frame, row }
}

// The state with another run, length of its file, or last slot.
pub fn with_run(state: State, run: Run) -> State {
    let mut made = state;
    made.store.phase = Phase::Running(run);
    made
}

fn with_len(state: State, len: usize) -> State {
    let mut made = state;
    made.settings.len = len;
    made
}

pub fn with_slots(state: State, slots: u32) -> State {
    let mut made = state;
    made.store.slots = slots;
    made
}

// The state with 3 as its panel's code, which no panel has.
fn with_bad_panel(state: State) -> State {
    let mut made = state;
    made.settings.file[1] = 3;
    made
}

// Polls a made-up state, on a memory and an output of the poll's own, and prints the answer.
fn ask(rt: &impl Print, words: &str, state: State, tick: u32) -> io::Result<State> {
    tell::poll(rt, words, state, tick, &mut Lent::new())
}

// The same at tick 0, after the words that say whether the state breaks a condition or just keeps it.
pub fn told(rt: &impl Print, words: &str, state: State) -> io::Result<()> {
    ask(rt, words, state, 0)?;
    Ok(())
}

// The same of a made-up run, at its last tick.
fn tried(rt: &impl Print, words: &str, run: Run) -> io::Result<()> {
    told(rt, words, with_run(opened(), run))
}

// A store with no run, of slots 0 and 1.
pub fn opened() -> State {
    board::open(&FILE, 1, &mut Lent::new().memory).state
}

// Abandons a made-up state's run and prints the number.
fn abandon(rt: &impl Print, state: State) -> io::Result<()> {
    let number = state.abandon(&Lent::new().memory).number;
    println!(rt; "abandon: {number}")
}

// ---- the end of passed time

// Passed time 2^64 - 1: a step of 0 is taken, a step of 1 earns 10, and the run can still be abandoned.
fn last_moment(rt: &impl Print, state: State) -> io::Result<()> {
    let full = with_run(state, run(1, 0, 0, u64::MAX, line(1, 0, 50)));
    let after = ask(rt, "passed 2^64 - 1, step 0: ", full, 0)?;
    let refused = ask(rt, "passed 2^64 - 1, step 1: ", after, 1)?;
    abandon(rt, refused)
}

// The longest step, and one that is no step forward.
fn long_steps(rt: &impl Print, state: State) -> io::Result<()> {
    let made = with_run(state, run(1, 0, 0, 0, line(1, 0, 50)));
    ask(rt, "step 2147483647: ", made, 2147483647)?;
    ask(rt, "step 2147483648: ", made, 2147483648)?;
    Ok(())
}

// F at 2^64 - 41: frame 1 is due 30 ms later, which passed time still reaches.
fn late_first(rt: &impl Print, state: State) -> io::Result<()> {
    let f = u64::MAX - 40;
    let made = with_run(state, run(1, f, f, f, line(1, 1, 0)));
    ask(rt, "F at 2^64 - 41, step 0: ", made, 0)?;
    ask(rt, "F at 2^64 - 41, step 29: ", made, 29)?;
    ask(rt, "F at 2^64 - 41, step 30: ", made, 30)?;
    ask(rt, "F at 2^64 - 41, step 40: ", made, 40)?;
    ask(rt, "F at 2^64 - 41, step 41: ", made, 41)?;
    Ok(())
}

// F, or the last line, at 2^64 - 1: the next thing is due beyond what passed time reaches.
fn last_first(rt: &impl Print, state: State) -> io::Result<()> {
    let end = u64::MAX;
    let made = with_run(state, run(1, end, end, end, line(1, 1, 0)));
    ask(rt, "F at 2^64 - 1, step 0: ", made, 0)?;
    ask(rt, "F at 2^64 - 1, step 1: ", made, 1)?;
    let stop = with_run(state, run(1, end - 1890, end, end, Position::Stop(0)));
    ask(rt, "last line at 2^64 - 1, step 0: ", stop, 0)?;
    ask(rt, "last line at 2^64 - 1, step 1: ", stop, 1)?;
    Ok(())
}

// ---- the conditions

// (a) and (b), of a store with no run, which is refused by 9 where it keeps them. With n = 7 the memory is too short, which is 1.
fn store(rt: &impl Print, state: State) -> io::Result<()> {
    told(rt, "condition a: ", with_len(state, 638))?;
    told(rt, "condition a: ", with_len(state, 25))?;
    told(rt, "condition a: ", with_len(state, 27))?;
    told(rt, "condition a: ", with_bad_panel(state))?;
    told(rt, "kept a: ", with_len(state, 26))?;
    told(rt, "condition b: ", with_slots(state, 0))?;
    told(rt, "condition b: ", with_slots(state, 8))?;
    told(rt, "kept b: ", with_slots(state, 1))?;
    told(rt, "kept b: ", with_slots(state, 7))
}

// (c) and (d), of a run anywhere.
fn anywhere(rt: &impl Print) -> io::Result<()> {
    tried(rt, "condition c: ", run(0, 0, 5, 5, line(1, 0, 1)))?;
    tried(rt, "condition c: ", run(2, 0, 5, 5, line(1, 0, 1)))?;
    tried(rt, "kept c: ", run(1, 0, 5, 5, line(1, 0, 1)))?;
    tried(rt, "condition d: ", run(1, 0, 6, 5, line(1, 0, 1)))?;
    tried(rt, "kept d: ", run(1, 0, 5, 6, line(1, 0, 1)))
}

// (e) to (h), before the first line.
fn before_lines(rt: &impl Print) -> io::Result<()> {
    tried(rt, "condition e: ", run(1, 0, 5, 5, Position::Start(4)))?;
    tried(rt, "kept e: ", run(1, 0, 5, 5, Position::Start(3)))?;
    tried(rt, "condition f: ", run(1, 0, 5, 5, Position::Start(1)))?;
    tried(rt, "kept f: ", run(1, 0, 5, 5, Position::Start(2)))?;
    tried(rt, "condition g: ", run(1, 0, 1, 5, Position::Start(0)))?;
    tried(rt, "kept g: ", run(1, 0, 0, 4, Position::Start(0)))?;
    tried(rt, "condition h: ", run(1, 1, 0, 5, Position::Start(0)))?;
    tried(rt, "condition h: ", run(1, 1, 5, 5, Position::Start(2)))?;
    tried(rt, "kept h: ", run(1, 0, 0, 5, Position::Start(0)))
}

// (i) and (j), among the lines.
fn among_lines(rt: &impl Print) -> io::Result<()> {
    tried(rt, "condition i: ", run(1, 0, 3000, 3000, line(0, 5, 5)))?;
    tried(rt, "condition i: ", run(1, 0, 3000, 3000, line(5, 5, 5)))?;
    tried(rt, "condition i: ", run(1, 0, 3000, 3000, line(2, 16, 5)))?;
    tried(rt, "condition i: ", run(1, 0, 3000, 3000, line(2, 5, 96)))?;
    tried(rt, "kept i: ", run(1, 0, 3000, 3000, line(1, 0, 1)))?;
    tried(rt, "kept i: ", run(1, 0, 3000, 3000, line(4, 15, 95)))?;
    tried(rt, "condition j: ", run(1, 0, 3000, 3000, line(1, 0, 0)))?;
    tried(rt, "kept j: ", run(1, 0, 3000, 3000, line(2, 0, 0)))
}

// (k): the line before went out when its frame was due; the due moment does not wrap.
fn line_before(rt: &impl Print) -> io::Result<()> {
    let end = u64::MAX;
    tried(rt, "condition k: ", run(1, 0, 29, 100, line(1, 1, 1)))?;
    tried(rt, "condition k: ", run(1, 0, 29, 100, line(1, 2, 0)))?;
    tried(rt, "condition k: ", run(1, 6, 5, 100, line(1, 0, 1)))?;
    tried(
        rt,
        "condition k: ",
        run(1, end - 29, end, end, line(1, 1, 1)),
    )?;
    tried(rt, "kept k: ", run(1, 0, 30, 100, line(1, 1, 1)))?;
    tried(rt, "kept k: ", run(1, 0, 30, 30, line(1, 2, 0)))?;
    tried(rt, "kept k: ", run(1, end - 30, end, end, line(1, 1, 1)))
}

// (l) and (m), after the lines.
fn after_lines(rt: &impl Print) -> io::Result<()> {
    let end = u64::MAX;
    tried(
        rt,
        "condition l: ",
        run(1, 0, 3000, 3000, Position::Stop(3)),
    )?;
    tried(
        rt,
        "condition l: ",
        run(1, 0, 3000, 3000, Position::Stop(2)),
    )?;
    tried(rt, "kept l: ", run(1, 0, 3000, 3000, Position::Stop(1)))?;
    tried(
        rt,
        "condition m: ",
        run(1, 0, 1889, 3000, Position::Stop(0)),
    )?;
    tried(
        rt,
        "condition m: ",
        run(1, 0, 1919, 3000, Position::Stop(1)),
    )?;
    tried(
        rt,
        "condition m: ",
        run(1, end - 1919, end, end, Position::Stop(1)),
    )?;
    tried(rt, "kept m: ", run(1, 0, 1890, 1890, Position::Stop(0)))?;
    tried(rt, "kept m: ", run(1, 0, 1890, 1920, Position::Stop(0)))?;
    tried(rt, "kept m: ", run(1, 0, 1920, 1935, Position::Stop(1)))
}

pub fn examples(rt: &impl Print) -> io::Result<()> {
    let state = opened();
    last_moment(rt, state)?;
    long_steps(rt, state)?;
    late_first(rt, state)?;
    last_first(rt, state)?;
    store(rt, state)?;
    anywhere(rt)?;
    before_lines(rt)?;
    among_lines(rt)?;
    line_before(rt)?;
    after_lines(rt)?;
    ask(rt, "the empty state: ", board::empty_state(), 0)?;
    Ok(())
}
