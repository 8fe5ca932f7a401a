// A poll of a run under way: a wait answer, or the one thing that is handed out.
#![tactic(auto)]

ghost use Rattle.std.specs.Prelude.{◌≡◌, ℕ, ◌+◌, ◌*◌, ◌≤◌, ◌<◌, List, length, take, drop};
ghost use Rattle.lists.specs.Lists.{overlay_at};
ghost use Rattle.panel.specs.Names.{panel_code};
ghost use Rattle.refusal.specs.Numbers.{number_of};
ghost use Rattle.settings.specs.Settings.{row_bytes_in, step_of, start_count, start_steps, stop_count, stop_steps, rows_in};
ghost use Rattle.settings.specs.Steps.{from_write};
ghost use Rattle.balance.specs.Sums.{picture_of_stage};
ghost use Rattle.run.specs.Facts.{Ready};
ghost use Rattle.picture.specs.Facts.{SlotIn};
ghost use Rattle.poll.specs.HandOut.{step_bytes, line_bytes, shown_after, outcome, send_write, send_line, hand_start, hand_stop, hand_out};
ghost use Rattle.poll.specs.Poll.{poll_at, poll_run};
ghost use Rattle.poll.specs.Facts.{Sent, LineIn, Room};

use panel::Shape;
use refusal::Refusal;
use run::{Passed, Phase, Position, Reading, Run, Tick};
use settings::{AcceptedFile, Kind};

// What a poll answers: the number of a refusal; a register write or a line, with the length put out; the ms still to go; or that
// the run is over.
#[derive(Clone, Copy)]
pub enum Answer {
    // the number, no Refusal: theorems speak of this type
    Refused(u8),
    Write(usize),
    Line(usize),
    Wait(u32),
    Done,
}

// What a poll of a run leaves besides the lent bytes.
#[derive(Clone, Copy)]
pub struct Handed {
    pub answer: Answer,
    pub phase: Phase,
}

// Puts the write at index `at` of the file at the front of the output, and answers its length. Where no write stands, it puts nothing: no
// Option, as 0 is the length of `step_bytes` there too. Here and below `117 ≤ length out` stays a clause: the output is the caller's, of any
// length, and its first 117 bytes as an array would be a part that is joined again in each contract.
fn put_step(accepted: AcceptedFile, at: usize, out: &mut [u8]) -> usize
    requires { (at ≤ length accepted.file.now) × (117 ≤ length out.old) }
    ensures { Sent (step_bytes (step_of (panel_code accepted.entry.plan.panel) (drop at accepted.entry.file.now))) out.old result out.new }
{
    let Some(Kind::Write(register)) = accepted.step_at(at) else {
        return 0;
    };
    wire::put_write(out, register, accepted.data_of(at, register))
}

// The slot whose picture a stage looks at: the shown one in stages 1 and 2, the run's in stages 3 and 4.
#[tactic(auto, unfolding(balance::specs::Sums::picture_of_stage))]
fn slot_of_stage(stage: u32, slot: u32) -> u32
    ensures { result ≡ picture_of_stage stage 0 slot }
{
    if stage <= 2 { 0 } else { slot }
}

// Where a row of a slot begins in the memory.
fn row_start(shape: Shape, slot: u32, row: u32) -> usize
    requires { (slot ≤ 7) × (row < shape.rows) }
    ensures { (result ≡ slot * (shape.rows * shape.bytes) + row * shape.bytes) × (result ≤ 46464) }
{
    slot as usize * (shape.rows * shape.bytes) + row as usize * shape.bytes
}

// Puts the line of a row, and the write after it, at the front of the output, and answers their length.
fn put_line(
    accepted: AcceptedFile,
    memory: &[u8],
    slot: u32,
    stage: u32,
    row: u32,
    out: &mut [u8],
) -> usize
    requires { (SlotIn (row_bytes_in accepted.file.now) (rows_in accepted.file.now) (length memory.now) slot) × (1 ≤ stage) × (stage ≤ 4)
        × (row < rows_in accepted.file.now) × (117 ≤ length out.old) }
    ensures { Sent (line_bytes accepted.entry.file.now memory.now slot stage row) out.old result out.new }
{
    let start = row_start(accepted.plan.shape, slot_of_stage(stage, slot), row);
    let end = start + accepted.plan.shape.bytes;
    wire::hand_out_line(
        out,
        accepted.plan.shape.rows,
        stage as usize,
        row as usize,
        &memory[start..end],
    )
}

// Copies the `size` bytes from index `from` on, which stand after slot 0, to slot 0.
fn copy_to_shown(memory: &mut [u8], from: usize, size: usize)
    requires { (size ≤ from) × (from + size ≤ length memory.old) }
    ensures { memory.new ≡ overlay_at 0 (take size (drop from memory.old)) memory.old }
{
    memory.copy_within(from..from + size, 0);
}

// Makes the picture of a slot the shown one.
fn show_slot(accepted: AcceptedFile, slot: u32, memory: &mut [u8])
    requires { (1 ≤ slot) × (SlotIn (row_bytes_in accepted.file.now) (rows_in accepted.file.now) (length memory.old) slot) }
    ensures { memory.new ≡ shown_after accepted.entry.file.now memory.old slot }
{
    let size = accepted.plan.shape.rows * accepted.plan.shape.bytes;
    copy_to_shown(memory, slot as usize * size, size);
}

// Hands out the write at index `at` of the file; the run goes on from `next`. Here and below the accepted file, the run and the reading are
// parameters of their own: the definitions of specs/HandOut take them one by one, and each clause would take a struct of them apart. The
// memory and the output are lent by the caller, and two `&mut` parts in a struct would be no plainer.
fn hand_write(
    accepted: AcceptedFile,
    at: usize,
    run: Run,
    reading: Reading,
    next: Position,
    out: &mut [u8],
) -> Handed
    requires { (at ≤ length accepted.file.now) × (117 ≤ length out.old) }
    ensures { (memory : List ℕ) → outcome result.answer result.phase memory out.new
        ≡ send_write accepted.entry.file.now run reading.tick reading.moment memory out.old
        (step_of (panel_code accepted.entry.plan.panel) (drop at accepted.entry.file.now)) next }
{
    let len = put_step(accepted, at, out);
    Handed {
        answer: Answer::Write(len),
        phase: run.go_on(reading, run.first, next),
    }
}

// Hands out a line; F is `first`.
fn hand_line(
    accepted: AcceptedFile,
    run: Run,
    reading: Reading,
    first: Passed,
    stage: u32,
    frame: u32,
    row: u32,
    memory: &[u8],
    out: &mut [u8],
) -> Handed
    requires { (LineIn accepted.file.now stage frame row) × (SlotIn (row_bytes_in accepted.file.now) (rows_in accepted.file.now) (length memory.now) run.slot) × (117 ≤ length out.old) }
    ensures { outcome result.answer result.phase memory.now out.new
        ≡ send_line accepted.entry.file.now run reading.tick reading.moment memory.now out.old first stage frame row }
{
    let len = put_line(accepted, memory, run.slot, stage, row, out);
    let next = run::next_position(accepted.plan.shape, stage, frame, row);
    Handed {
        answer: Answer::Line(len),
        phase: run.go_on(reading, first, next),
    }
}

// Hands out the next write from start step k on, or after the start steps the first line, whose moment is F.
fn hand_start(
    accepted: AcceptedFile,
    run: Run,
    reading: Reading,
    k: u32,
    memory: &[u8],
    out: &mut [u8],
) -> Handed
    requires { (k ≤ start_count accepted.file.now) × (SlotIn (row_bytes_in accepted.file.now) (rows_in accepted.file.now) (length memory.now) run.slot)
        × (117 ≤ length out.old) }
    ensures { outcome result.answer result.phase memory.now out.new
        ≡ hand_start accepted.entry.file.now run reading.tick reading.moment memory.now out.old
        (from_write (drop k (start_steps accepted.entry.file.now))) }
{
    let found = accepted.next_write_from(accepted.plan.start, k as usize);
    let Some(place) = found.write else {
        let first = reading.moment;
        return hand_line(accepted, run, reading, first, 1, 0, 0, memory, out);
    };
    let next = Position::Start((accepted.plan.start.count - (place.left - 1)) as u32);
    hand_write(accepted, place.at, run, reading, next, out)
}

// Hands out the next write from stop step k on, or after the stop steps done: the run's slot becomes the shown picture.
fn hand_stop(
    accepted: AcceptedFile,
    run: Run,
    reading: Reading,
    k: u32,
    memory: &mut [u8],
    out: &mut [u8],
) -> Handed
    requires { (k ≤ stop_count accepted.file.now) × (Room accepted.file.now run memory.old)
        × (117 ≤ length out.old) }
    ensures { outcome result.answer result.phase memory.new out.new
        ≡ hand_stop accepted.entry.file.now run reading.tick reading.moment memory.old out.old
        (from_write (drop k (stop_steps accepted.entry.file.now))) }
{
    let found = accepted.next_write_from(accepted.plan.stop, k as usize);
    let Some(place) = found.write else {
        show_slot(accepted, run.slot, memory);
        return Handed {
            answer: Answer::Done,
            phase: Phase::Idle,
        };
    };
    let next = Position::Stop((accepted.plan.stop.count - (place.left - 1)) as u32);
    hand_write(accepted, place.at, run, reading, next, out)
}

// Hands out what stands next.
fn hand_out(
    accepted: AcceptedFile,
    run: Run,
    reading: Reading,
    memory: &mut [u8],
    out: &mut [u8],
) -> Handed
    requires { (Ready accepted.file.now run run.next reading.moment) × (Room accepted.file.now run memory.old)
        × (117 ≤ length out.old) }
    ensures { outcome result.answer result.phase memory.new out.new
        ≡ hand_out accepted.entry.file.now run reading.tick reading.moment memory.old out.old run.next }
{
    match run.next {
        Position::Start(k) => hand_start(accepted, run, reading, k, memory, out),
        Position::Line { stage, frame, row } => {
            hand_line(
                accepted, run, reading, run.first, stage, frame, row, memory, out,
            )
        }
        Position::Stop(k) => hand_stop(accepted, run, reading, k, memory, out),
    }
}

// A poll at a moment: the ms still to go until the next thing is due, or that thing.
#[tactic(auto, unfolding(crate::specs::Poll::poll_at))]
fn poll_at(
    accepted: AcceptedFile,
    run: Run,
    reading: Reading,
    memory: &mut [u8],
    out: &mut [u8],
) -> Handed
    requires { (Ready accepted.file.now run run.next reading.moment) × (Room accepted.file.now run memory.old)
        × (117 ≤ length out.old) }
    ensures { outcome result.answer result.phase memory.new out.new
        ≡ poll_at accepted.entry.file.now run reading.tick reading.moment memory.old out.old }
{
    let ms = run::to_go(accepted, run, reading.moment);
    if 0 < ms {
        return Handed {
            answer: Answer::Wait(ms),
            phase: run.wait_on(reading),
        };
    }
    hand_out(accepted, run, reading, memory, out)
}

// A refused poll leaves the run as it was.
fn refuse(refusal: Refusal, run: Run) -> Handed
    ensures { (result.answer ≡ Answer.Refused (number_of refusal)) × (result.phase ≡ Phase.Running run) }
{
    Handed {
        answer: Answer::Refused(refusal.number()),
        phase: Phase::Running(run),
    }
}

// A poll of a run under way.
#[tactic(auto, unfolding(crate::specs::Poll::poll_run, run::specs::Clock::reading_of, run::specs::Clock::clock_refused))]
pub fn poll_run(
    accepted: AcceptedFile,
    run: Run,
    tick: Tick,
    memory: &mut [u8],
    out: &mut [u8],
) -> Handed
    requires { (Ready accepted.file.now run run.next run.passed) × (Room accepted.file.now run memory.old) }
    ensures { outcome result.answer result.phase memory.new out.new
        ≡ poll_run accepted.entry.file.now run tick memory.old out.old }
{
    if out.len() < 117 {
        return refuse(Refusal::Output, run);
    }
    let Some(moment) = run::read_clock(run.passed, run.last, tick) else {
        return refuse(Refusal::Clock, run);
    };
    poll_at(accepted, run, Reading { tick, moment }, memory, out)
}
