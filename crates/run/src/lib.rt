// A run: its clock, its place, and when the next thing is due.
#![tactic(auto)]

ghost use Rattle.std.specs.Prelude.{◌≡◌, ◌+◌, ◌-◌, ◌*◌, ◌^◌, ◌<◌, ◌≤◌, drop};
ghost use Rattle.panel.specs.Names.{panel_code};
ghost use Rattle.settings.specs.Settings.{steps_of};
ghost use Rattle.settings.specs.Steps.{waits_before};
ghost use Rattle.run.specs.Clock.{step_from, reading_of};
ghost use Rattle.run.specs.Place.{frame_number, next_position};
ghost use Rattle.run.specs.Due.{due_at, due_of};
ghost use Rattle.run.specs.Runs.{begun, waited, moved};
ghost use Rattle.run.specs.Facts.{Ready};
ghost use Rattle.settings.specs.Plans.{SectionIn};

use panel::Shape;
use settings::{AcceptedFile, Section};

// A tick reading: a millisecond counter that wraps.
#[derive(Clone, Copy)]
pub struct Tick(pub u32);

// Passed time of a run in milliseconds, which does not wrap.
#[derive(Clone, Copy)]
pub struct Passed(pub u64);

// An accepted tick reading, and passed time then.
#[derive(Clone, Copy)]
pub struct Reading {
    pub tick: Tick,
    pub moment: Passed,
}

// What is handed out next: the next write from start step k on, or after the start steps the first line; a line; or the next
// write from stop step k on, or after the stop steps done.
#[derive(Clone, Copy)]
pub enum Position {
    Start(u32),
    Line { stage: u32, frame: u32, row: u32 },
    Stop(u32),
}

// A run under way. `handed` and `first` are 0 for none, no Option: the conditions of docs/STATE.md speak of them so, and `due_at` and the
// theorems over it read these fields.
#[derive(Clone, Copy)]
pub struct Run {
    // the slot that it shows
    pub slot: u32,
    // the last accepted tick reading, and passed time then
    pub last: Tick,
    pub passed: Passed,
    // passed time when the last write or line was handed out; 0 before the first
    pub handed: Passed,
    // F, the moment of the first line; 0 before it
    pub first: Passed,
    pub next: Position,
}

// Where a store stands: no run is under way, a run was abandoned, or one is under way.
#[derive(Clone, Copy)]
pub enum Phase {
    Idle,
    Abandoned,
    Running(Run),
}

// ---- the run after each thing that a call can do to it

impl Run {
    // A run that has just been started.
    pub fn begin(slot: u32, tick: Tick) -> Run
        ensures { result ≡ begun slot tick }
    {
        Run {
            slot,
            last: tick,
            passed: Passed(0),
            handed: Passed(0),
            first: Passed(0),
            next: Position::Start(0),
        }
    }

    // At an accepted reading.
    fn read(self, reading: Reading) -> Run
        ensures { result ≡ waited self reading.tick reading.moment }
    {
        Run {
            last: reading.tick,
            passed: reading.moment,
            ..self
        }
    }

    // After something was handed out at a reading.
    pub fn go_on(self, reading: Reading, first: Passed, next: Position) -> Phase
        ensures { result ≡ Phase.Running (moved self reading.tick reading.moment first next) }
    {
        Phase::Running(Run {
            handed: reading.moment,
            first,
            next,
            ..self.read(reading)
        })
    }

    // After a wait answer.
    pub fn wait_on(self, reading: Reading) -> Phase
        ensures { result ≡ Phase.Running (waited self reading.tick reading.moment) }
    {
        Phase::Running(self.read(reading))
    }
}

// ---- tick readings

// A poll's step: its reading minus the last accepted one, modulo 2^32.
#[tactic(auto, unfolding(crate::specs::Clock::step_from))]
fn step_from(last: Tick, tick: Tick) -> u32
    ensures { result ≡ step_from last tick }
{
    tick.0.wrapping_sub(last.0)
}

// Passed time at a tick reading, if the reading is accepted.
#[tactic(auto, unfolding(crate::specs::Clock::reading_of, crate::specs::Clock::clock_refused))]
pub fn read_clock(passed: Passed, last: Tick, tick: Tick) -> Option<Passed>
    ensures { result ≡ reading_of passed last tick }
{
    let step = step_from(last, tick);
    if 0x8000_0000 <= step {
        return None;
    }
    let moment = passed.0.checked_add(u64::from(step))?;
    Some(Passed(moment))
}

// What comes after the line of a row. Here and below a line's stage, frame and row are parameters of their own, as `Position::Line` has
// them: theorems speak of it, and a struct of the three would be packed and unpacked around each call. A stage is a number 1 to 4 there, and
// so here.
#[tactic(auto, unfolding(crate::specs::Place::next_position))]
pub fn next_position(shape: Shape, stage: u32, frame: u32, row: u32) -> Position
    requires { (stage ≤ 4) × (frame < shape.frames) × (row < shape.rows) }
    ensures { result ≡ next_position shape.rows shape.frames stage frame row }
{
    if row as usize + 1 < shape.rows {
        return Position::Line {
            stage,
            frame,
            row: row + 1,
        };
    }
    if frame + 1 < shape.frames {
        return Position::Line {
            stage,
            frame: frame + 1,
            row: 0,
        };
    }
    if stage < 4 {
        return Position::Line {
            stage: stage + 1,
            frame: 0,
            row: 0,
        };
    }
    Position::Stop(0)
}

// ---- when the next thing is due

// The number of a frame, counted over the whole run.
#[tactic(auto, using(crate::proofs::Place::frame_lt))]
pub fn frame_number(shape: Shape, stage: u32, frame: u32) -> u32
    requires { (1 ≤ stage) × (stage ≤ 4) × (frame < shape.frames) }
    ensures { (result ≡ frame_number shape.frames stage frame) × (result < 84) }
{
    (stage - 1) * shape.frames + frame
}

// The ms still to go at a moment until `ms` after an earlier one.
fn remaining(from: Passed, ms: u32, moment: Passed) -> u32
    requires { from.0 ≤ moment.0 }
    ensures { result ≡ from.0 + ms - moment.0 }
{
    let gone = moment.0 - from.0;
    u64::from(ms).saturating_sub(gone) as u32
}

// The ms of the waits before the next write from step k of a section on.
fn waits_from(accepted: AcceptedFile, section: Section, k: u32) -> u32
    requires { (SectionIn (panel_code accepted.plan.panel) accepted.file.now section) × (k ≤ section.count) }
    ensures { (result ≡ waits_before (drop k (steps_of (panel_code accepted.entry.plan.panel) section.count (drop section.at accepted.entry.file.now)))) × (result < 2 ^ 24) }
{
    accepted.next_write_from(section, k as usize).waits
}

// From start step k on: the waits count from what was handed out last.
fn start_to_go(accepted: AcceptedFile, run: Run, k: u32, moment: Passed) -> u32
    requires { Ready accepted.file.now run (Position.Start k) moment }
    ensures { result ≡ due_at accepted.entry.file.now run (Position.Start k) - moment.0 }
{
    let waits = waits_from(accepted, accepted.plan.start, k);
    remaining(run.handed, waits, moment)
}

// At a line: the first of a frame waits for its moment.
fn line_to_go(
    accepted: AcceptedFile,
    run: Run,
    stage: u32,
    frame: u32,
    row: u32,
    moment: Passed,
) -> u32
    requires { Ready accepted.file.now run (Position.Line stage frame row) moment }
    ensures { result ≡ due_at accepted.entry.file.now run (Position.Line stage frame row) - moment.0 }
{
    if row != 0 {
        return 0;
    }
    let i = frame_number(accepted.plan.shape, stage, frame);
    remaining(run.first, 30 * i, moment)
}

// From stop step k on: the waits count from the end of the last frame and from what was handed out last.
fn stop_to_go(accepted: AcceptedFile, run: Run, k: u32, moment: Passed) -> u32
    requires { Ready accepted.file.now run (Position.Stop k) moment }
    ensures { result ≡ due_at accepted.entry.file.now run (Position.Stop k) - moment.0 }
{
    let waits = waits_from(accepted, accepted.plan.stop, k);
    let by_frames = remaining(run.first, 120 * accepted.plan.shape.frames + waits, moment);
    let by_handed = remaining(run.handed, waits, moment);
    by_frames.max(by_handed)
}

// The ms still to go at a moment until the next thing is due; 0 where it is due.
pub fn to_go(accepted: AcceptedFile, run: Run, moment: Passed) -> u32
    requires { Ready accepted.file.now run run.next moment }
    ensures { result ≡ due_of accepted.entry.file.now run - moment.0 }
{
    match run.next {
        Position::Start(k) => start_to_go(accepted, run, k, moment),
        Position::Line { stage, frame, row } => line_to_go(
            accepted, run, stage, frame, row, moment,
        ),
        Position::Stop(k) => stop_to_go(accepted, run, k, moment),
    }
}
