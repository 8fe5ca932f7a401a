// Whether a run keeps the conditions.
#![tactic(auto)]

ghost use Rattle.std.specs.Prelude.{◌≡◌, ◌+◌, ◌-◌, ◌≤◌, ◌<◌, cond, eqb, leb, drop};
ghost use Rattle.panel.specs.Names.{panel_code};
ghost use Rattle.settings.specs.Settings.{steps_of};
ghost use Rattle.settings.specs.Plans.{SectionIn};
ghost use Rattle.run.specs.Due.{frame_due};
ghost use Rattle.run.specs.Conditions.{after_write, place_valid, run_valid};
ghost use Rattle.run.specs.Facts.{kind_is_write};

use run::{Passed, Position, Run};
use settings::{AcceptedFile, Kind, Section};

fn is_write(kind: Option<Kind>) -> bool
    ensures { result ≡ kind_is_write kind }
{
    matches!(kind, Some(Kind::Write(_)))
}

// Whether step k of a section is the first one, or stands right after a write.
fn after_write(accepted: AcceptedFile, section: Section, k: u32) -> bool
    requires { (SectionIn (panel_code accepted.plan.panel) accepted.file.now section) × (k ≤ section.count) }
    ensures { result ≡ after_write (steps_of (panel_code accepted.entry.plan.panel) section.count (drop section.at accepted.entry.file.now)) k }
{
    if k == 0 {
        return true;
    }
    let end = accepted.steps_end(section.at, (k - 1) as usize);
    is_write(accepted.step_at(end))
}

// Whether frame i was due by a moment.
fn frame_due_by(first: Passed, i: u32, moment: Passed) -> bool
    requires { i ≤ 84 }
    ensures { result ≡ leb (frame_due first.0 i) moment.0 }
{
    first.0 <= moment.0 && u64::from(30 * i) <= moment.0 - first.0
}

// The frame of the line that went out before something of frame i: the one before it for the first thing, of number 0.
fn frame_before(i: u32, number: u32) -> u32
    requires { 0 < i + number }
    ensures { result ≡ i - cond (eqb number 0) 1 0 }
{
    if number == 0 { i - 1 } else { i }
}

fn start_valid(accepted: AcceptedFile, run: Run, k: u32) -> bool
    ensures { result ≡ place_valid accepted.entry.file.now run (Position.Start k) }
{
    k as usize <= accepted.plan.start.count
        && after_write(accepted, accepted.plan.start, k)
        && run.first.0 == 0
        && (k != 0 || run.handed.0 == 0)
}

fn line_valid(accepted: AcceptedFile, run: Run, stage: u32, frame: u32, row: u32) -> bool
    ensures { result ≡ place_valid accepted.entry.file.now run (Position.Line stage frame row) }
{
    // the number of the frame is asked for only within these
    if !(1..=4).contains(&stage)
        || accepted.plan.shape.frames <= frame
        || accepted.plan.shape.rows <= row as usize
    {
        return false;
    }
    let i = run::frame_number(accepted.plan.shape, stage, frame);
    0 < i + row && frame_due_by(run.first, frame_before(i, row), run.handed)
}

fn stop_valid(accepted: AcceptedFile, run: Run, k: u32) -> bool
    ensures { result ≡ place_valid accepted.entry.file.now run (Position.Stop k) }
{
    k as usize <= accepted.plan.stop.count
        && after_write(accepted, accepted.plan.stop, k)
        && frame_due_by(
            run.first,
            frame_before(4 * accepted.plan.shape.frames, k),
            run.handed,
        )
}

fn place_valid(accepted: AcceptedFile, run: Run) -> bool
    ensures { result ≡ place_valid accepted.entry.file.now run run.next }
{
    match run.next {
        Position::Start(k) => start_valid(accepted, run, k),
        Position::Line { stage, frame, row } => line_valid(accepted, run, stage, frame, row),
        Position::Stop(k) => stop_valid(accepted, run, k),
    }
}

// Whether a run keeps the conditions, where there are slots 1 to `slots`.
#[tactic(auto, unfolding(run::specs::Conditions::run_valid))]
pub fn run_valid(accepted: AcceptedFile, slots: u32, run: Run) -> bool
    ensures { result ≡ run_valid accepted.entry.file.now slots run }
{
    (1..=slots).contains(&run.slot) && run.handed.0 <= run.passed.0 && place_valid(accepted, run)
}
