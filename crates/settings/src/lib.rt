// The settings file: the check of its rules, and the reading of its steps.
#![tactic(auto)]

ghost use Rattle.std.specs.Prelude.{◌≡◌, ◌+◌, ◌≤◌, ◌<◌, length, get_or, drop};
ghost use Rattle.lists.specs.Rules.{every};
ghost use Rattle.panel.specs.Names.{panel_code};
ghost use Rattle.panel.specs.Registers.{data_length};
ghost use Rattle.refusal.specs.Numbers.{number_given};
ghost use Rattle.settings.specs.Settings.{
  has_prefix,
  required_data,
  write_of,
  wait_of,
  step_of,
  steps_of,
  panel_of,
  longest_file,
  head_rules,
  stop_section_rules,
  check_settings,
};
ghost use Rattle.settings.specs.Plans.{PlanOf, PlannedFor};
ghost use Rattle.settings.specs.Kept.{no_settings, kept_settings};
ghost use Rattle.settings.specs.Facts.{
  kind_of,
  kind_size,
  marked,
  kind_by,
  size_found,
  StepsPassed,
  Readable,
  StopAt,
  Accepted,
  StartPassed,
  LaidOut,
  Found,
};

mod file;

pub use file::AcceptedFile;
use panel::{Panel, Shape};
use refusal::Refusal;

// A step: a write of a register, or a wait in ms.
#[derive(Clone, Copy, Debug, PartialEq, Eq)]
pub enum Kind {
    Write(u8),
    Wait(u16),
}

impl Kind {
    // How many bytes the step takes.
    pub fn size(self) -> usize
        ensures { result ≡ kind_size self }
    {
        match self {
            Kind::Write(register) => 2 + panel::data_length(register),
            Kind::Wait(_) => 3,
        }
    }
}

// Whether a register's data, from index `at` on, are what this panel asks of it. It is compiled into the loop of `pass_steps`, as
// `write_size` and `step_size` are.
#[inline(always)]
fn data_good(file: &[u8], at: usize, panel: Panel, register: u8) -> bool
    requires { at + data_length register ≤ length file.now }
    ensures { result ≡ has_prefix (drop at file.now) (required_data (panel_code panel) register) }
{
    match register {
        0x01 => has_prefix(file, at, &panel.channel_data()),
        0x04 => has_prefix(file, at, &[panel.gate_source_level()]),
        _ => true,
    }
}

// Whether the bytes of a file from index `at` on begin with `prefix`, which is no longer than they are.
fn has_prefix(file: &[u8], at: usize, prefix: &[u8]) -> bool
    requires { at + length prefix.now ≤ length file.now }
    ensures { result ≡ has_prefix (drop at file.now) prefix.now }
{
    file[at..].starts_with(prefix)
}

// How many bytes a write of a register takes that stands at index `at`, if its data are there and are what this panel asks. A register
// that no step may write has no data, and its size would be 2. It is compiled into the loop of `pass_steps`, as `step_size` is; one test of
// all three would leave that loop slower.
#[inline(always)]
fn write_size(file: &[u8], at: usize, panel: Panel, register: u8) -> Option<usize>
    requires { at ≤ length file.now }
    ensures { result ≡ size_found (write_of (panel_code panel) register (drop (at + 2) file.now)) }
{
    let size = Kind::Write(register).size();
    if size == 2 || file.len() - at < size {
        return None;
    }
    data_good(file, at + 2, panel, register).then_some(size)
}

// How many bytes a wait of so many ms takes, if it is neither too short nor too long.
#[tactic(auto, unfolding(crate::specs::Settings::wait_of))]
fn wait_size(ms: u16) -> Option<usize>
    ensures { result ≡ size_found (wait_of ms) }
{
    match ms {
        1..=1000 => Some(3),
        _ => None,
    }
}

// How many bytes the step at a place of the file takes, if there is one. It is compiled into the loop of `pass_steps`: all the tests of a
// settings file are made anew at every call on a store. A size alone leaves that loop faster than a kind with its size.
#[inline(always)]
fn step_size(file: &[u8], at: usize, panel: Panel) -> Option<usize>
    requires { at ≤ length file.now }
    ensures { result ≡ size_found (step_of (panel_code panel) (drop at file.now)) }
{
    if file.len() - at < 3 {
        return None;
    }
    match file[at] {
        0x57 => write_size(file, at, panel, file[at + 1]),
        0x44 => wait_size(u16::from_be_bytes([file[at + 1], file[at + 2]])),
        _ => None,
    }
}

// The kind of the step at a place of the file, where one stands, told by its bytes.
fn kind_at(file: &[u8], at: usize) -> Kind
    requires { at + 3 ≤ length file.now }
    ensures { result ≡ kind_by (get_or file.now at 0) (get_or file.now (at + 1) 0) (get_or file.now (at + 2) 0) }
{
    match file[at] {
        0x57 => Kind::Write(file[at + 1]),
        _ => Kind::Wait(u16::from_be_bytes([file[at + 1], file[at + 2]])),
    }
}

// The step at a place of the file, if there is one.
pub fn step_at(file: &[u8], at: usize, panel: Panel) -> Option<Kind>
    requires { at ≤ length file.now }
    ensures { result ≡ kind_of (step_of (panel_code panel) (drop at file.now)) }
{
    step_size(file, at, panel)?;
    Some(kind_at(file, at))
}

// Marks the register that is written by the step at a place of the file, where that is a write. A mark is a store alone; two tests a step
// would make the loop slower.
fn mark(written: &mut [bool; 10], file: &[u8], at: usize)
    requires { (at + 1 < length file.now) × (get_or file.now (at + 1) 0 < 10) }
    ensures { written.new
        ≡ marked (get_or file.now at 0) (get_or file.now (at + 1) 0) written.old }
{
    if file[at] == 0x57 {
        written[usize::from(file[at + 1])] = true;
    }
}

// The index after some steps, and whether they write the channels (0x01) and the level (0x04).
#[derive(Clone, Copy)]
pub struct StepsEnd {
    pub end: usize,
    pub channels: bool,
    pub level: bool,
}

// Passes n steps, from index `at` on. An error is the index of the first bytes that are no step.
pub fn pass_steps(file: &[u8], panel: Panel, at: usize, n: usize) -> Result<StepsEnd, usize>
    requires { at ≤ length file.now }
    ensures { StepsPassed (panel_code panel) n at file.now result }
{
    let mut end = at;
    let mut written = [false; 10];
    for _ in 0..n {
        let Some(size) = step_size(file, end, panel) else {
            return Err(end);
        };
        mark(&mut written, file, end);
        end += size;
    }
    Ok(StepsEnd {
        end,
        channels: written[0x01],
        level: written[0x04],
    })
}

// The panel that a file names.
fn panel_of(file: &[u8]) -> Panel
    requires { Readable file.now }
    ensures { panel_code result ≡ panel_of file.now }
{
    Panel::try_from(u32::from(file[1])).unwrap()
}

// Whether the panel section and the count of the start steps keep their rules.
fn head_good(file: &[u8]) -> bool
    ensures { result ≡ every (head_rules file.now) }
{
    3 <= file.len()
        && file[0] == 1
        && Panel::try_from(u32::from(file[1])).is_ok()
        && (2..=32).contains(&file[2])
}

// Where the stop section begins, if the start steps keep their rules.
fn pass_start(file: &[u8]) -> Option<usize>
    requires { Readable file.now }
    ensures { StartPassed file.now result }
{
    let start = pass_steps(file, panel_of(file), 3, usize::from(file[2])).ok()?;
    (start.channels && start.level).then_some(start.end)
}

// Whether the stop steps, whose count stands at index `stop`, keep their rules, and nothing follows them.
fn stop_good(file: &[u8], stop: usize) -> bool
    requires { (Readable file.now) × (StopAt file.now stop) }
    ensures { result ≡ every (stop_section_rules file.now) }
{
    let Some(&n) = file.get(stop) else {
        return false;
    };
    n <= 32
        && match pass_steps(file, panel_of(file), stop + 1, usize::from(n)) {
            Ok(passed) => passed.end == file.len(),
            Err(_) => false,
        }
}

// Where the stop section begins, if a file keeps every rule.
fn laid_out(file: &[u8]) -> Option<usize>
    ensures { LaidOut file.now result }
{
    if !head_good(file) {
        return None;
    }
    let stop = pass_start(file)?;
    stop_good(file, stop).then_some(stop)
}

// The settings check.
pub fn check_settings(file: &[u8]) -> Result<(), Refusal>
    ensures { number_given result ≡ check_settings file.now }
{
    match laid_out(file) {
        Some(_) => Ok(()),
        None => Err(Refusal::Settings),
    }
}

// ---- an accepted file, kept by value

// The bytes of the file stand at the front, and `len` is how many. No slice or growing buffer: `store::Store` holds a Settings, of which the
// theorems speak, and memory is fixed (no heap).
#[derive(Clone, Copy)]
pub struct Settings {
    pub file: [u8; 637],
    pub len: usize,
}

// No file.
pub fn no_settings() -> Settings
    ensures { result ≡ no_settings }
{
    Settings {
        file: [0u8; 637],
        len: 0,
    }
}

pub fn keep(file: &[u8]) -> Settings
    requires { length file.now ≤ longest_file }
    ensures { result ≡ kept_settings file.now }
{
    let mut kept = [0u8; 637];
    lists::put_at(&mut kept, 0, file);
    Settings {
        file: kept,
        len: file.len(),
    }
}

// ---- what a call reads from an accepted file

// A section of steps: the index at which they begin, and how many there are.
#[derive(Clone, Copy)]
pub struct Section {
    pub at: usize,
    pub count: usize,
}

// The panel, its sizes, and the sections.
#[derive(Clone, Copy)]
pub struct Plan {
    pub panel: Panel,
    pub shape: Shape,
    pub start: Section,
    pub stop: Section,
}

// The plan of an accepted file whose stop section begins at index `stop`.
fn make_plan(file: &[u8], stop: usize) -> Plan
    requires { Accepted file.now stop }
    ensures { PlanOf file.now result }
{
    let panel = panel_of(file);
    Plan {
        panel,
        shape: panel.shape(),
        start: Section {
            at: 3,
            count: usize::from(file[2]),
        },
        stop: Section {
            at: stop + 1,
            count: usize::from(file[stop]),
        },
    }
}

// What a call reads from a file, if it is accepted.
pub fn plan_of(file: &[u8]) -> Option<Plan>
    ensures { PlannedFor file.now result }
{
    let stop = laid_out(file)?;
    Some(make_plan(file, stop))
}

// The index of a step in the file, and how many steps are left from it on. No Section: `left` is never 0, and contracts say other things of
// it.
#[derive(Clone, Copy)]
pub struct Place {
    pub at: usize,
    pub left: usize,
}

// The next write among some steps: the ms of the waits before it, and where it stands, if there is one.
#[derive(Clone, Copy)]
pub struct NextWrite {
    pub waits: u32,
    pub write: Option<Place>,
}

// The next write among n steps, from index `at` on.
pub fn next_write(file: &[u8], panel: Panel, at: usize, n: usize) -> NextWrite
    requires { (at ≤ length file.now) × (n ≤ 255) }
    ensures { Found (panel_code panel) file.now (steps_of (panel_code panel) n (drop at file.now)) result }
{
    let mut waits: u32 = 0;
    let mut at = at;
    for i in 0..n {
        // two arms for the same end: joined, they would no more say in the proof which of them it was
        let write = Some(Place { at, left: n - i });
        match step_at(file, at, panel) {
            Some(Kind::Wait(ms)) => {
                waits += u32::from(ms);
                at += 3;
            }
            Some(Kind::Write(_)) => return NextWrite { waits, write },
            None => return NextWrite { waits, write },
        }
    }
    NextWrite { waits, write: None }
}
