// What refuses each call after `Refusal::State` and `Refusal::Memory`, and what refuses an opening.
#![tactic(auto)]

ghost use Rattle.std.specs.Prelude.{◌≡◌};
ghost use Rattle.refusal.specs.Numbers.{number_given};
ghost use Rattle.lists.specs.Rules.{first_of};
ghost use Rattle.panel.specs.Facts.{sizes};
ghost use Rattle.store.specs.Refusals.{
  takes_pictures,
  is_running,
  is_abandoned,
  open_cases,
  slot_own,
  upload_own,
  begin_own,
  fill_own,
  start_own,
  abandon_own,
  write_own,
  summary_own,
};

use panel::Shape;
use refusal::Refusal;
use run::Phase;
use store::{Store, checks};

fn is_running(phase: Phase) -> bool
    ensures { result ≡ is_running phase }
{
    matches!(phase, Phase::Running(_))
}

fn is_abandoned(phase: Phase) -> bool
    ensures { result ≡ is_abandoned phase }
{
    matches!(phase, Phase::Abandoned)
}

// Whether a slot takes uploads and starts.
fn takes_pictures(slots: u32, slot: u32) -> bool
    ensures { result ≡ takes_pictures slots slot }
{
    (1..=slots).contains(&slot)
}

// An opening.
pub fn open(file: &[u8], n: u32, memory_len: usize) -> Result<(), Refusal>
    ensures { number_given result ≡ first_of (open_cases file.now n memory_len) (λ n. n) 0 }
{
    let plan = settings::plan_of(file).ok_or(Refusal::Settings)?;
    if (1..=7).contains(&n) && memory_len == slots::store_bytes(plan.shape, n) {
        Ok(())
    } else {
        Err(Refusal::Memory)
    }
}

// What every call begins with that writes a slot.
fn write_slot(store: Store, slot: u32) -> Result<(), Refusal>
    ensures { number_given result ≡ first_of (slot_own store slot) (λ n. n) 0 }
{
    if !takes_pictures(store.slots, slot) {
        return Err(Refusal::Slot);
    }
    if checks::is_runs_slot(store.phase, slot) {
        return Err(Refusal::RunsSlot);
    }
    Ok(())
}

// An upload.
pub fn upload(store: Store, slot: u32) -> Result<(), Refusal>
    ensures { number_given result ≡ first_of (upload_own store slot) (λ n. n) 0 }
{
    write_slot(store, slot)?;
    if store.fill.slot == slot {
        return Err(Refusal::FillsSlot);
    }
    Ok(())
}

// The begin of a fill.
pub fn begin(store: Store, slot: u32) -> Result<(), Refusal>
    ensures { number_given result ≡ first_of (begin_own store slot) (λ n. n) 0 }
{
    upload(store, slot)?;
    if store.fill.slot != 0 {
        return Err(Refusal::Filling);
    }
    Ok(())
}

// A chunk, the finish and the cancel of a fill.
pub fn fill(store: Store) -> Result<(), Refusal>
    ensures { number_given result ≡ first_of (fill_own store) (λ n. n) 0 }
{
    if store.fill.slot == 0 {
        return Err(Refusal::NoFill);
    }
    Ok(())
}

// The start of a run.
pub fn start(store: Store, slot: u32) -> Result<(), Refusal>
    ensures { number_given result ≡ first_of (start_own store slot) (λ n. n) 0 }
{
    if is_running(store.phase) {
        return Err(Refusal::Running);
    }
    if is_abandoned(store.phase) {
        return Err(Refusal::Unknown);
    }
    if !takes_pictures(store.slots, slot) {
        return Err(Refusal::Slot);
    }
    if store.fill.slot == slot {
        return Err(Refusal::FillsSlot);
    }
    Ok(())
}

// The abandon of a run.
pub fn abandon(store: Store) -> Result<(), Refusal>
    ensures { number_given result ≡ first_of (abandon_own store) (λ n. n) 0 }
{
    if !is_running(store.phase) {
        return Err(Refusal::NoRun);
    }
    Ok(())
}

// The writer of a slot's bitmap file: any slot of the store has one, as it has a summary.
pub fn write(store: Store, shape: Shape, slot: u32, out_len: usize) -> Result<(), Refusal>
    ensures { number_given result ≡ first_of (write_own store (sizes shape) slot out_len) (λ n. n) 0 }
{
    summary(store, slot)?;
    if out_len < bitmap::file_length(shape.rows, shape.stride) {
        return Err(Refusal::Output);
    }
    Ok(())
}

// The summary of a slot.
pub fn summary(store: Store, slot: u32) -> Result<(), Refusal>
    ensures { number_given result ≡ first_of (summary_own store slot) (λ n. n) 0 }
{
    if store.slots < slot {
        return Err(Refusal::Slot);
    }
    Ok(())
}
