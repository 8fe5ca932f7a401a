// The tests that every call on the store begins with: `Refusal::State` and `Refusal::Memory`.
ghost use Rattle.std.specs.Prelude.{◌≡◌, ◌≤◌};
ghost use Rattle.refusal.specs.Numbers.{number_given};
ghost use Rattle.panel.specs.Facts.{sizes};
ghost use Rattle.lists.specs.Rules.{every, first_of};
ghost use Rattle.settings.specs.Kept.{file_in};
ghost use Rattle.store.specs.Conditions.{
  phase_valid,
  is_runs_slot,
  fill_rules,
  slot_rules,
  store_rules,
  rules_cases,
  memory_cases,
};
ghost use Rattle.store.specs.Facts.{StatePlanned, Found};

use crate::Store;
use panel::Shape;
use refusal::Refusal;
use run::Phase;
use settings::{AcceptedFile, Plan, Settings};

// Whether a run under way is valid.
fn phase_valid(accepted: AcceptedFile, store: Store) -> bool
    ensures { result ≡ phase_valid accepted.entry.file.now store.slots store.phase }
{
    match store.phase {
        Phase::Running(run) => run_conditions::run_valid(accepted, store.slots, run),
        _ => true,
    }
}

// Whether a slot is that of the run under way.
pub fn is_runs_slot(phase: Phase, slot: u32) -> bool
    ensures { result ≡ is_runs_slot phase slot }
{
    matches!(phase, Phase::Running(run) if run.slot == slot)
}

// Whether the fill keeps its rules: its slot is one of the store's and not that of the run, and it is valid.
fn fill_valid(shape: Shape, store: Store) -> bool
    ensures { result ≡ every (fill_rules (sizes shape) store) }
{
    let fill = store.fill;
    fill.slot <= store.slots
        && !is_runs_slot(store.phase, fill.slot)
        && fill_conditions::valid(shape, fill)
}

// Whether what is kept of the slots does: the fill, and the summaries of slots 0 to n.
fn slots_valid(shape: Shape, store: Store) -> bool
    requires { store.slots ≤ 7 }
    ensures { result ≡ every (slot_rules (sizes shape) store) }
{
    fill_valid(shape, store)
        && summary_conditions::summaries_good(shape, store.slots as usize, store.summaries)
}

// Whether a store on an accepted file keeps its conditions.
fn store_valid(accepted: AcceptedFile, store: Store) -> bool
    ensures { result ≡ every (store_rules accepted.entry.file.now store) }
{
    (1..=7).contains(&store.slots)
        && phase_valid(accepted, store)
        && slots_valid(accepted.plan.shape, store)
}

// The plan of a state's file, where the state keeps its conditions.
fn plan_state(settings: &Settings, store: Store) -> Option<Plan>
    ensures { StatePlanned settings.now store result }
{
    let file = settings.file.get(..settings.len)?;
    let plan = settings::plan_of(file)?;
    store_valid(AcceptedFile { file, plan }, store).then_some(plan)
}

// Whether a state keeps its conditions.
pub fn check_state(settings: &Settings, store: Store) -> Result<(), Refusal>
    ensures { number_given result ≡ first_of (rules_cases settings.now store) (λ n. n) 0 }
{
    plan_state(settings, store).ok_or(Refusal::State)?;
    Ok(())
}

// The plan of a state's file, where the state keeps its conditions and the memory has the length of its store.
pub fn check_store(settings: &Settings, store: Store, memory_len: usize) -> Result<Plan, Refusal>
    ensures { Found (file_in settings.now) (memory_cases settings.now store memory_len) result }
{
    let plan = plan_state(settings, store).ok_or(Refusal::State)?;
    if memory_len != slots::store_bytes(plan.shape, store.slots) {
        return Err(Refusal::Memory);
    }
    Ok(plan)
}
