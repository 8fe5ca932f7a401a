// Polls of the run under way.
ghost use Rattle.std.specs.Prelude.{◌≡◌, ◌≤◌};
ghost use Rattle.refusal.specs.Numbers.{number_of};
ghost use Rattle.store.specs.Store.{set_summaries};
ghost use Rattle.poll.specs.declared.Answer.TheVariants.{Refused};
ghost use Rattle.board.specs.Calls.{summaries_after, polling, polled};
ghost use Rattle.board.specs.Facts.{state_of, left_by};

use poll::{Answer, Handed};
use refusal::Refusal;
use run::{Phase, Tick};
use settings::{AcceptedFile, Settings};
use store::{Store, checks};

// What a poll leaves: its answer, and what changes of the state. `Polled` has the whole state, `Handed` the phase alone.
#[derive(Clone, Copy)]
pub struct Left {
    pub answer: Answer,
    pub store: Store,
}

// The store after a poll of a run that shows a slot: done copies that slot's summary to slot 0's.
fn after_poll(store: Store, slot: u32, answer: Answer) -> Store
    requires { slot ≤ 7 }
    ensures { result ≡ set_summaries store (summaries_after answer slot store.summaries) }
{
    if matches!(answer, Answer::Done) {
        store.with_summaries(summary::with_shown(store.summaries, slot as usize))
    } else {
        store
    }
}

// What a poll of a run that shows a slot leaves.
fn leave(store: Store, slot: u32, handed: Handed) -> Left
    requires { slot ≤ 7 }
    ensures { result ≡ left_by store slot handed }
{
    Left {
        answer: handed.answer,
        store: after_poll(store.with_phase(handed.phase), slot, handed.answer),
    }
}

// What a refused poll leaves.
fn refused(store: Store, refusal: Refusal) -> Left
    ensures { (result.answer ≡ Refused (number_of refusal)) × (result.store ≡ store) }
{
    Left {
        answer: Answer::Refused(refusal.number()),
        store,
    }
}

// A poll on the parts of a state: 13, 1, 9, 11 or 10, or what the run hands out.
pub fn poll_store(
    settings: &Settings,
    store: Store,
    tick: Tick,
    memory: &mut [u8],
    out: &mut [u8],
) -> Left
    ensures { polling result.answer (state_of settings.now result.store) memory.new out.new
        ≡ polled (state_of settings.now store) tick memory.old out.old }
{
    let plan = match checks::check_store(settings, store, memory.len()) {
        Ok(plan) => plan,
        Err(refusal) => return refused(store, refusal),
    };
    // The first two answer alike, each in its own arm: the contract goes by the phase, which a joint arm would not know.
    match store.phase {
        Phase::Idle => refused(store, Refusal::NoRun),
        Phase::Abandoned => refused(store, Refusal::NoRun),
        Phase::Running(run) => {
            let accepted = AcceptedFile {
                file: &settings.file[..settings.len],
                plan,
            };
            let handed = poll::poll_run(accepted, run, tick, memory, out);
            leave(store, run.slot, handed)
        }
    }
}
