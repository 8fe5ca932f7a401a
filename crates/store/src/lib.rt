// What a state keeps of its store, and the conditions that a state keeps; docs/STATE.md says them in words.
#![tactic(auto)]

ghost use Rattle.std.specs.Prelude.{◌≡◌};
ghost use Rattle.store.specs.Store.{new_store, set_phase, set_fill, set_summaries};

pub mod checks;

use fill::Fill;
use run::Phase;
use summary::Summary;

// What changes from call to call: the number n of the last slot, where the store stands, the bitmap file that comes in chunks, and the
// summaries of slots 0 to n, in eight places: memory is fixed, n is at most 7, and the theorem `summaries_hold` speaks of them.
#[derive(Clone, Copy)]
pub struct Store {
    pub slots: u32,
    pub phase: Phase,
    pub fill: Fill,
    pub summaries: [Summary; 8],
}

// A store of slots 0 to n, all white, with no run and no fill.
pub fn new_store(n: u32) -> Store
    ensures { result ≡ new_store n }
{
    Store {
        slots: n,
        phase: Phase::Idle,
        fill: fill::empty(),
        summaries: summary::empty_summaries(),
    }
}

impl Store {
    // The store with another phase.
    pub fn with_phase(self, phase: Phase) -> Store
        ensures { result ≡ set_phase self phase }
    {
        Store { phase, ..self }
    }

    // The store with another fill.
    pub fn with_fill(self, fill: Fill) -> Store
        ensures { result ≡ set_fill self fill }
    {
        Store { fill, ..self }
    }

    // The store with other summaries.
    pub fn with_summaries(self, summaries: [Summary; 8]) -> Store
        ensures { result ≡ set_summaries self summaries }
    {
        Store { summaries, ..self }
    }
}
