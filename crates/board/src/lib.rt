// The store: its state, and the calls on it. Every call gives back the state for the next one. A refused call gives back the state that
// it got, and every lent byte is as before, but where 4 ends a fill; docs/FORMATS.md says what each number means.
#![tactic(auto)]

ghost use Rattle.std.specs.Prelude.{◌≡◌, ◌≤◌, length};
ghost use Rattle.refusal.specs.Numbers.{number_of, number_given};
ghost use Rattle.lists.specs.Rules.{first_of};
ghost use Rattle.panel.specs.Facts.{sizes};
ghost use Rattle.settings.specs.Settings.{longest_file};
ghost use Rattle.slots.specs.Facts.{SlotOf};
ghost use Rattle.store.specs.Facts.{Found};
ghost use Rattle.board.specs.State.{file_of, with_store, store_cases, empty_state, opened_state};
ghost use Rattle.board.specs.Calls.{
  reply,
  opening,
  counted,
  upload_cases,
  region_upload,
  bitmap_upload,
  begin_cases,
  fill_begin,
  fill_cases,
  fed_reply,
  fill_feed,
  fill_finish,
  fill_cancel,
  start_cases,
  starting,
  abandon_cases,
  abandoning,
  polling,
  polled,
  write_cases,
  bitmap_write,
  summary_cases,
  slot_summary,
};

mod runs;

use fill_calls::Fed;
use panel::Shape;
use picture::Region;
use poll::Answer;
use refusal::Refusal;
use run::{Phase, Run, Tick};
use settings::{Plan, Settings};
use store::{Store, checks};
use summary::Summary;

// The state of a store: its settings file, and what changes. docs/STATE.md has the conditions that it keeps.
#[derive(Clone, Copy)]
pub struct State {
    pub settings: Settings,
    pub store: Store,
}

// What a call gives back: its number, 0 where it is accepted, and the state for the next call. No `Result`: a refused call leaves a state
// too, and `Demand3` and the theorems read the number, as they do in `Summarised`.
#[derive(Clone, Copy)]
pub struct Reply {
    pub number: u8,
    pub state: State,
}

// What a poll gives back.
#[derive(Clone, Copy)]
pub struct Polled {
    pub answer: Answer,
    pub state: State,
}

// What the call for a slot's summary gives back. The summary is empty where the call is refused.
#[derive(Clone, Copy)]
pub struct Summarised {
    pub number: u8,
    pub summary: Summary,
    pub state: State,
}

// The one fixed empty state, on which every call is refused with 13.
pub fn empty_state() -> State
    ensures { result ≡ empty_state }
{
    State {
        settings: settings::no_settings(),
        store: store::new_store(0),
    }
}

// The state of a store that has just been opened.
fn opened_state(file: &[u8], n: u32) -> State
    requires { length file.now ≤ longest_file }
    ensures { result ≡ opened_state file.now n }
{
    State {
        settings: settings::keep(file),
        store: store::new_store(n),
    }
}

// Opens a store of slots 0 to n (1 to 7) on a settings file, and makes all slots white. The memory has exactly (n + 1) x P bytes, P being
// the bytes of a picture. Numbers: 2, 1; a refused opening gives back the empty state.
pub fn open(file: &[u8], n: u32, memory: &mut [u8]) -> Reply
    ensures { (result, memory.new) ≡ opening file.now n memory.old }
{
    match refusals::open(file, n, memory.len()) {
        Ok(()) => {
            memory.fill(0xFF);
            Reply {
                number: 0,
                state: opened_state(file, n),
            }
        }
        Err(refusal) => Reply {
            number: refusal.number(),
            state: empty_state(),
        },
    }
}

impl State {
    // The state with another store.
    fn with_store(self, store: Store) -> State
        ensures { result ≡ with_store self store }
    {
        State { store, ..self }
    }

    // The reply to a call that is refused. A call gives back a `Reply`, so that it matches on what its test gives, and `?` cannot stand.
    fn refuse(self, refusal: Refusal) -> Reply
        ensures { result ≡ reply (number_of refusal) self }
    {
        Reply {
            number: refusal.number(),
            state: self,
        }
    }

    // The reply to a call that is accepted and leaves this store.
    fn accept(self, store: Store) -> Reply
        ensures { result ≡ reply 0 (with_store self store) }
    {
        Reply {
            number: 0,
            state: self.with_store(store),
        }
    }

    // 13 or 1. Each test below goes on with the refusals of its own calls.
    fn check(self, memory_len: usize) -> Result<Plan, Refusal>
        ensures { Found (file_of self) (store_cases self memory_len) result }
    {
        checks::check_store(&self.settings, self.store, memory_len)
    }

    // 13, 1, 3, 7 or 15.
    fn check_upload(self, memory_len: usize, slot: u32) -> Result<Plan, Refusal>
        ensures { Found (file_of self) (upload_cases self memory_len slot) result }
    {
        let plan = self.check(memory_len)?;
        refusals::upload(self.store, slot)?;
        Ok(plan)
    }

    // 13, 1, 3, 7, 15 or 16.
    fn check_begin(self, memory_len: usize, slot: u32) -> Result<(), Refusal>
        ensures { number_given result ≡ first_of (begin_cases self memory_len slot) (λ n. n) 0 }
    {
        self.check(memory_len)?;
        refusals::begin(self.store, slot)
    }

    // 13, 1 or 17.
    fn check_fill(self, memory_len: usize) -> Result<Plan, Refusal>
        ensures { Found (file_of self) (fill_cases self memory_len) result }
    {
        let plan = self.check(memory_len)?;
        refusals::fill(self.store)?;
        Ok(plan)
    }

    // 13, 1, 8, 12, 3 or 15.
    fn check_start(self, memory_len: usize, slot: u32) -> Result<(), Refusal>
        ensures { number_given result ≡ first_of (start_cases self memory_len slot) (λ n. n) 0 }
    {
        self.check(memory_len)?;
        refusals::start(self.store, slot)
    }

    // 13, 1 or 9.
    fn check_abandon(self, memory_len: usize) -> Result<(), Refusal>
        ensures { number_given result ≡ first_of (abandon_cases self memory_len) (λ n. n) 0 }
    {
        self.check(memory_len)?;
        refusals::abandon(self.store)
    }

    // 13, 1, 3 or 11.
    fn check_write(self, memory_len: usize, slot: u32, out_len: usize) -> Result<Plan, Refusal>
        ensures { Found (file_of self) (write_cases self memory_len slot out_len) result }
    {
        let plan = self.check(memory_len)?;
        refusals::write(self.store, plan.shape, slot, out_len)?;
        Ok(plan)
    }

    // 13 or 3.
    fn check_summary(self, slot: u32) -> Result<(), Refusal>
        ensures { number_given result ≡ first_of (summary_cases self slot) (λ n. n) 0 }
    {
        checks::check_state(&self.settings, self.store)?;
        refusals::summary(self.store, slot)
    }

    // The reply to a picture that was drawn into a slot, with a fresh count of it.
    fn reply_drawn(self, shape: Shape, memory: &[u8], slot: u32) -> Reply
        requires { SlotOf (sizes shape) (length memory.now) slot }
        ensures { result ≡ reply 0 (counted (sizes shape) self memory.now slot) }
    {
        let counts = slots::count_slot(shape, memory, slot, self.store.summaries);
        self.accept(self.store.with_summaries(counts))
    }

    // Paints the dots of a region of slot 1 to n: `width` by `height` dots from dot x of row y on. The payload has ceil(width / 8) bytes a
    // row, unused low bits 0. Numbers: 13, 1, 3, 7, 15, 5, 6. The region is four numbers here, as docs/ARCHITECTURE.md has the call, and a
    // `Region` within.
    pub fn upload_region(
        self,
        memory: &mut [u8],
        slot: u32,
        x: u32,
        y: u32,
        width: u32,
        height: u32,
        payload: &[u8],
    ) -> Reply
        ensures { (result, memory.new) ≡ region_upload self memory.old slot x y width height payload.now }
    {
        let plan = match self.check_upload(memory.len(), slot) {
            Ok(plan) => plan,
            Err(refusal) => return self.refuse(refusal),
        };
        let region = Region {
            x,
            y,
            width,
            height,
        };
        match slots::place_region(plan.shape, memory, slot, region, payload) {
            Ok(()) => self.reply_drawn(plan.shape, memory, slot),
            Err(refusal) => self.refuse(refusal),
        }
    }

    // Makes slot 1 to n hold the picture of a whole bitmap file. Numbers: 13, 1, 3, 7, 15, 4.
    pub fn upload_bitmap(self, memory: &mut [u8], slot: u32, bitmap: &[u8]) -> Reply
        ensures { (result, memory.new) ≡ bitmap_upload self memory.old slot bitmap.now }
    {
        let plan = match self.check_upload(memory.len(), slot) {
            Ok(plan) => plan,
            Err(refusal) => return self.refuse(refusal),
        };
        match slots::place_bitmap(plan.shape, memory, slot, bitmap) {
            Ok(()) => self.reply_drawn(plan.shape, memory, slot),
            Err(refusal) => self.refuse(refusal),
        }
    }

    // Begins to fill slot 1 to n with a bitmap file that comes in chunks. No byte changes. Numbers: 13, 1, 3, 7, 15, 16.
    pub fn begin_fill(self, memory: &[u8], slot: u32) -> Reply
        ensures { result ≡ fill_begin self (length memory.now) slot }
    {
        match self.check_begin(memory.len(), slot) {
            Ok(()) => self.accept(self.store.with_fill(fill::begun(slot))),
            Err(refusal) => self.refuse(refusal),
        }
    }

    // The reply to what was done to the slot being filled: where it was written, with a fresh count of it.
    fn reply_fed(self, wrote: bool, shape: Shape, memory: &[u8], fed: Fed) -> Reply
        requires { SlotOf (sizes shape) (length memory.now) self.store.fill.slot }
        ensures { result ≡ fed_reply (sizes shape) self wrote memory.now fed }
    {
        let filled = self.store.with_fill(fed.fill);
        if !wrote {
            return Reply {
                number: fed.number,
                state: self.with_store(filled),
            };
        }
        let counts = slots::count_slot(shape, memory, self.store.fill.slot, filled.summaries);
        Reply {
            number: fed.number,
            state: self.with_store(filled.with_summaries(counts)),
        }
    }

    // Takes the next bytes of the file, of whatever length; each row is in the slot once its whole stride has come. Numbers: 13, 1, 17, 4.
    // With 4, where the bytes so far begin no good file, the fill is over and its slot all white.
    pub fn feed_fill(self, memory: &mut [u8], chunk: &[u8]) -> Reply
        ensures { (result, memory.new) ≡ fill_feed self memory.old chunk.now }
    {
        let plan = match self.check_fill(memory.len()) {
            Ok(plan) => plan,
            Err(refusal) => return self.refuse(refusal),
        };
        let fill = self.store.fill;
        let fed = slots::feed_slot(plan.shape, memory, fill, chunk);
        let wrote = slots::chunk_wrote(plan.shape, fill, fed);
        self.reply_fed(wrote, plan.shape, memory, fed)
    }

    // Ends the file, all of whose bytes have come: the slot holds its picture. Numbers: 13, 1, 17, 4. With 4, where bytes are missing, the
    // fill is over too and its slot all white.
    pub fn finish_fill(self, memory: &mut [u8]) -> Reply
        ensures { (result, memory.new) ≡ fill_finish self memory.old }
    {
        let plan = match self.check_fill(memory.len()) {
            Ok(plan) => plan,
            Err(refusal) => return self.refuse(refusal),
        };
        let fed = slots::finish_slot(plan.shape, memory, self.store.fill);
        self.reply_fed(fed.number != 0, plan.shape, memory, fed)
    }

    // Gives the fill up: its slot is all white. Numbers: 13, 1, 17.
    pub fn cancel_fill(self, memory: &mut [u8]) -> Reply
        ensures { (result, memory.new) ≡ fill_cancel self memory.old }
    {
        let plan = match self.check_fill(memory.len()) {
            Ok(plan) => plan,
            Err(refusal) => return self.refuse(refusal),
        };
        let fed = slots::cancel_slot(plan.shape, memory, self.store.fill);
        self.reply_fed(true, plan.shape, memory, fed)
    }

    // Starts a run that shows slot 1 to n, at a tick reading. Numbers: 13, 1, 8, 12, 3, 15.
    pub fn start(self, memory: &[u8], slot: u32, tick: Tick) -> Reply
        ensures { result ≡ starting self (length memory.now) slot tick }
    {
        match self.check_start(memory.len(), slot) {
            Ok(()) => self.accept(
                self.store
                    .with_phase(Phase::Running(Run::begin(slot, tick))),
            ),
            Err(refusal) => self.refuse(refusal),
        }
    }

    // Breaks the run under way off. The shown picture is then unknown, and only opening anew helps. Numbers: 13, 1, 9.
    pub fn abandon(self, memory: &[u8]) -> Reply
        ensures { result ≡ abandoning self (length memory.now) }
    {
        match self.check_abandon(memory.len()) {
            Ok(()) => self.accept(self.store.with_phase(Phase::Abandoned)),
            Err(refusal) => self.refuse(refusal),
        }
    }

    // Writes the bitmap file of the picture of slot 0 to n at the front of `out`, which has room for it. Numbers: 13, 1, 3, 11.
    pub fn write_bitmap(self, memory: &[u8], slot: u32, out: &mut [u8]) -> Reply
        ensures { (result, out.new) ≡ bitmap_write self memory.now slot out.old }
    {
        let plan = match self.check_write(memory.len(), slot, out.len()) {
            Ok(plan) => plan,
            Err(refusal) => return self.refuse(refusal),
        };
        slots::write_slot(plan.shape, memory, slot, out);
        Reply {
            number: 0,
            state: self,
        }
    }

    // At a tick reading: the next thing of the run, put at the front of `out`, which has at least 117 bytes; or the ms until it is due; or
    // that the run is over, and its slot is the shown picture. Numbers, as `Answer::Refused`: 13, 1, 9, 11, 10.
    pub fn poll(self, tick: Tick, memory: &mut [u8], out: &mut [u8]) -> Polled
        ensures { polling result.answer result.state memory.new out.new
            ≡ polled self tick memory.old out.old }
    {
        let left = runs::poll_store(&self.settings, self.store, tick, memory, out);
        Polled {
            answer: left.answer,
            state: self.with_store(left.store),
        }
    }

    // The summary of slot 0 to n: how many dots are black, and the first and last row with one. Numbers: 13, 3.
    pub fn summary(self, slot: u32) -> Summarised
        ensures { result ≡ slot_summary self slot }
    {
        match self.check_summary(slot) {
            Ok(()) => Summarised {
                number: 0,
                summary: summary::summary_at(self.store.summaries, slot as usize),
                state: self,
            },
            Err(refusal) => Summarised {
                number: refusal.number(),
                summary: summary::empty_summary(),
                state: self,
            },
        }
    }
}
