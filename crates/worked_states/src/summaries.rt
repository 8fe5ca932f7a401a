// States that a caller made up, with a summary: for each condition of STATE.md on it some that break only it, and some that just keep it.
// A store with no run refuses a poll with 9 where it keeps them. It has slots 0 and 1, of 128 x 96 dots.
use crate::made;
use board::State;
use std::io;
use summary::{Span, Summary};

// The state with another summary of a slot.
fn with_summary(state: State, slot: usize, summary: Summary) -> State {
    let mut made = state;
    if let Some(place) = made.store.summaries.get_mut(slot) {
        *place = summary;
    }
    made
}

// Polls a store with no run and a made-up summary of a slot, after the words that say whether it breaks a condition or just keeps it.
fn tried(rt: &impl Print, words: &str, slot: usize, summary: Summary) -> io::Result<()> {
    made::told(rt, words, with_summary(made::opened(), slot, summary))
}

// ---- made-up summaries

fn blank(black: u32) -> Summary {
    Summary { black, span: None }
}

fn rows(black: u32, first: u32, last: u32) -> Summary {
    Summary {
        black,
        span: Some(Span { first, last }),
    }
}

// ---- the conditions

// (t), on the number of black dots: there are 12,288. Slot 2 is none of this store's.
fn count(rt: &impl Print) -> io::Result<()> {
    tried(rt, "condition t: ", 1, rows(12289, 0, 95))?;
    tried(rt, "condition t: ", 0, rows(12289, 0, 95))?;
    tried(rt, "condition t: ", 1, rows(4294967295, 0, 95))?;
    tried(rt, "kept t: ", 1, rows(12288, 0, 95))?;
    tried(rt, "kept t: ", 0, rows(12288, 0, 95))?;
    tried(rt, "kept t: ", 2, rows(12289, 0, 95))
}

// (u), on which row is first.
fn order(rt: &impl Print) -> io::Result<()> {
    tried(rt, "condition u: ", 1, rows(5, 11, 10))?;
    tried(rt, "condition u: ", 0, rows(5, 95, 0))?;
    tried(rt, "condition u: ", 1, rows(5, 4294967295, 95))?;
    tried(rt, "kept u: ", 1, rows(5, 10, 10))?;
    tried(rt, "kept u: ", 0, rows(5, 0, 95))
}

// (v), on the last row: the rows are 0 to 95.
fn last_row(rt: &impl Print) -> io::Result<()> {
    tried(rt, "condition v: ", 1, rows(5, 0, 96))?;
    tried(rt, "condition v: ", 0, rows(5, 96, 96))?;
    tried(rt, "condition v: ", 1, rows(5, 0, 4294967295))?;
    tried(rt, "kept v: ", 1, rows(5, 95, 95))
}

// (w) and (x), on whether rows are given.
fn given(rt: &impl Print) -> io::Result<()> {
    tried(rt, "condition w: ", 1, rows(0, 0, 0))?;
    tried(rt, "condition w: ", 0, rows(0, 10, 11))?;
    tried(rt, "kept w: ", 1, rows(1, 0, 0))?;
    tried(rt, "condition x: ", 1, blank(1))?;
    tried(rt, "condition x: ", 0, blank(12288))?;
    tried(rt, "kept x: ", 1, blank(0))
}

pub fn examples(rt: &impl Print) -> io::Result<()> {
    count(rt)?;
    order(rt)?;
    last_row(rt)?;
    given(rt)
}
