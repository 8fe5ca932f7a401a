// What the programs print.
use crate::Lent;
use board::State;
use poll::Answer;
use run::Tick;
use std::{fmt, io};

// A poll's answer as it is printed: the number of a refusal, or the kind, with the ms of a wait.
#[derive(Clone, Copy)]
struct Told(Answer);

impl fmt::Display for Told {
    fn fmt<W: fmt::Write>(&self, f: &mut fmt::Formatter<W>) -> fmt::Result {
        match self.0 {
            Answer::Refused(number) => write!(f, "{number}"),
            Answer::Write(_) => write!(f, "write"),
            Answer::Line(_) => write!(f, "line"),
            Answer::Wait(ms) => write!(f, "wait {ms}"),
            Answer::Done => write!(f, "done"),
        }
    }
}

// Polls at a tick, prints the words and the answer, and gives back the next state.
pub fn poll(
    rt: &impl Print,
    words: &str,
    state: State,
    tick: u32,
    lent: &mut Lent,
) -> io::Result<State> {
    let polled = state.poll(Tick(tick), &mut lent.memory, &mut lent.out);
    let told = Told(polled.answer);
    println!(rt; "{words}{told}")?;
    Ok(polled.state)
}
