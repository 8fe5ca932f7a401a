// Runs states that a caller made up, and prints a line for each.
#![tactic(auto)]

mod fills;
mod made;
mod summaries;

use std::io;

fn main(rt: HostRuntime) -> io::Result<()> {
    made::examples(&rt)?;
    fills::examples(&rt)?;
    summaries::examples(&rt)
}
