// Reading an input into room of a fixed size.
#![tactic(auto)]

ghost use Rattle.std.specs.Prelude.{◌≤◌, IfOk, length};

use std::io::{self, Read};

// Reads until the room is full or the input ends, and answers how many bytes stand at its front. `read_exact` would not say how many came
// before the end, so this is a loop over `read`.
pub fn fill<R: Read>(from: &mut R, room: &mut [u8]) -> io::Result<usize>
    ensures { IfOk result (λ n. n ≤ length room.new) }
{
    let mut done = 0;
    while done < room.len() {
        let n = from.read(&mut room[done..])?;
        if n == 0 {
            return Ok(done);
        }
        done += n;
    }
    Ok(done)
}
