// How a start clock shows a bib: the loop of its firmware, and uploads and fills before it, on a store of slots 0 and 1. The bus and
// the clock are simulated: what would go to the panel stands in `bus`, one thing after another, and a wait moves the tick on. Exported
// for C, where it is timed and compared.
#![tactic(auto)]

ghost use Rattle.std.specs.Prelude.{◌≡◌, ◌≤◌, length};
ghost use Rattle.board.specs.Calls.{opening};
ghost use Rattle.update_loop.specs.Loop.{
  index_after,
  slot_shown,
  bitmap_stored,
  region_stored,
  chunks_of,
  fed_all,
  fill_stored,
  numbered,
  updated,
};

pub mod parts;

use board::{Reply, State};
use poll::Answer;
use run::Tick;

// More polls than any run takes. A proved loop has to end, and nothing here says that the clock goes on.
const ENOUGH: u32 = 20000;

// The index n bytes after `at`, or the end of the bytes where that is less.
fn after(bytes: &[u8], at: usize, n: usize) -> usize
    requires { at ≤ length bytes.now }
    ensures { (result ≡ index_after bytes.now at n) × (result ≤ length bytes.now) }
{
    at + n.min(bytes.len() - at)
}

// Shows slot 1: starts a run, and polls it until it is done. Answers how many bytes went to the panel, or 0 after a refusal. It is compiled
// by itself, and so is `stored`: in `store_update` the states of an upload and those of a run would lie on the stack together.
#[inline(never)]
fn show(state: State, memory: &mut [u8], bus: &mut [u8]) -> usize
    ensures { (result, memory.new, bus.new) ≡ slot_shown state memory.old bus.old }
{
    let mut tick: u32 = 0;
    let started = state.start(memory, 1, Tick(tick));
    let mut state = started.state;
    let mut at: usize = 0;
    for made in 0..ENOUGH {
        let polled = state.poll(Tick(tick), memory, &mut bus[at..]);
        state = polled.state;
        let answer = polled.answer;
        match answer {
            Answer::Write(n) => at = after(bus, at, n),
            Answer::Line(n) => at = after(bus, at, n),
            Answer::Wait(ms) => tick = tick.wrapping_add(ms),
            Answer::Done => return at,
            Answer::Refused(_) => return 0,
        }
    }
    0
}

// Feeds a bitmap in chunks of `size` bytes, of which the last may be shorter, and nothing where `size` is 0. The numbers are not
// looked at.
fn feed(state: State, memory: &mut [u8], bitmap: &[u8], size: usize) -> State
    ensures { (result, memory.new) ≡ fed_all (chunks_of size bitmap.now) state memory.old }
{
    let mut state = state;
    if size == 0 {
        return state;
    }
    let mut rest = bitmap;
    while !rest.is_empty() {
        let (chunk, left) = rest.split_at(after(rest, 0, size));
        let fed = state.feed_fill(memory, chunk);
        state = fed.state;
        rest = left;
    }
    state
}

// Opens a store and uploads a bitmap to slot 1. `store_bitmap` does not call it: that would take a state more of stack.
#[inline(never)]
fn stored(settings: &[u8], bitmap: &[u8], memory: &mut [u8]) -> Reply
    ensures { (result, memory.new) ≡ bitmap_stored settings.now bitmap.now memory.old }
{
    let opened = board::open(settings, 1, memory);
    opened.state.upload_bitmap(memory, 1, bitmap)
}

// Opens a store, uploads a bitmap to slot 1 and shows it. Answers how many bytes went to the panel.
#[unsafe(no_mangle)]
pub extern "C" fn store_update(
    settings: &[u8],
    bitmap: &[u8],
    memory: &mut [u8],
    bus: &mut [u8],
) -> usize
    ensures { (result, memory.new, bus.new)
        ≡ updated settings.now bitmap.now memory.old bus.old }
{
    let stored = stored(settings, bitmap, memory);
    show(stored.state, memory, bus)
}

// Opens a store; answers the number of the opening.
#[unsafe(no_mangle)]
pub extern "C" fn store_opening(settings: &[u8], memory: &mut [u8]) -> u8
    ensures { (result, memory.new) ≡ numbered (opening settings.now 1 memory.old) }
{
    let opened = board::open(settings, 1, memory);
    opened.number
}

// Opens a store and uploads a bitmap to slot 1; answers the number of the upload.
#[unsafe(no_mangle)]
pub extern "C" fn store_bitmap(settings: &[u8], bitmap: &[u8], memory: &mut [u8]) -> u8
    ensures { (result, memory.new)
        ≡ numbered (bitmap_stored settings.now bitmap.now memory.old) }
{
    let opened = board::open(settings, 1, memory);
    let uploaded = opened.state.upload_bitmap(memory, 1, bitmap);
    uploaded.number
}

// Opens a store and uploads a region of slot 1; answers the number of the upload.
#[unsafe(no_mangle)]
pub extern "C" fn store_region(
    settings: &[u8],
    x: u32,
    y: u32,
    width: u32,
    height: u32,
    payload: &[u8],
    memory: &mut [u8],
) -> u8
    ensures { (result, memory.new)
        ≡ numbered (region_stored settings.now x y width height payload.now memory.old) }
{
    let opened = board::open(settings, 1, memory);
    let reply = opened
        .state
        .upload_region(memory, 1, x, y, width, height, payload);
    reply.number
}

// Opens a store and fills slot 1 with a bitmap that comes in chunks of `size` bytes; answers the number of the finish.
#[unsafe(no_mangle)]
pub extern "C" fn store_fill(settings: &[u8], bitmap: &[u8], size: usize, memory: &mut [u8]) -> u8
    ensures { (result, memory.new)
        ≡ numbered (fill_stored settings.now bitmap.now size memory.old) }
{
    let opened = board::open(settings, 1, memory);
    let begun = opened.state.begin_fill(memory, 1);
    let fed = feed(begun.state, memory, bitmap, size);
    let finished = fed.finish_fill(memory);
    finished.number
}
