// The calls on a bitmap file that comes in chunks: a chunk of it, its end, and giving it up.
#![tactic(auto)]

ghost use Rattle.std.specs.Prelude.{◌≡◌, ◌*◌, ◌<◌, ◌++◌, length, take};
ghost use Rattle.refusal.specs.Numbers.{number_given};
ghost use Rattle.bitmap_prefix.specs.Begins.{header_begins};
ghost use Rattle.fill_calls.specs.Calls.{goes_on, fed, ended, feeding, finishing, cancelling};

use fill::Fill;
use panel::Shape;
use refusal::Refusal;

// What a call gives back: its number, 0 or that of a refusal, and the fill for the next call. The theorems on chunks speak of that number.
#[derive(Clone, Copy)]
pub struct Fed {
    pub number: u8,
    pub fill: Fill,
}

// ---- a chunk

// Whether the bytes kept of a header and a chunk begin a good header. They are put together in room for a whole header: there is no heap.
fn header_goes_on(shape: Shape, fill: Fill, chunk: &[u8]) -> bool
    requires { fill.came < 62 }
    ensures { result ≡ header_begins shape.bytes shape.rows shape.stride (take fill.came fill.kept ++ chunk.now) }
{
    let mut header = fill.kept;
    let n = chunk.len().min(62 - fill.came);
    lists::put_at(&mut header, fill.came, &chunk[..n]);
    bitmap_prefix::header_begins(shape, &header[..fill.came + n])
}

// Whether the bytes so far still begin a good file with this chunk.
#[tactic(auto, unfolding(crate::specs::Calls::goes_on))]
fn goes_on(shape: Shape, fill: Fill, chunk: &[u8]) -> bool
    ensures { result ≡ goes_on shape.bytes shape.rows shape.stride fill chunk.now }
{
    let total = bitmap::file_length(shape.rows, shape.stride);
    fill.came <= total
        && chunk.len() <= total - fill.came
        && (62 <= fill.came || header_goes_on(shape, fill, chunk))
}

// ---- the calls, on the bytes of the slot that is filled

// What a call gives back after an outcome.
fn give_back(outcome: Result<(), Refusal>, fill: Fill) -> Fed
    ensures { result ≡ fed (number_given outcome) fill }
{
    Fed {
        number: refusal::number_given(outcome),
        fill,
    }
}

// Ends a fill: the slot is all white. That `raw` has the length of a slot is asked of each call here: its caller lends the slot's bytes,
// and no type of its own would be plainer.
fn end_fill(shape: Shape, outcome: Result<(), Refusal>, raw: &mut [u8]) -> Fed
    requires { length raw.old ≡ shape.rows * shape.bytes }
    ensures { (result, raw.new) ≡ ended shape.bytes shape.rows (number_given outcome) }
{
    raw.fill(0xFF);
    give_back(outcome, fill::empty())
}

// Takes a chunk in: refused where no good file can follow any more.
#[tactic(auto, unfolding(crate::specs::Calls::feeding))]
pub fn feed(shape: Shape, fill: Fill, chunk: &[u8], raw: &mut [u8]) -> Fed
    requires { length raw.old ≡ shape.rows * shape.bytes }
    ensures { (result, raw.new) ≡ feeding shape.bytes shape.rows shape.stride fill chunk.now raw.old }
{
    if !goes_on(shape, fill, chunk) {
        return end_fill(shape, Err(Refusal::Bitmap), raw);
    }
    give_back(Ok(()), fill::take_bytes(shape, fill, chunk, raw))
}

// Ends a file: refused where it comes too early.
#[tactic(auto, unfolding(crate::specs::Calls::finishing))]
pub fn finish(shape: Shape, fill: Fill, raw: &mut [u8]) -> Fed
    requires { length raw.old ≡ shape.rows * shape.bytes }
    ensures { (result, raw.new) ≡ finishing shape.bytes shape.rows shape.stride fill raw.old }
{
    if fill.came != bitmap::file_length(shape.rows, shape.stride) {
        return end_fill(shape, Err(Refusal::Bitmap), raw);
    }
    give_back(Ok(()), fill::empty())
}

// Gives a fill up.
#[tactic(auto, unfolding(crate::specs::Calls::cancelling))]
pub fn cancel(shape: Shape, raw: &mut [u8]) -> Fed
    requires { length raw.old ≡ shape.rows * shape.bytes }
    ensures { (result, raw.new) ≡ cancelling shape.bytes shape.rows }
{
    end_fill(shape, Ok(()), raw)
}
