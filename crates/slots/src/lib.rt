// The slots of the lent memory: how many bytes they take, and what the calls on the store do to one of them.
#![tactic(auto)]

ghost use Rattle.std.specs.Prelude.{◌≡◌, ◌+◌, ◌*◌, ◌≤◌, length};
ghost use Rattle.panel.specs.Facts.{sizes};
ghost use Rattle.bitmap.specs.Header.{file_length};
ghost use Rattle.refusal.specs.Numbers.{number_given};
ghost use Rattle.fill_calls.specs.Calls.{feeding, finishing, cancelling};
ghost use Rattle.slots.specs.Slots.{
  store_bytes,
  bitmap_written,
  on_slot,
  chunk_writes,
  counted_in,
};
ghost use Rattle.slots.specs.Facts.{SlotOf, bitmap_placed, region_placed};

use fill::Fill;
use fill_calls::Fed;
use panel::Shape;
use picture::Region;
use refusal::Refusal;
use std::ops::Range;
use summary::Summary;

// The bytes of a store of slots 0 to n.
pub fn store_bytes(shape: Shape, n: u32) -> usize
    requires { n ≤ 7 }
    ensures { result ≡ store_bytes (sizes shape) n }
{
    (n as usize + 1) * (shape.rows * shape.bytes)
}

// Where the bytes of a slot lie in the memory. That a slot is one of 0 to 7 is asked here, and by `SlotOf` below together with its room in
// the memory: the store's state and the definitions of specs/ have slots as such numbers, and a type of their own would be no plainer.
fn slot_range(shape: Shape, slot: u32) -> Range<usize>
    requires { slot ≤ 7 }
    ensures { (result.start ≡ slot * (shape.rows * shape.bytes)) × (result.end ≡ result.start + shape.rows * shape.bytes) }
{
    let size = shape.rows * shape.bytes;
    let start = slot as usize * size;
    start..start + size
}

// Puts the picture of a good bitmap file into a slot.
pub fn place_bitmap(
    shape: Shape,
    memory: &mut [u8],
    slot: u32,
    bitmap: &[u8],
) -> Result<(), Refusal>
    requires { SlotOf (sizes shape) (length memory.old) slot }
    ensures { (number_given result, memory.new) ≡ bitmap_placed (sizes shape) memory.old slot bitmap.now }
{
    if !bitmap::bitmap_good(shape, bitmap) {
        return Err(Refusal::Bitmap);
    }
    bitmap_codec::read_bitmap(shape, bitmap, &mut memory[slot_range(shape, slot)]);
    Ok(())
}

// Paints a good region on a slot.
pub fn place_region(
    shape: Shape,
    memory: &mut [u8],
    slot: u32,
    region: Region,
    payload: &[u8],
) -> Result<(), Refusal>
    requires { SlotOf (sizes shape) (length memory.old) slot }
    ensures { (number_given result, memory.new)
        ≡ region_placed (sizes shape) memory.old slot region.x region.y region.width region.height payload.now }
{
    picture::check_region(shape, region, payload)?;
    picture::paint_region(shape, memory, slot as usize, region, payload);
    Ok(())
}

// Writes the bitmap file of a slot's picture at the front of `out`.
pub fn write_slot(shape: Shape, memory: &[u8], slot: u32, out: &mut [u8])
    requires { (SlotOf (sizes shape) (length memory.now) slot) × (file_length shape.rows shape.stride ≤ length out.old) }
    ensures { out.new ≡ bitmap_written (sizes shape) memory.now slot out.old }
{
    bitmap_codec::write_bitmap(shape, &memory[slot_range(shape, slot)], out);
}

// Takes a chunk into the slot being filled. The three calls on a fill differ in the call that the slot's bytes are lent to, and one function
// that takes such a call as a closure would be no plainer.
pub fn feed_slot(shape: Shape, memory: &mut [u8], fill: Fill, chunk: &[u8]) -> Fed
    requires { SlotOf (sizes shape) (length memory.old) fill.slot }
    ensures { (result, memory.new) ≡ on_slot (sizes shape) memory.old fill.slot
        (feeding shape.bytes shape.rows shape.stride fill chunk.now) }
{
    fill_calls::feed(
        shape,
        fill,
        chunk,
        &mut memory[slot_range(shape, fill.slot)],
    )
}

// Ends the file that fills a slot.
pub fn finish_slot(shape: Shape, memory: &mut [u8], fill: Fill) -> Fed
    requires { SlotOf (sizes shape) (length memory.old) fill.slot }
    ensures { (result, memory.new) ≡ on_slot (sizes shape) memory.old fill.slot
        (finishing shape.bytes shape.rows shape.stride fill) }
{
    fill_calls::finish(shape, fill, &mut memory[slot_range(shape, fill.slot)])
}

// Gives the fill of a slot up.
pub fn cancel_slot(shape: Shape, memory: &mut [u8], fill: Fill) -> Fed
    requires { SlotOf (sizes shape) (length memory.old) fill.slot }
    ensures { (result, memory.new) ≡ on_slot (sizes shape) memory.old fill.slot
        (λ raw. cancelling shape.bytes shape.rows) }
{
    fill_calls::cancel(shape, &mut memory[slot_range(shape, fill.slot)])
}

// Whether a chunk wrote the slot: it was refused, or it made rows whole.
pub fn chunk_wrote(shape: Shape, before: Fill, fed: Fed) -> bool
    ensures { result ≡ chunk_writes shape.stride before fed }
{
    fed.number != 0 || fill::rows_come(shape, fed.fill.came) != fill::rows_come(shape, before.came)
}

// The summaries with a fresh count of a slot, which was written.
pub fn count_slot(shape: Shape, memory: &[u8], slot: u32, summaries: [Summary; 8]) -> [Summary; 8]
    requires { SlotOf (sizes shape) (length memory.now) slot }
    ensures { result ≡ counted_in (sizes shape) memory.now slot summaries }
{
    let place = slot as usize;
    summary::with_summary(summaries, place, summary::fresh_count(shape, memory, place))
}
