// A region painted dot by dot, as uploads did before whole bytes were written. It is kept to be timed and compared from C beside
// `picture::paint_region`, and no crate of the driver stands on it.
#![tactic(auto)]

ghost use Rattle.std.specs.Prelude.{◌≡◌};
ghost use Rattle.by_dots.specs.Regions.{picture_region};
ghost use Rattle.refusal.specs.Numbers.{number_given};

use panel::{Panel, Shape};
use picture::{ByBytes, Painter, Region};
use refusal::Refusal;

// Each dot by itself.
struct ByDots;

impl Painter for ByDots {
    fn paint_row(
        shape: Shape,
        raw: &mut [u8],
        x: usize,
        y: usize,
        j: usize,
        width: usize,
        row: &[u8],
    ) {
        picture::paint_dots(shape.bytes, shape.rows, raw, x, y + j, width, row, 0);
    }
}

// Paints a region on a picture of the 2.7" panel in a given way, where the picture has its bytes and the region is good.
fn paint<P: Painter>(region: Region, payload: &[u8], picture: &mut [u8]) -> Result<(), Refusal>
    ensures { (number_given result, picture.new)
        ≡ picture_region region.x region.y region.width region.height payload.now picture.old }
{
    let shape = Panel::Inch270.shape();
    if picture.len() != shape.rows * shape.bytes {
        return Err(Refusal::Memory);
    }
    picture::check_region(shape, region, payload)?;
    picture::paint_region_by::<P>(shape, picture, 0, region, payload);
    Ok(())
}

// A region on a picture of the 2.7" panel, as uploads paint it: by whole bytes.
#[unsafe(no_mangle)]
pub extern "C" fn region_by_bytes(
    x: u32,
    y: u32,
    width: u32,
    height: u32,
    payload: &[u8],
    picture: &mut [u8],
) -> u8
    ensures { (result, picture.new) ≡ picture_region x y width height payload.now picture.old }
{
    let region = Region {
        x,
        y,
        width,
        height,
    };
    refusal::number_given(paint::<ByBytes>(region, payload, picture))
}

// The same, dot by dot.
#[unsafe(no_mangle)]
pub extern "C" fn region_by_dots(
    x: u32,
    y: u32,
    width: u32,
    height: u32,
    payload: &[u8],
    picture: &mut [u8],
) -> u8
    ensures { (result, picture.new)
        ≡ picture_region x y width height payload.now picture.old }
{
    let region = Region {
        x,
        y,
        width,
        height,
    };
    refusal::number_given(paint::<ByDots>(region, payload, picture))
}
