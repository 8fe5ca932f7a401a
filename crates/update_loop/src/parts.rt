// The two parts of a bitmap upload, its copy and its count, each by itself on a picture that is lent by itself. Exported for C, where
// they are timed.
ghost use Rattle.std.specs.Prelude.{◌≡◌};
ghost use Rattle.refusal.specs.Numbers.{number_given};
ghost use Rattle.update_loop.specs.Pictures.{PictureShape, picture_copied, picture_counted};

use panel::{Panel, Shape};
use refusal::Refusal;

// The shape of a panel, where a picture of `len` bytes is one of it.
fn picture_shape(panel: u32, len: usize) -> Option<Shape>
    ensures { PictureShape panel «len» result }
{
    let Ok(panel) = Panel::try_from(panel) else {
        return None;
    };
    let shape = panel.shape();
    if len == shape.rows * shape.bytes {
        Some(shape)
    } else {
        None
    }
}

// The copy of a file, whose header is not looked at but for its palette, into a picture of a panel. It is
// compiled by itself, which takes less stack.
#[inline(never)]
fn copy(panel: u32, bitmap: &[u8], picture: &mut [u8]) -> Result<(), Refusal>
    ensures { (number_given result, picture.new) ≡ picture_copied panel bitmap.now picture.old }
{
    let Some(shape) = picture_shape(panel, picture.len()) else {
        return Err(Refusal::Memory);
    };
    if bitmap.len() != bitmap::file_length(shape.rows, shape.stride) {
        return Err(Refusal::Bitmap);
    }
    bitmap_codec::read_bitmap(shape, bitmap, picture);
    Ok(())
}

// The copy: the picture becomes that of a file. Answers 1 where it is no picture of the panel, 4 where the file has another length.
#[unsafe(no_mangle)]
pub extern "C" fn picture_copy(panel: u32, bitmap: &[u8], picture: &mut [u8]) -> u8
    ensures { (result, picture.new) ≡ picture_copied panel bitmap.now picture.old }
{
    refusal::number_given(copy(panel, bitmap, picture))
}

// The count: the black dots, or 0 where it is no picture of the panel.
#[unsafe(no_mangle)]
pub extern "C" fn picture_count(panel: u32, picture: &[u8]) -> u32
    ensures { result ≡ picture_counted panel picture.now }
{
    match picture_shape(panel, picture.len()) {
        Some(shape) => summary::summary_of(shape.bytes, shape.rows, picture).black,
        None => 0,
    }
}
