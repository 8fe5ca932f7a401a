// Bitmap files of which some bytes have come: whether a good file can follow.
#![tactic(auto)]

ghost use Rattle.std.specs.Prelude.{◌≡◌, ◌+◌, ◌≤◌};
ghost use Rattle.bitmap_prefix.specs.Begins.{
  number_begins,
  field_begins,
  colours_begin,
  palette_begins,
  header_begins,
};

use bitmap::{Also, BLACK, Field, WHITE};
use panel::Shape;

// Whether what has come of the `size` bytes at index `at` begins a number. Two, three or four bytes are asked, one by one: a number may
// have come in part, and no `from_le_bytes` reads three.
fn number_begins(size: usize, bytes: &[u8], at: usize, number: usize) -> bool
    requires { at + size ≤ 62 }
    ensures { result ≡ number_begins size bytes.now at number }
{
    let mut left = number;
    for i in 0..size {
        if bytes.len() <= at + i {
            return true;
        }
        if bytes[at + i] != (left % 256) as u8 {
            return false;
        }
        left /= 256;
    }
    true
}

// Whether what has come of a field begins something that it may hold. That a field lies in the header is asked here: the type cannot
// have it, as `header_fields` of specs/ makes a Field of any numbers.
fn field_begins(bytes: &[u8], field: Field) -> bool
    requires { field.at + field.size ≤ 62 }
    ensures { result ≡ field_begins bytes.now field }
{
    if number_begins(field.size, bytes, field.at, field.number) {
        return true;
    }
    match field.also {
        Also::Only => false,
        Also::Or(other) => number_begins(field.size, bytes, field.at, usize::from(other)),
        Also::OrAnything => true,
    }
}

// Whether what has come of the palette begins two colours.
fn colours_begin(bytes: &[u8], first: usize, second: usize) -> bool
    ensures { result ≡ colours_begin bytes.now first second }
{
    number_begins(3, bytes, 54, first) && number_begins(3, bytes, 58, second)
}

// Whether it begins black and white, in either order.
fn palette_begins(bytes: &[u8]) -> bool
    ensures { result ≡ palette_begins bytes.now }
{
    colours_begin(bytes, BLACK, WHITE) || colours_begin(bytes, WHITE, BLACK)
}

// Whether what has come of the header begins a good one.
#[tactic(auto, unfolding(crate::specs::Begins::header_begins))]
pub fn header_begins(shape: Shape, bytes: &[u8]) -> bool
    ensures { result ≡ header_begins shape.bytes shape.rows shape.stride bytes.now }
{
    palette_begins(bytes)
        && bitmap::table().iter().all(|&entry| field_begins(bytes, bitmap::field_of(shape, entry)))
}
