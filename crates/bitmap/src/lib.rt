// Bitmap files: the table of their fields, their palettes, and the check.
#![tactic(auto)]

ghost use Rattle.std.specs.Prelude.{◌≡◌, ℕ, ◌+◌, ◌≤◌, map, length};
ghost use Rattle.lists.specs.Lists.{overlay_at};
ghost use Rattle.lists.specs.Rules.{every};
ghost use Rattle.refusal.specs.Numbers.{number_given};
ghost use Rattle.bitmap.specs.Numbers.{number_at, number_bytes};
ghost use Rattle.bitmap.specs.Palettes.{palette_from, palette_of};
ghost use Rattle.bitmap.specs.Header.{file_length, header_fields, field_good};
ghost use Rattle.bitmap.specs.Table.{number_of, field_of};
ghost use Rattle.bitmap.specs.Bitmap.{bitmap_good, check_bitmap};

use panel::{Panel, Shape};
use refusal::Refusal;

// What the two entries of a palette may be: black, then white; or white, then black.
#[derive(Clone, Copy)]
pub enum Palette {
    BlackFirst,
    WhiteFirst,
}

// ---- the table of fields

// What a field may hold besides its own number: nothing, one other number, or anything.
#[derive(Clone, Copy)]
pub enum Also {
    Only,
    Or(u8),
    OrAnything,
}

// A field of the header: its index in the file, its bytes, the number that the writer puts there, and what else it may hold.
// That it lies in the header is no ghost field here: `field_of` and `header_fields` of specs/ make a Field of any entry.
#[derive(Clone, Copy)]
pub struct Field {
    pub at: usize,
    pub size: usize,
    pub number: usize,
    pub also: Also,
}

// The number of an entry: the same in every file; or, for a picture, the length of its file, its width in dots, its rows, or the
// length of these in the file.
#[derive(Clone, Copy)]
pub enum Number {
    Fixed(u32),
    FileLength,
    Width,
    Rows,
    RowsLength,
}

// An entry of the table: a field for pictures of any size, with its parts in the same order, each as narrow as it may be, since a check
// lays the table out on its stack.
#[derive(Clone, Copy)]
pub struct Entry(pub u8, pub u8, pub Number, pub Also);

// The bytes before the rows.
pub const HEADER_LENGTH: usize = 62;

// The two colours, as numbers of three bytes.
pub const BLACK: usize = 0x000000;

pub const WHITE: usize = 0xFFFFFF;

// The last two are the palette, on whose entries together `palette_of` decides.
const FIELDS: [Entry; 17] = [
    Entry(0, 2, Number::Fixed(0x4D42), Also::Only),
    Entry(2, 4, Number::FileLength, Also::Only),
    Entry(6, 4, Number::Fixed(0), Also::Only),
    Entry(10, 4, Number::Fixed(HEADER_LENGTH as u32), Also::Only),
    Entry(14, 4, Number::Fixed(40), Also::Only),
    Entry(18, 4, Number::Width, Also::Only),
    Entry(22, 4, Number::Rows, Also::Only),
    Entry(26, 2, Number::Fixed(1), Also::Only),
    Entry(28, 2, Number::Fixed(1), Also::Only),
    Entry(30, 4, Number::Fixed(0), Also::Only),
    Entry(34, 4, Number::RowsLength, Also::Or(0)),
    Entry(38, 4, Number::Fixed(0), Also::OrAnything),
    Entry(42, 4, Number::Fixed(0), Also::OrAnything),
    Entry(46, 4, Number::Fixed(0), Also::Or(2)),
    Entry(50, 4, Number::Fixed(0), Also::OrAnything),
    Entry(54, 4, Number::Fixed(BLACK as u32), Also::OrAnything),
    Entry(58, 4, Number::Fixed(WHITE as u32), Also::OrAnything),
];

// The length of a file of h rows that are s bytes apart.
pub fn file_length(h: usize, s: usize) -> usize
    requires { (h ≤ 176) × (s ≤ 36) }
    ensures { result ≡ file_length h s }
{
    HEADER_LENGTH + h * s
}

fn number_of(shape: Shape, number: Number) -> usize
    ensures { result ≡ number_of shape.bytes shape.rows shape.stride number }
{
    match number {
        Number::Fixed(n) => n as usize,
        Number::FileLength => file_length(shape.rows, shape.stride),
        Number::Width => 8 * shape.bytes,
        Number::Rows => shape.rows,
        Number::RowsLength => shape.rows * shape.stride,
    }
}

// The field that an entry is for a picture.
pub fn field_of(shape: Shape, entry: Entry) -> Field
    ensures { result ≡ field_of shape.bytes shape.rows shape.stride entry }
{
    let Entry(at, size, number, also) = entry;
    Field {
        at: usize::from(at),
        size: usize::from(size),
        number: number_of(shape, number),
        also,
    }
}

// The table, whatever the sizes of a picture.
pub fn table() -> [Entry; 17]
    ensures { (b h s : ℕ) → map (field_of b h s) result ≡ header_fields b h s }
{
    FIELDS
}

// The fields for a picture, in file order.
pub fn header_fields(shape: Shape) -> [Field; 17]
    ensures { result ≡ header_fields shape.bytes shape.rows shape.stride }
{
    table().map(|entry| field_of(shape, entry))
}

// ---- numbers, low byte first: of two, three or four bytes, where `from_le_bytes` and `to_le_bytes` have one size

// The number of `size` bytes at index `at` of a file, at most four. Both loops are over indexes, as `number_at` and
// `number_bytes` of specs/ count by them.
fn number_at(size: usize, file: &[u8], at: usize) -> usize
    requires { (size ≤ 4) × (at + size ≤ length file.now) }
    ensures { result ≡ number_at size file.now at }
{
    let mut n: usize = 0;
    for i in (at..at + size).rev() {
        n = usize::from(file[i]) + 256 * n;
    }
    n
}

// Writes a number as `size` bytes into `out`, from index `at` on.
pub fn put_number(out: &mut [u8], at: usize, size: usize, n: usize)
    requires { at + size ≤ length out.old }
    ensures { out.new ≡ overlay_at at (number_bytes size n) out.old }
{
    let mut left = n;
    for i in at..at + size {
        out[i] = (left % 256) as u8;
        left /= 256;
    }
}

// ---- the check

// Whether a file holds in a field what it may.
pub fn field_good(file: &[u8], field: Field) -> bool
    requires { (field.size ≤ 4) × (field.at + field.size ≤ length file.now) }
    ensures { result ≡ field_good file.now field }
{
    let found = number_at(field.size, file, field.at);
    found == field.number
        || match field.also {
            Also::Only => false,
            Also::Or(other) => found == usize::from(other),
            Also::OrAnything => true,
        }
}

// Whether every field of the header is good. Each is made when it is asked for, and the first that is not good ends it.
fn header_good(shape: Shape, file: &[u8]) -> bool
    requires { 62 ≤ length file.now }
    ensures { result
        ≡ every (map (field_good file.now) (header_fields shape.bytes shape.rows shape.stride)) }
{
    table()
        .iter()
        .all(|&entry| field_good(file, field_of(shape, entry)))
}

// The palette of two colours.
#[tactic(auto, unfolding(crate::specs::Palettes::palette_from))]
fn palette_from(first: usize, second: usize) -> Option<Palette>
    ensures { result ≡ palette_from first second }
{
    match (first, second) {
        (BLACK, WHITE) => Some(Palette::BlackFirst),
        (WHITE, BLACK) => Some(Palette::WhiteFirst),
        _ => None,
    }
}

// The palette of a file; none where it is not black and white.
pub fn palette_of(file: &[u8]) -> Option<Palette>
    requires { 62 ≤ length file.now }
    ensures { result ≡ palette_of file.now }
{
    palette_from(number_at(3, file, 54), number_at(3, file, 58))
}

// Whether a file is a bitmap of a picture.
#[tactic(auto, unfolding(crate::specs::Bitmap::bitmap_good))]
pub fn bitmap_good(shape: Shape, file: &[u8]) -> bool
    ensures { result ≡ bitmap_good shape.bytes shape.rows shape.stride file.now }
{
    file.len() == file_length(shape.rows, shape.stride)
        && palette_of(file).is_some()
        && header_good(shape, file)
}

// The bitmap check. The panel is a code from outside: one that names none is refused by 14.
#[tactic(auto, unfolding(crate::specs::Bitmap::check_bitmap))]
pub fn check_bitmap(panel: u32, file: &[u8]) -> Result<(), Refusal>
    ensures { number_given result ≡ check_bitmap panel file.now }
{
    let panel = Panel::try_from(panel)?;
    if !bitmap_good(panel.shape(), file) {
        return Err(Refusal::Bitmap);
    }
    Ok(())
}
