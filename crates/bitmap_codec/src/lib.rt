// The ways between a bitmap file and a slot: the writer and the reader.
#![tactic(auto)]

ghost use Rattle.std.specs.Prelude.{◌≡◌, ◌+◌, ◌-◌, ◌*◌, ◌<◌, ◌≤◌, ◌++◌, map, length, replicate, take, drop};
ghost use Rattle.lists.specs.Lists.{overlay, overlay_at};
ghost use Rattle.picture.specs.Slots.{picture_of, raw_of, picture_row};
ghost use Rattle.bitmap.specs.Palettes.{dots_of};
ghost use Rattle.bitmap.specs.Header.{header_length, file_length};
ghost use Rattle.bitmap_codec.specs.Codec.{header, read_picture, file_rows, written_file};

use bitmap::{HEADER_LENGTH, Palette};
use panel::Shape;

// ---- the writer

// Writes what stands before the rows.
fn write_header(shape: Shape, out: &mut [u8])
    requires { 62 ≤ length out.old }
    ensures { out.new ≡ overlay (header shape.bytes shape.rows shape.stride) out.old }
{
    for &entry in &bitmap::table() {
        let field = bitmap::field_of(shape, entry);
        bitmap::put_number(out, field.at, field.size, field.number);
    }
}

// Writes row y of the picture that a slot holds, and 0 for its padding, into `out`, from index `at` on.
fn write_row(shape: Shape, raw: &[u8], y: usize, out: &mut [u8], at: usize)
    requires { (y < shape.rows) × (length raw.now ≡ shape.rows * shape.bytes)
        × (at + shape.stride ≤ length out.old) }
    ensures { out.new
        ≡ overlay_at at (picture_row shape.bytes (picture_of shape.bytes shape.rows raw.now) y ++ replicate (shape.stride - shape.bytes) 0) out.old }
{
    picture::copy_row(shape, raw, y, out, at);
    lists::fill_at(out, at + shape.bytes, shape.stride - shape.bytes, 0);
}

// Writes the rows of the picture that a slot holds after the header, bottom row first. Here and in `read_bitmap` the index is the
// row's own number, by which both the slot and the file are read.
fn write_rows(shape: Shape, raw: &[u8], out: &mut [u8])
    requires { (length raw.now ≡ shape.rows * shape.bytes)
        × (file_length shape.rows shape.stride ≤ length out.old) }
    ensures { out.new
        ≡ overlay_at header_length (file_rows shape.bytes shape.rows shape.stride (picture_of shape.bytes shape.rows raw.now)) out.old }
{
    for j in 0..shape.rows {
        write_row(
            shape,
            raw,
            shape.rows - 1 - j,
            out,
            HEADER_LENGTH + j * shape.stride,
        );
    }
}

// Writes the bitmap file of the picture that a slot holds at the front of `out`, and answers the file's length.
pub fn write_bitmap(shape: Shape, raw: &[u8], out: &mut [u8]) -> usize
    requires { (length raw.now ≡ shape.rows * shape.bytes)
        × (file_length shape.rows shape.stride ≤ length out.old) }
    ensures { (result ≡ file_length shape.rows shape.stride)
        × (out.new ≡ overlay (written_file shape.bytes shape.rows shape.stride (picture_of shape.bytes shape.rows raw.now)) out.old) }
{
    write_header(shape, out);
    write_rows(shape, raw, out);
    bitmap::file_length(shape.rows, shape.stride)
}

// ---- the reader

// Makes row y of the picture that a slot holds the dots of the bytes of a row of `rows` from index `at` on: a row is read where it stands
// in the file. The proof asks which palette an arm had, and so two arms that do the same stand apart.
pub fn put_dots(
    shape: Shape,
    palette: Option<Palette>,
    raw: &mut [u8],
    y: usize,
    rows: &[u8],
    at: usize,
)
    requires { (length raw.old ≡ shape.rows * shape.bytes) × (y < shape.rows)
        × (at + shape.bytes ≤ length rows.now) }
    ensures { raw.new
        ≡ raw_of shape.bytes shape.rows (overlay_at (y * shape.bytes) (map (dots_of palette) (take shape.bytes (drop at rows.now)))
        (picture_of shape.bytes shape.rows raw.old)) }
{
    match palette {
        Some(Palette::BlackFirst) => picture::put_row(shape, raw, y, rows, at),
        Some(Palette::WhiteFirst) => picture::put_turned(shape, raw, y, rows, at),
        None => picture::put_row(shape, raw, y, rows, at),
    }
}

// Makes a slot hold the picture of a bitmap file: its rows stand after the header, bottom row first.
pub fn read_bitmap(shape: Shape, file: &[u8], raw: &mut [u8])
    requires { (length raw.old ≡ shape.rows * shape.bytes)
        × (file_length shape.rows shape.stride ≤ length file.now) }
    ensures { raw.new
        ≡ raw_of shape.bytes shape.rows (read_picture shape.bytes shape.rows shape.stride file.now) }
{
    let palette = bitmap::palette_of(file);
    for y in 0..shape.rows {
        let j = shape.rows - 1 - y;
        put_dots(
            shape,
            palette,
            raw,
            y,
            file,
            HEADER_LENGTH + j * shape.stride,
        );
    }
}
