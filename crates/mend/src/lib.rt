// Mends damaged bitmap files and lists what was changed. A picture has the rows and the row bytes of a shape; in a file its rows are a
// stride apart.
#![tactic(auto)]

ghost use Rattle.std.specs.Prelude.{◌≡◌, ◌+◌, ◌*◌, ◌<◌, ◌≤◌, map, length};
ghost use Rattle.lists.specs.Lists.{tabulate, overlay, overlay_at};
ghost use Rattle.lists.specs.Rules.{every};
ghost use Rattle.bitmap.specs.Header.{file_length, header_fields};
ghost use Rattle.mend.specs.Mending.{
  is_mended,
  field_mendable,
  mendable,
  field_damaged,
  mend_field,
  mended_header,
  white_byte,
};
ghost use Rattle.mend.specs.Answers.{told_by, acceptance, mending_of, mending};
ghost use Rattle.mend.specs.Facts.{entry_bytes, byte_in, changed_in, listed_in};

mod answer;

pub use answer::{Added, Mended};
use bitmap::{Field, HEADER_LENGTH, Palette};
use panel::{Panel, Shape};
use refusal::Refusal;

// ---- what can be mended

// Whether the field at an index of the file is one that is mended.
fn is_mended(at: usize) -> bool
    ensures { result ≡ is_mended at }
{
    matches!(at, 2 | 6 | 34 | 46)
}

// Whether a field is mended, or good. That a field lies in the file is asked here and below, as `bitmap::Field` cannot have it.
fn field_mendable(file: &[u8], field: Field) -> bool
    requires { (field.size ≤ 4) × (field.at + field.size ≤ length file.now) }
    ensures { result ≡ field_mendable file.now field }
{
    is_mended(field.at) || bitmap::field_good(file, field)
}

// Whether every field of the header is mended, or good.
fn fields_mendable(shape: Shape, file: &[u8]) -> bool
    requires { 62 ≤ length file.now }
    ensures { result
        ≡ every (map (field_mendable file.now) (header_fields shape.bytes shape.rows shape.stride)) }
{
    bitmap::table().iter().all(|&entry| field_mendable(file, bitmap::field_of(shape, entry)))
}

// Whether a file can be mended.
#[tactic(auto, unfolding(crate::specs::Mending::mendable))]
fn is_mendable(shape: Shape, file: &[u8]) -> bool
    ensures { result ≡ mendable shape.bytes shape.rows shape.stride file.now }
{
    (HEADER_LENGTH..=bitmap::file_length(shape.rows, shape.stride)).contains(&file.len())
        && bitmap::palette_of(file).is_some()
        && fields_mendable(shape, file)
}

// ---- the mended bytes

// Whether a field is mended, and wrong.
fn field_damaged(file: &[u8], field: Field) -> bool
    requires { (field.size ≤ 4) × (field.at + field.size ≤ length file.now) }
    ensures { result ≡ field_damaged file.now field }
{
    is_mended(field.at) && !bitmap::field_good(file, field)
}

// Puts its own number into a field of `header` where the file's is damaged.
fn mend_field(header: &mut [u8], file: &[u8], field: Field)
    requires { (field.size ≤ 4) × (field.at + field.size ≤ length file.now) × (field.at + field.size ≤ length header.old) }
    ensures { header.new ≡ mend_field file.now field header.old }
{
    if field_damaged(file, field) {
        bitmap::put_number(header, field.at, field.size, field.number);
    }
}

// The mended header of a file.
fn mended_header(shape: Shape, file: &[u8]) -> [u8; HEADER_LENGTH]
    requires { 62 ≤ length file.now }
    ensures { result ≡ mended_header shape.bytes shape.rows shape.stride file.now }
{
    let mut header = [0; HEADER_LENGTH];
    header.copy_from_slice(&file[..HEADER_LENGTH]);
    for &entry in &bitmap::table() {
        mend_field(&mut header, file, bitmap::field_of(shape, entry));
    }
    header
}

// Eight white dots, as a byte of a file with this palette.
fn white_byte(palette: Option<Palette>) -> u8
    ensures { result ≡ white_byte palette }
{
    match palette {
        Some(Palette::WhiteFirst) => 0x00,
        Some(Palette::BlackFirst) | None => 0xFF,
    }
}

// What the bytes of a mended file are made of: the shape of its picture, its header, eight white dots, and the damaged file.
#[derive(Clone, Copy)]
struct Mending<'a> {
    shape: Shape,
    header: [u8; HEADER_LENGTH],
    white: u8,
    file: &'a [u8],
}

impl Mending<'_> {
    // Byte k of the mended file.
    fn byte(&self, k: usize) -> u8
        ensures { result ≡ byte_in self.now k }
    {
        if k < HEADER_LENGTH {
            return self.header[k];
        }
        if (k - HEADER_LENGTH) % self.shape.stride >= self.shape.bytes {
            return 0;
        }
        if k < self.file.len() {
            return self.file[k];
        }
        self.white
    }

    // Writes the mended file at the front of `out`.
    fn write_file(&self, out: &mut [u8])
        requires { file_length self.now.shape.rows self.now.shape.stride ≤ length out.old }
        ensures { out.new
            ≡ overlay (tabulate (file_length self.now.shape.rows self.now.shape.stride) (byte_in self.now)) out.old }
    {
        // By index: a byte goes by its place, past the end of the damaged file too.
        for k in 0..bitmap::file_length(self.shape.rows, self.shape.stride) {
            out[k] = self.byte(k);
        }
    }

    // How many bytes of the file are changed.
    fn count_changes(&self) -> usize
        ensures { result ≡ length (changed_in self.now) }
    {
        (0..self.file.len())
            .filter(|&k| self.byte(k) != self.file[k])
            .count()
    }

    // Writes the list of changes at the front of `list`.
    fn write_changes(&self, list: &mut [u8])
        requires { (length self.now.file.now < 65536) × (4 * length (changed_in self.now) ≤ length list.old) }
        ensures { list.new ≡ overlay (listed_in self.now) list.old }
    {
        let mut at = 0;
        for (k, &old) in self.file.iter().enumerate() {
            at = put_change(list, at, k, old, self.byte(k));
        }
    }
}

// ---- the list of changes

// Writes what the byte at index k adds to the list into `list`, from index `at` on, and answers the index after it.
fn put_change(list: &mut [u8], at: usize, k: usize, old: u8, new: u8) -> usize
    requires { (k < 65536) × (at + length (entry_bytes k old new) ≤ length list.old) }
    ensures { (result ≡ at + length (entry_bytes k old new))
        × (list.new ≡ overlay_at at (entry_bytes k old new) list.old) }
{
    if new == old {
        return at;
    }
    let [high, low] = (k as u16).to_be_bytes();
    lists::put_at(list, at, &[high, low, old, new]);
    at + 4
}

// ---- the call

// What was done to a file of `len` bytes that now has `full`.
fn accepted(full: usize, len: usize, changes: usize) -> Mended
    requires { len ≤ full }
    ensures { told_by (Ok result) ≡ acceptance full len changes }
{
    let added = if len < full {
        Some(Added {
            offset: len,
            count: full - len,
        })
    } else {
        None
    };
    Mended { changes, added }
}

// Mends a file of a picture of a shape.
fn mend_for(shape: Shape, file: &[u8], out: &mut [u8], list: &mut [u8]) -> Result<Mended, Refusal>
    ensures { (told_by result, out.new, list.new)
        ≡ mending_of shape.bytes shape.rows shape.stride file.now out.old list.old }
{
    if !is_mendable(shape, file) {
        return Err(Refusal::Bitmap);
    }
    let full = bitmap::file_length(shape.rows, shape.stride);
    if out.len() < full {
        return Err(Refusal::Output);
    }
    let header = mended_header(shape, file);
    let white = white_byte(bitmap::palette_of(file));
    let mending = Mending {
        shape,
        header,
        white,
        file,
    };
    let changes = mending.count_changes();
    if list.len() < 4 * changes {
        return Err(Refusal::Output);
    }
    mending.write_file(out);
    mending.write_changes(list);
    Ok(accepted(full, file.len(), changes))
}

// Mends a damaged bitmap file for a panel: the mended file goes into `out` and the changed bytes, four for each, into `list`.
// The panel's code comes from outside (`epd_mend_bitmap`), and another number is refused here.
pub fn mend(panel: u32, file: &[u8], out: &mut [u8], list: &mut [u8]) -> Result<Mended, Refusal>
    ensures { (told_by result, out.new, list.new) ≡ mending panel file.now out.old list.old }
{
    let panel = Panel::try_from(panel)?;
    mend_for(panel.shape(), file, out, list)
}
