// Reads a bitmap file on standard input and writes it in normal form on standard output, or one line where it breaks a rule.
// The panel is the one whose files have this length.
#![tactic(auto)]

ghost use Rattle.std.specs.Prelude.{◌≡◌, ◌*◌, ◌≤◌, length, IfOk};
ghost use Rattle.panel.specs.Panels.{row_bytes_of, rows_of, stride_of};
ghost use Rattle.panel.specs.Names.{panel_code};
ghost use Rattle.bitmap.specs.Header.{file_length};
ghost use Rattle.bitmap_normal.specs.Normal.{normalized, IsPanelFor};

use panel::{Panel, Shape};
use refusal::Refusal;

// The file in normal form, by way of the picture that it holds. `picture` is room for exactly one: without a heap the rooms are
// the caller's, and an answer's length stands beside its room.
fn normalize(
    shape: Shape,
    file: &[u8],
    picture: &mut [u8],
    out: &mut [u8],
) -> Result<usize, Refusal>
    requires { (length picture.old ≡ shape.rows * shape.bytes)
        × (file_length shape.rows shape.stride ≤ length out.old) }
    ensures { (result, out.new) ≡ normalized shape.bytes shape.rows shape.stride file.now out.old }
{
    if !bitmap::bitmap_good(shape, file) {
        return Err(Refusal::Bitmap);
    }
    bitmap_codec::read_bitmap(shape, file, picture);
    Ok(bitmap_codec::write_bitmap(shape, picture, out))
}

// The same for a panel, with room for the largest picture and file.
fn normalize_for(panel: Panel, file: &[u8], out: &mut [u8]) -> Result<usize, Refusal>
    requires { 6398 ≤ length out.old }
    ensures { IfOk result (λ len. len ≤ 6398)
        × ((result, out.new) ≡ normalized (row_bytes_of (panel_code panel)) (rows_of (panel_code panel)) (stride_of (panel_code panel)) file.now out.old) }
{
    let shape = panel.shape();
    let mut picture = [0u8; 5808];
    normalize(shape, file, &mut picture[..shape.rows * shape.bytes], out)
}

const PANELS: [Panel; 3] = [Panel::Inch144, Panel::Inch200, Panel::Inch270];

// The panel whose bitmap files have this length.
fn panel_for(len: usize) -> Option<Panel>
    ensures { IsPanelFor len result }
{
    PANELS.iter().copied().find(|panel| len
        == bitmap::file_length(panel.shape().rows, panel.shape().stride))
}

fn main(rt: HostRuntime) -> std::io::Result<()> {
    // One byte more than the longest file: a longer input fills it, and no file has this length.
    let mut file = [0u8; 6399];
    let n = input::fill(&mut rt.stdin(), &mut file)?;
    let Some(panel) = panel_for(n) else {
        return println!(rt; "{}", Refusal::Bitmap);
    };
    let mut out = [0u8; 6398];
    match normalize_for(panel, &file[..n], &mut out) {
        Ok(len) => rt.write_all(&out[..len]),
        Err(refusal) => println!(rt; "{refusal}"),
    }
}
