// The big hall display: the header and the upload commands of an image.
#![tactic(auto)]

ghost use Rattle.std.specs.Prelude.{◌≡◌, ◌+◌, ◌-◌, ◌*◌, ◌≤◌, ◌<◌, min, length, true, IfOk, MatchResult};
ghost use Rattle.lists.specs.Lists.{overlay_at};
ghost use Rattle.lists.specs.Rules.{first_of};
ghost use Rattle.refusal.specs.Numbers.{number_given};
ghost use Rattle.hall_commands.specs.Commands.{data_of};
ghost use Rattle.hall_display.specs.Panels.{width_of, rows_of, format_of, image_bytes, header};
ghost use Rattle.hall_display.specs.Displays.{panel_code, depth_bits, NamesPanel, NamesDepth, Shows, IsNo};
ghost use Rattle.hall_display.specs.Upload.{make_header, upload_cases, upload_bytes, answer_of, uploading};

use refusal::Refusal;

// ---- panels and header

// A panel, by its diagonal: 13.3" and 31.2". Its number is the code in its header.
#[derive(Clone, Copy, Debug, PartialEq, Eq)]
enum Panel {
    Inch133 = 0x3E,
    Inch312 = 0x3F,
}

impl TryFrom<u32> for Panel {
    type Error = Refusal;

    ghost try_from_gives = { NamesPanel };

    fn try_from(code: u32) -> Result<Self, Refusal> {
        match code {
            0x3E => Ok(Panel::Inch133),
            0x3F => Ok(Panel::Inch312),
            _ => Err(Refusal::Display),
        }
    }
}

impl Panel {
    fn code(self) -> u8
        ensures { result ≡ panel_code self }
    {
        self as u8
    }
}

// The bits of a dot.
#[derive(Clone, Copy, Debug, PartialEq, Eq)]
enum Depth {
    One = 1,
    Two = 2,
}

impl TryFrom<u32> for Depth {
    type Error = Refusal;

    ghost try_from_gives = { NamesDepth };

    fn try_from(bits: u32) -> Result<Self, Refusal> {
        match bits {
            1 => Ok(Depth::One),
            2 => Ok(Depth::Two),
            _ => Err(Refusal::Display),
        }
    }
}

impl Depth {
    fn bits(self) -> u8
        ensures { (result ≡ depth_bits self) × (result ≤ 2) }
    {
        self as u8
    }
}

// A panel, and one of its two depths.
#[derive(Clone, Copy, Debug, PartialEq, Eq)]
struct Display {
    panel: Panel,
    depth: Depth,
}

impl Display {
    // The display of a panel's code and a depth.
    fn new(panel: u32, depth: u32) -> Result<Self, Refusal>
        ensures { MatchResult result (Shows panel depth) (IsNo panel depth) }
    {
        Ok(Self {
            panel: Panel::try_from(panel)?,
            depth: Depth::try_from(depth)?,
        })
    }

    fn width(self) -> u16
        ensures { (result ≡ width_of (panel_code self.panel)) × (result ≤ 1600) }
    {
        match self.panel {
            Panel::Inch133 => 1600,
            Panel::Inch312 => 1440,
        }
    }

    fn rows(self) -> u16
        ensures { (result ≡ rows_of (panel_code self.panel)) × (result ≤ 2560) }
    {
        match self.panel {
            Panel::Inch133 => 1200,
            Panel::Inch312 => 2560,
        }
    }

    fn format(self) -> u8
        ensures { result ≡ format_of (panel_code self.panel) }
    {
        match self.panel {
            Panel::Inch133 => 0,
            Panel::Inch312 => 7,
        }
    }

    fn image_bytes(self) -> usize
        ensures { result ≡ image_bytes (panel_code self.panel) (depth_bits self.depth) }
    {
        let dots = usize::from(self.width()) * usize::from(self.rows());
        dots / 8 * usize::from(self.depth.bits())
    }

    // The header's bytes.
    fn header(self) -> [u8; 16]
        ensures { result ≡ header (panel_code self.panel) (depth_bits self.depth) }
    {
        let [x_high, x_low] = self.width().to_be_bytes();
        let [y_high, y_low] = self.rows().to_be_bytes();
        [
            self.panel.code(),
            x_high,
            x_low,
            y_high,
            y_low,
            self.depth.bits(),
            self.format(),
            0,
            0,
            0,
            0,
            0,
            0,
            0,
            0,
            0,
        ]
    }
}

// The header of a panel's image. The panel and the depth are any numbers from outside: others than a display has are refused.
pub fn make_header(panel: u32, depth: u32) -> Result<[u8; 16], Refusal>
    ensures { result ≡ make_header panel depth }
{
    let display = Display::new(panel, depth)?;
    Ok(display.header())
}

// ---- the upload

// The display, or the first refusal, whatever the output.
fn check_upload(panel: u32, depth: u32, image_len: usize, slot: u32) -> Result<Display, Refusal>
    ensures number { number_given result
        ≡ first_of (upload_cases panel depth image_len slot) (λ n. n) 0 }
    ensures shows { IfOk result (Shows panel depth) }
{
    let display = Display::new(panel, depth)?;
    if image_len != display.image_bytes() {
        return Err(Refusal::Image);
    }
    if slot > 255 {
        return Err(Refusal::DisplaySlot);
    }
    Ok(display)
}

// Puts the first command's n bytes of data after the four bytes of its head: the header and the front of the image.
fn put_first_data(display: Display, image: &[u8], n: usize, out: &mut [u8])
    requires { (n ≡ min 251 (16 + length image.now)) × (4 + n ≤ length out.old) }
    ensures { out.new
        ≡ overlay_at 4 (data_of 0 (upload_bytes (panel_code display.panel) (depth_bits display.depth) image.now)) out.old }
{
    lists::put_at(out, 4, &display.header());
    lists::put_at(out, 20, &image[..n - 16]);
}

// Puts the n bytes of data of the command of one number after the four bytes of its head.
fn put_data(display: Display, image: &[u8], number: u32, n: usize, out: &mut [u8])
    requires { (n ≡ min 251 (16 + length image.now - 251 * number)) × (0 < n) × (4 + n ≤ length out.old) }
    ensures { out.new
        ≡ overlay_at 4 (data_of number (upload_bytes (panel_code display.panel) (depth_bits display.depth) image.now)) out.old }
{
    if number == 0 {
        put_first_data(display, image, n, out);
        return;
    }
    let start = 251 * number as usize - 16;
    lists::put_at(out, 4, &image[start..start + n]);
}

// Gives the command of one number, counted from 0, of an image's upload to a slot: the length of the command, or none past the last.
pub fn upload_command(
    panel: u32,
    depth: u32,
    image: &[u8],
    slot: u32,
    number: u32,
    out: &mut [u8],
) -> Result<Option<u8>, Refusal>
    ensures { (answer_of result, out.new) ≡ uploading panel depth image.now slot number out.old }
{
    let display = check_upload(panel, depth, image.len(), slot)?;
    // `as`, since usize has no From of u32.
    let left = (16 + image.len()).saturating_sub(251 * number as usize);
    let n = left.min(251);
    if n == 0 {
        return Ok(None);
    }
    if out.len() < 4 + n {
        return Err(Refusal::Output);
    }
    let head = [0x20, 0x01, slot as u8, n as u8];
    lists::put_at(out, 0, &head);
    put_data(display, image, number, n, out);
    Ok(Some((4 + n) as u8))
}
