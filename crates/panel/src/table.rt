// The three panels, and what each is.
ghost use Rattle.std.specs.Prelude.{◌≡◌};
ghost use Rattle.panel.specs.Panels.{shape_of};
ghost use Rattle.panel.specs.Registers.{channel_data, gate_source_level};
ghost use Rattle.panel.specs.Names.{panel_code, Names};
ghost use Rattle.panel.specs.Facts.{sizes};
ghost use Rattle.refusal.specs.declared.Refusal.TheVariants.{Argument};

use crate::Shape;
use refusal::Refusal;

// Constant tables, as 01 names them: one for each column of its table of the panels.
const ROWS: [usize; 3] = [96, 96, 176];

const ROW_BYTES: [usize; 3] = [128 / 8, 200 / 8, 264 / 8];

const FRAMES: [u32; 3] = [16, 16, 21];

const STRIDES: [usize; 3] = [16, 28, 36];

// The data of register 0x01.
const CHANNELS: [[u8; 8]; 3] = [
    [0x00, 0x00, 0x00, 0x00, 0x00, 0x0F, 0xFF, 0x00],
    [0x00, 0x00, 0x00, 0x00, 0x01, 0xFF, 0xE0, 0x00],
    [0x00, 0x00, 0x00, 0x7F, 0xFF, 0xFE, 0x00, 0x00],
];

// The data of register 0x04.
const GATE_SOURCE_LEVELS: [u8; 3] = [0x03, 0x03, 0x00];

// A panel, by its diagonal: 1.44", 2" and 2.7".
#[derive(Clone, Copy, Debug, PartialEq, Eq)]
pub enum Panel {
    Inch144,
    Inch200,
    Inch270,
}

// A code that names no panel.
#[derive(Clone, Copy, Debug, PartialEq, Eq)]
pub struct NoSuchPanel;

impl From<NoSuchPanel> for Refusal {
    ghost from_gives = { λ _ e. e ≡ Argument };

    fn from(_none: NoSuchPanel) -> Refusal {
        Refusal::Argument
    }
}

impl TryFrom<u32> for Panel {
    type Error = NoSuchPanel;

    ghost try_from_gives = { Names };

    fn try_from(code: u32) -> Result<Self, NoSuchPanel> {
        match code {
            0 => Ok(Panel::Inch144),
            1 => Ok(Panel::Inch200),
            2 => Ok(Panel::Inch270),
            _ => Err(NoSuchPanel),
        }
    }
}

impl Panel {
    // Its sizes.
    pub fn shape(self) -> Shape
        ensures { sizes result ≡ shape_of (panel_code self) }
    {
        let panel = self as usize;
        Shape {
            bytes: ROW_BYTES[panel],
            rows: ROWS[panel],
            stride: STRIDES[panel],
            frames: FRAMES[panel],
        }
    }

    // The data of register 0x01.
    #[tactic(auto, unfolding(crate::specs::Registers::channel_data))]
    pub fn channel_data(self) -> [u8; 8]
        ensures { result ≡ channel_data (panel_code self) }
    {
        CHANNELS[self as usize]
    }

    // The data of register 0x04.
    #[tactic(auto, unfolding(crate::specs::Registers::gate_source_level))]
    pub fn gate_source_level(self) -> u8
        ensures { result ≡ gate_source_level (panel_code self) }
    {
        GATE_SOURCE_LEVELS[self as usize]
    }
}
