// The tables of the panels, and what else is asked by number: the registers, the scan marks and the dot codes.
#![tactic(auto)]

ghost use Rattle.std.specs.Prelude.{◌≡◌, ◌-◌, ◌≤◌, ◌<◌};
ghost use Rattle.panel.specs.Registers.{data_length};
ghost use Rattle.panel.specs.Codes.{where_white, where_black, scan_mark};

mod sizes;
mod table;

pub use sizes::Shape;
pub use table::{NoSuchPanel, Panel};

// Constant tables, as 01 names them for the scan marks and the dot codes.
const SCAN_MARKS: [u8; 4] = [0xC0, 0x30, 0x0C, 0x03];

// The dot codes of stages 1 to 4, where the picture is white and where it is black.
const WHERE_WHITE: [u8; 4] = [0b11, 0b10, 0b11, 0b10];

const WHERE_BLACK: [u8; 4] = [0b10, 0b00, 0b00, 0b11];

// How many bytes of data a register takes; 0 where there is no such register, as in the definition `data_length`, by which sizes of steps
// are added. A `match`: a constant array would be laid out on the stack at each use.
pub fn data_length(register: u8) -> usize
    ensures { (result ≡ data_length register) × (result ≤ 8) }
{
    match register {
        0x01 => 8,
        0x02..=0x08 => 1,
        0x09 => 2,
        _ => 0,
    }
}

// A row's mark in its scan byte, by the row number modulo 4.
pub fn scan_mark(r: usize) -> u8
    requires { r < 4 }
    ensures { result ≡ scan_mark r }
{
    SCAN_MARKS[r]
}

// The codes that a stage sends: where its picture is white, and where it is black. Stages are numbers, as in the definition `code_of`.
pub fn dot_codes(stage: usize) -> (u8, u8)
    requires { (1 ≤ stage) × (stage ≤ 4) }
    ensures { (result ≡ (where_white stage, where_black stage)) × (result.0 < 4) × (result.1 < 4) }
{
    (WHERE_WHITE[stage - 1], WHERE_BLACK[stage - 1])
}
