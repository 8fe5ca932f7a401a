// The sizes of a panel.
ghost use Rattle.std.specs.Prelude.{◌≡◌, ◌%◌, ◌≤◌, ◌<◌};

// The bytes of a row, the rows, the bytes from one row of a bitmap file to the next, and the frames per stage. Rows come in fours, a row is
// no longer than the stride, and nothing is larger than on the largest panel.
#[derive(Clone, Copy)]
pub struct Shape {
    pub bytes: usize,
    pub rows: usize,
    pub stride: usize,
    pub frames: u32,
    pub ghost some: { 0 < bytes },
    pub ghost narrow: { bytes ≤ 33 },
    pub ghost high: { 0 < rows },
    pub ghost low: { rows ≤ 176 },
    pub ghost fours: { rows % 4 ≡ 0 },
    pub ghost within: { bytes ≤ stride },
    pub ghost small: { stride ≤ 36 },
    pub ghost frames_some: { 0 < frames },
    pub ghost frames_few: { frames ≤ 21 },
}
