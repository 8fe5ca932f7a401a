// Layouts: the places of the leaves of a list of boxes on a panel.
#![tactic(auto)]

ghost use Rattle.std.specs.Prelude.{◌≡◌, ◌*◌, ◌%◌, ◌≤◌, true, length};
ghost use Rattle.layout_rules.specs.Boxes.{child_count, next_box, list_good};
ghost use Rattle.layout.specs.Places.{weights_below, has_dots};
ghost use Rattle.layout.specs.Answer.{answer_given, layout_of};
ghost use Rattle.layout.specs.Facts.{
  placed_on,
  ChildAt,
  ShareFound,
  Standing,
  Laid,
  Charted,
};

mod shares;

use panel::Panel;
use refusal::Refusal;
use shares::Share;

// A rectangle of the panel, in dots: where a box stands. It is apart from `picture::Region`, which comes from outside and has rules to be
// checked; one type for both would be no plainer.
#[derive(Clone, Copy, Default)]
pub struct Rect {
    pub x: u32,
    pub y: u32,
    pub width: u32,
    pub height: u32,
}

// The leaves of a layout: the first `count` rectangles, with empty ones after them. A list has at most 64 boxes, so that they fit without
// a heap.
#[derive(Clone, Copy)]
pub struct Leaves {
    pub count: usize,
    pub rects: [Rect; 64],
}

// Where each box stands, by its number, as far as they are placed.
type Chart = [Rect; 64];

// ---- the places

// These loops run over a child's number: its weight and its own number stand apart in the list, at two indices.

// The sum of the first n weights of the box at an index.
fn weights_below(list: &[u8], at: usize, n: usize) -> u32
    requires { (next_box list.now at ≤ length list.now) × (n ≤ child_count list.now at) × (n ≤ 8) }
    ensures { (result ≡ weights_below list.now at n) × (result ≤ 255 * n) }
{
    (0..n).map(|j| u32::from(list[at + 1 + j])).sum()
}

// The j-th child of the box at an index.
fn share_of(list: &[u8], at: usize, j: usize) -> Share
    requires { ChildAt list.now at j }
    ensures { ShareFound list.now at j result }
{
    let k = usize::from(list[at]);
    Share {
        child: usize::from(list[at + 1 + k + j]),
        low: weights_below(list, at, j),
        own: u32::from(list[at + 1 + j]),
        total: weights_below(list, at, k),
    }
}

// Row box c stands at `place`, with so many levels remaining, its own among them. It divides its width, and each child is a column
// box. The level below the sixth is one of row boxes, so that only a row box can find none remaining. docs/DECISIONS.md says why row and
// column layout are two functions.
#[cycle(column_layout_row_layout)]
fn row_layout(
    list: &[u8],
    c: usize,
    levels: usize,
    place: Rect,
    chart: &mut Chart,
) -> Result<(), Refusal>
    requires { (Standing list.now c levels place chart.old) × (levels % 2 ≡ 0) }
    ensures { Laid list.now c place chart.old result chart.new }
{
    if levels == 0 {
        return Err(Refusal::Levels);
    }
    let at = layout_rules::start_of(list, c);
    chart[c] = place;
    for j in 0..usize::from(list[at]) {
        let share = share_of(list, at, j);
        let (left, width) = share.part(place.width);
        let part = Rect {
            x: place.x + left,
            width,
            ..place
        };
        column_layout(list, share.child, levels - 1, part, chart)?;
    }
    Ok(())
}

// Column box c stands at `place`. It divides its height, and each child is a row box.
#[cycle(column_layout_row_layout)]
fn column_layout(
    list: &[u8],
    c: usize,
    levels: usize,
    place: Rect,
    chart: &mut Chart,
) -> Result<(), Refusal>
    requires { (Standing list.now c levels place chart.old) × (levels % 2 ≡ 1) }
    ensures { Laid list.now c place chart.old result chart.new }
{
    let at = layout_rules::start_of(list, c);
    chart[c] = place;
    for j in 0..usize::from(list[at]) {
        let share = share_of(list, at, j);
        let (top, height) = share.part(place.height);
        let part = Rect {
            y: place.y + top,
            height,
            ..place
        };
        row_layout(list, share.child, levels - 1, part, chart)?;
    }
    Ok(())
}

// The places of all boxes: the first is a row box and has the whole panel.
fn chart_on(list: &[u8], width: u32, height: u32) -> Result<Chart, Refusal>
    requires { (list_good list.now ≡ true) × (width ≤ 264) × (height ≤ 176) }
    ensures { Charted list.now width height result }
{
    let whole = Rect {
        x: 0,
        y: 0,
        width,
        height,
    };
    let mut chart = [Rect::default(); 64];
    row_layout(list, 0, 6, whole, &mut chart)?;
    Ok(chart)
}

// ---- the answer

impl Rect {
    // Whether it has a width and a height.
    fn has_dots(self) -> bool
        ensures { result ≡ has_dots self }
    {
        0 < self.width && 0 < self.height
    }
}

// The leaves of a good list, or the refusal of a box that lies too deep or has no width or height.
fn leaves_on(list: &[u8], width: u32, height: u32) -> Result<Leaves, Refusal>
    requires { (list_good list.now ≡ true) × (width ≤ 264) × (height ≤ 176) }
    ensures { answer_given result ≡ placed_on list.now width height }
{
    let chart = chart_on(list, width, height)?;
    let mut leaves = Leaves {
        count: 0,
        rects: [Rect::default(); 64],
    };
    // The index is carried along with the box's number, since only the box says where the next one begins.
    let mut at = 1;
    for c in 0..usize::from(list[0]) {
        let place = chart[c];
        if !place.has_dots() {
            return Err(Refusal::Empty);
        }
        if list[at] == 0 {
            leaves.rects[leaves.count] = place;
            leaves.count += 1;
        }
        at = layout_rules::next_box(list, at);
    }
    Ok(leaves)
}

// The leaves of a layout, in the list's order, on a panel. The panel is any code from outside: one that no panel has is refused.
pub fn layout(panel: u32, list: &[u8]) -> Result<Leaves, Refusal>
    ensures { answer_given result ≡ layout_of panel list.now }
{
    let panel = Panel::try_from(panel)?;
    if !layout_rules::list_good(list) {
        return Err(Refusal::List);
    }
    let shape = panel.shape();
    leaves_on(list, 8 * shape.bytes as u32, shape.rows as u32)
}
