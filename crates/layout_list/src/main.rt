// Reads a panel's code and a layout's list on standard input, and writes a line for each leaf on standard output.
#![tactic(auto)]

ghost use Rattle.std.specs.Prelude.{◌≡◌, ◌+◌, ◌≤◌, ◌<◌, ◌++◌, [], ◌∷◌, IfOk, take};
ghost use Rattle.arrayvec.specs.ArrayVec.{array_vec_len};
ghost use Rattle.listing.specs.Text.{decimal};
ghost use Rattle.layout.specs.Tiling.{Inside};
ghost use Rattle.layout.specs.Answer.{answer_given};
ghost use Rattle.layout_list.specs.Text.{leaf_line, leaf_lines, answer_text, layout_text, Drawn};

use arrayvec::ArrayVec;
use layout::{Leaves, Rect};
use refusal::Refusal;

// The text so far, with room for the lines of 64 leaves and no heap. Each function here that puts text puts its own after it.
type Page = ArrayVec<u8, 1024>;

// A number below 1,000, and one byte after it. Digits and text are put by hand: `write!` into a page of a fixed length may fail, which
// the proof would have to exclude.
fn put_number(page: &mut Page, n: u32, after: u8)
    requires { (n < 1000) × (array_vec_len page.old + 4 ≤ 1024) }
    ensures text { page.new.items ≡ page.old.items ++ (decimal n ++ (after ∷ [])) }
    ensures short { array_vec_len page.new ≤ array_vec_len page.old + 4 }
{
    let mut digits = [0; 20];
    let k = io::decimal(u64::from(n), &mut digits);
    page.try_extend_from_slice(&digits[..k]).unwrap();
    page.push(after);
}

// A leaf's line.
fn put_leaf(page: &mut Page, r: Rect)
    requires { (Inside 264 176 r) × (array_vec_len page.old + 16 ≤ 1024) }
    ensures text { page.new.items ≡ page.old.items ++ leaf_line r }
    ensures short { array_vec_len page.new ≤ array_vec_len page.old + 16 }
{
    put_number(page, r.x, b' ');
    put_number(page, r.y, b' ');
    put_number(page, r.width, b' ');
    put_number(page, r.height, b'\n');
}

// The lines of leaves.
fn put_leaves(page: &mut Page, leaves: &Leaves)
    requires { (Drawn leaves.now) × (page.old.items ≡ []) }
    ensures { page.new.items ≡ leaf_lines (take leaves.now.count leaves.now.rects) }
{
    for leaf in &leaves.rects[..leaves.count] {
        put_leaf(page, *leaf);
    }
}

// The text of an answer.
fn page_of(answer: Result<Leaves, Refusal>) -> Page
    requires { IfOk answer Drawn }
    ensures { result.items ≡ answer_text (answer_given answer) }
{
    let mut page = ArrayVec::new();
    match answer {
        Ok(leaves) => put_leaves(&mut page, &leaves),
        Err(refusal) => {
            page.try_extend_from_slice(b"refused ").unwrap();
            put_number(&mut page, u32::from(refusal.number()), b'\n');
        }
    }
    page
}

// The text of a layout, from the panel's code and the list after it. No code is no panel.
fn page_for(input: &[u8]) -> Page
    ensures { result.items ≡ layout_text input.now }
{
    let Some((&panel, list)) = input.split_first() else {
        return page_of(Err(Refusal::Argument));
    };
    page_of(layout::layout(u32::from(panel), list))
}

fn main(rt: HostRuntime) -> std::io::Result<()> {
    // The code, and one byte more than the longest list: a longer input fills it, and no list of this length is good.
    let mut given = [0; 193];
    let n = input::fill(&mut rt.stdin(), &mut given)?;
    rt.write_all(page_for(&given[..n]).as_slice())
}
