// Layouts: the check of a list of boxes.
#![tactic(auto)]

ghost use Rattle.std.specs.Prelude.{◌≡◌, ◌-◌, ◌≤◌, ◌<◌, eqb, length};
ghost use Rattle.lists.specs.Rules.{all_below};
ghost use Rattle.layout_rules.specs.Boxes.{
  box_count,
  child_count,
  next_box,
  start_of,
  child_good,
  box_good,
  times_in,
  times_child,
  child_once,
  list_good,
};
ghost use Rattle.layout_rules.specs.Facts.{Framed};

// The loops over boxes count them, and carry the index along: only a box's own first byte says where the next one begins.

// Whether the n boxes of a list end where it ends.
fn framed(list: &[u8], n: usize) -> bool
    requires { n ≤ 64 }
    ensures { result ≡ eqb (start_of list.now n) (length list.now) }
{
    let mut at = 1;
    for _ in 0..n {
        let Some(&k) = list.get(at) else {
            return false;
        };
        at += 1 + 2 * usize::from(k);
    }
    at == list.len()
}

// Whether the j-th child of box i, which begins at `at`, keeps its rule.
#[tactic(auto, unfolding(crate::specs::Boxes::child_good))]
fn child_good(list: &[u8], i: usize, at: usize, j: usize) -> bool
    requires { (next_box list.now at ≤ length list.now) × (j < child_count list.now at) }
    ensures { result ≡ child_good list.now i at j }
{
    let k = usize::from(list[at]);
    let weight = list[at + 1 + j];
    let child = list[at + 1 + k + j];
    (1..=100).contains(&weight) && i < usize::from(child) && child < list[0]
}

// Whether box i, which begins at `at`, keeps its rule.
fn box_good(list: &[u8], i: usize, at: usize) -> bool
    requires { (at ≡ start_of list.now i) × (next_box list.now at ≤ length list.now) }
    ensures { result ≡ box_good list.now i }
{
    let k = usize::from(list[at]);
    k <= 8 && (0..k).all(|j| child_good(list, i, at, j))
}

// Where the next box begins.
pub fn next_box(list: &[u8], at: usize) -> usize
    requires { next_box list.now at ≤ length list.now }
    ensures { result ≡ next_box list.now at }
{
    at + 1 + 2 * usize::from(list[at])
}

// The index at which box c begins.
pub fn start_of(list: &[u8], c: usize) -> usize
    requires { (Framed list.now) × (c < box_count list.now) }
    ensures { result ≡ start_of list.now c }
{
    let mut at = 1;
    for _ in 0..c {
        at = next_box(list, at);
    }
    at
}

// Whether every box keeps its rule.
fn boxes_good(list: &[u8]) -> bool
    requires { Framed list.now }
    ensures { result ≡ all_below (box_count list.now) (box_good list.now) }
{
    let mut at = 1;
    for i in 0..usize::from(list[0]) {
        if !box_good(list, i, at) {
            return false;
        }
        at = next_box(list, at);
    }
    true
}

// How often box c is a child of the box at an index.
fn times_in(list: &[u8], c: usize, at: usize) -> usize
    requires { next_box list.now at ≤ length list.now }
    ensures { (result ≡ times_in list.now c at) × (result ≤ 255) }
{
    let k = usize::from(list[at]);
    (0..k)
        .filter(|j| usize::from(list[at + 1 + k + j]) == c)
        .count()
}

// How often box c is a child.
fn times_child(list: &[u8], c: usize) -> usize
    requires { Framed list.now }
    ensures { result ≡ times_child list.now c }
{
    let mut times = 0;
    let mut at = 1;
    for _ in 0..usize::from(list[0]) {
        times += times_in(list, c, at);
        at = next_box(list, at);
    }
    times
}

// Whether every box but the first is a child exactly once.
fn each_once(list: &[u8]) -> bool
    requires { Framed list.now }
    ensures { result ≡ all_below (box_count list.now - 1) (child_once list.now) }
{
    (1..usize::from(list[0])).all(|c| times_child(list, c) == 1)
}

// Whether a list keeps every rule.
#[tactic(auto, unfolding(crate::specs::Boxes::list_good))]
pub fn list_good(list: &[u8]) -> bool
    ensures { result ≡ list_good list.now }
{
    let Some(&n) = list.first() else {
        return false;
    };
    (1..=64).contains(&n) && framed(list, usize::from(n)) && boxes_good(list) && each_once(list)
}
