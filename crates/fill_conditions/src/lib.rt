// Whether a fill keeps the conditions.
#![tactic(auto)]

ghost use Rattle.std.specs.Prelude.{◌≡◌, ◌≤◌, length, drop};
ghost use Rattle.fill.specs.Conditions.{all_zero, header_rule, fill_valid};

use fill::Fill;
use panel::Shape;

// Whether the bytes from an index on are all 0. All are looked at, so that the compiler can take sixteen at once: `all` takes twice as long.
fn zero_from(bytes: &[u8], from: usize) -> bool
    requires { from ≤ length bytes.now }
    ensures { result ≡ all_zero (drop from bytes.now) }
{
    bytes[from..].iter().fold(0, |any, byte| any | *byte) == 0
}

// Whether the header, or what has come of it, and the palette are as they should be. Where nothing has come, nothing is looked at.
#[tactic(auto, using(fill::proofs::Taken::rule_none))]
fn header_valid(shape: Shape, fill: Fill) -> bool
    ensures { result ≡ header_rule shape.bytes shape.rows shape.stride fill }
{
    let came = fill.came;
    let known = fill.palette.is_some();
    if 62 <= came {
        return known;
    }
    !known && (came == 0 || bitmap_prefix::header_begins(shape, &fill.kept[..came]))
}

// Whether a fill is one that chunks can leave.
#[tactic(auto, unfolding(fill::specs::Conditions::fill_valid))]
pub fn valid(shape: Shape, fill: Fill) -> bool
    ensures { result ≡ fill_valid shape.bytes shape.rows shape.stride fill }
{
    (fill.slot != 0 || fill.came == 0)
        && fill.came <= bitmap::file_length(shape.rows, shape.stride)
        && zero_from(&fill.kept, fill::kept_count(shape, fill.came))
        && header_valid(shape, fill)
}
