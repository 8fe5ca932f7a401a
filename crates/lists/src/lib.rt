// What every crate uses: writes into a part of a byte list. What the list is after each of these is `overlay_at` of specs/Lists.antt, of
// which the definitions of bytes speak; `copy_from_slice` and `fill` speak of the part alone.
#![tactic(auto)]

ghost use Rattle.std.specs.Prelude.{◌≡◌, ◌+◌, ◌≤◌, length, replicate};
ghost use Rattle.lists.specs.Lists.{overlay_at};

// Copies `bytes` into `out`, from index `at` on. It is a loop, as `copy_from_slice` would have the archives for C ask their users for memmove
// besides memcpy and memset.
pub fn put_at(out: &mut [u8], at: usize, bytes: &[u8])
    requires { at + length bytes.now ≤ length out.old }
    ensures { out.new ≡ overlay_at at bytes.now out.old }
{
    for i in 0..bytes.len() {
        out[at + i] = bytes[i];
    }
}

// Fills the n bytes of `out` from index `at` on with one value.
pub fn fill_at(out: &mut [u8], at: usize, n: usize, value: u8)
    requires { at + n ≤ length out.old }
    ensures { out.new ≡ overlay_at at (replicate n value) out.old }
{
    let end = at + n;
    out[at..end].fill(value);
}
