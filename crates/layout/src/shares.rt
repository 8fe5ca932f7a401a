// A child's share of its box.
ghost use Rattle.std.specs.Prelude.{◌≡◌, ◌+◌, ◌-◌, ◌≤◌, ◌<◌};
ghost use Rattle.layout.specs.Places.{edge_of};

// A child: its number, the weights before its own, its own, and all weights of its box.
#[derive(Clone, Copy)]
pub(crate) struct Share {
    pub child: usize,
    pub low: u32,
    pub own: u32,
    pub total: u32,
    pub ghost some: { 0 < own },
    pub ghost within: { low + own ≤ total },
    pub ghost small: { total ≤ 2040 },
}

// An edge of a size that is divided by weights, rounded down to whole dots.
fn edge(size: u32, weights: u32, total: u32) -> u32
    requires { (size ≤ 264) × (0 < total) × (weights ≤ total) × (total ≤ 2040) }
    ensures { (result ≡ edge_of size weights total) × (result ≤ size) }
{
    size * weights / total
}

impl Share {
    // A child's part of a size: where it begins, and how long it is.
    pub fn part(self, size: u32) -> (u32, u32)
        requires { size ≤ 264 }
        ensures { result
            ≡ (edge_of size self.low self.total, edge_of size (self.low + self.own) self.total - edge_of size self.low self.total) }
    {
        let low = edge(size, self.low, self.total);
        let high = edge(size, self.low + self.own, self.total);
        (low, high - low)
    }
}
