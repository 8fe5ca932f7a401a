// Bytes to lend.

// The memory of slots 0 and 1 of the 1.44" panel, and the output that a poll needs.
#[derive(Clone, Copy)]
pub struct Lent {
    pub memory: [u8; 3072],
    pub out: [u8; 117],
}

impl Lent {
    pub fn new() -> Lent {
        Lent {
            memory: [0xFF; 3072],
            out: [0; 117],
        }
    }
}
