// What mending a file answers.
ghost use Rattle.std.specs.Prelude.{◌<◌};

// The bytes that were added at the end of a file: the offset of the first, and how many.
#[derive(Clone, Copy)]
pub struct Added {
    pub offset: usize,
    pub count: usize,
    pub ghost some: { 0 < count },
}

// What was done to a file: how many of its bytes were changed, and the bytes that were added, if any.
#[derive(Clone, Copy)]
pub struct Mended {
    pub changes: usize,
    pub added: Option<Added>,
}
