//! What a call for records asks for.

ghost use Rattle.std.specs.Prelude.{◌<◌};

/// What a call for records asks for.
#[derive(Clone, Copy)]
pub struct Asked {
    /// Whether a record is open before it.
    pub opened: bool,
    /// How many records it closes at most.
    pub records: usize,
    /// How many levels it takes at most.
    pub levels: usize,
    ghost some: { 0 < levels → 0 < records },
}
