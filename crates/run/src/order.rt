//! The two orders of packed bits.

/// How packed numbers follow one another.
#[derive(Clone, Copy)]
pub enum Order {
    /// From the lowest bit of each byte up, as in the hybrid's packed runs.
    LowFirst,
    /// From the highest bit of each byte down, as in BIT_PACKED.
    HighFirst,
}
