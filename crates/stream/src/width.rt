//! How many bits a packed number has.

ghost use Rattle.std.specs.Prelude.{◌≡◌, ◌<◌, ◌≤◌, MatchOption};
ghost use Rattle.stream.specs.Streams.{value_bytes};

/// A bit width of at most 32.
#[derive(Clone, Copy)]
pub struct Width {
    bits: u32,
    ghost ok: { bits ≤ 32 },
}

impl Width {
    /// The width of that many bits; there is none above 32.
    pub fn new(bits: u32) -> Option<Width>
        ensures { MatchOption result (32 < bits) (λ w. w.bits ≡ bits) }
    {
        if bits > 32 {
            return None;
        }
        Some(Width { bits })
    }

    /// The number of bits.
    pub fn bits(self) -> u32
        ensures is { result ≡ self.bits }
        ensures small { result ≤ 32 }
    {
        self.bits
    }

    /// The bytes that a repeated value takes.
    pub fn value_bytes(self) -> usize
        ensures is { result ≡ value_bytes self.bits }
        ensures small { result ≤ 4 }
    {
        (self.bits as usize).div_ceil(8)
    }
}
