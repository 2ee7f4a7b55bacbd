//! How many bits a level has.

ghost use Rattle.std.specs.Prelude.{◌≡◌, ◌≤◌};
ghost use Rattle.level_bytes.specs.Bits.{BitsOf};
ghost use Rattle.level_bytes.specs.Cuts.{width, above_zero};

/// How many bits a level has: those of the maximum, the greatest level; none at 0 and below.
pub fn level_width(max_level: i16) -> u32
    ensures is { result ≡ width max_level }
    ensures bits { BitsOf (above_zero max_level) result }
    ensures small { result ≤ 15 }
{
    if max_level <= 0 {
        return 0;
    }
    i16::BITS - max_level.leading_zeros()
}
