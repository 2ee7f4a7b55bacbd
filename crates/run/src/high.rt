//! Numbers packed from the highest bit down.

ghost use Rattle.std.specs.Prelude.{◌≡◌, ◌+◌, ◌-◌, ◌*◌, ◌/◌, ◌%◌, ◌^◌, ◌≤◌, length};
ghost use Rattle.stream.specs.Packing.{be};

use crate::word::window;
use stream::width::Width;

/// The number that starts at the bit `at`, counted from the highest of each byte down.
pub(crate) fn high_bits(bytes: &[u8], at: usize, width: Width) -> u32
    requires { at + width.bits ≤ 8 * length bytes.now }
    ensures { result ≡ be bytes.now / 2 ^ (8 * length bytes.now - (at + width.bits)) % 2 ^ width.bits }
{
    let width = width.bits();
    // At width 0 the mask leaves nothing, and the shift, which could be by 64, is by less.
    let shift = (64 - at % 8 - width as usize) % 64;
    let x = window(bytes, at / 8).swap_bytes() >> shift;
    (x & ((1 << width) - 1)) as u32
}
