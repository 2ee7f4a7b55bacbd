//! Eight bytes at a time.

ghost use Rattle.std.specs.Prelude.{◌≡◌, ◌+◌, ◌<◌, ◌≤◌, length, take, drop};
ghost use Rattle.stream.specs.Packing.{le};

/// The eight bytes from `j` on, lowest first.
pub(crate) fn word(bytes: &[u8], j: usize) -> u64
    requires { j + 8 ≤ length bytes.now }
    ensures { result ≡ le (take 8 (drop j bytes.now)) }
{
    let mut eight = [0; 8];
    eight.copy_from_slice(&bytes[j..j + 8]);
    u64::from_le_bytes(eight)
}

/// The same with zeros behind the end of the bytes.
pub(crate) fn window(bytes: &[u8], j: usize) -> u64
    requires { j ≤ length bytes.now }
    ensures { result ≡ le (take 8 (drop j bytes.now)) }
{
    if j + 8 <= bytes.len() {
        word(bytes, j)
    } else {
        last_word(&bytes[j..])
    }
}

/// The bytes, fewer than eight, with zeros behind them. A call of its own: its array stays out of the loops that ask for windows.
#[cold]
#[inline(never)]
fn last_word(bytes: &[u8]) -> u64
    requires { length bytes.now < 8 }
    ensures { result ≡ le (take 8 bytes.now) }
{
    let mut eight = [0; 8];
    eight[..bytes.len()].copy_from_slice(bytes);
    u64::from_le_bytes(eight)
}
