//! Elements of a slice, all at once.

ghost use Rattle.std.specs.Prelude.{◌≡◌, ◌++◌, map, length, take, drop, replicate};

use crate::number::Number;

/// Writes `x` into every element.
// Kept: tried the slice's own `fill`; it asks for a clone that cannot fail, which `Copy` does not promise.
pub fn fill_all<T: Copy>(out: &mut [T], x: T)
    ensures { out.new ≡ replicate (length out.old) x }
{
    for slot in out.iter_mut() {
        *slot = x;
    }
}

/// Writes the numbers as elements, as many as there are places; the elements behind them stay.
pub fn write_numbers<T: Number>(numbers: &[u32], out: &mut [T])
    ensures { out.new ≡ map T.Number.from (take (length out.old) numbers.now) ++ drop (length numbers.now) out.old }
{
    let n = out.len().min(numbers.len());
    write_each(&numbers[..n], &mut out[..n]);
}

/// Writes as many numbers as there are places.
fn write_each<T: Number>(numbers: &[u32], out: &mut [T])
    requires { length out.old ≡ length numbers.now }
    ensures { out.new ≡ map T.Number.from numbers.now }
{
    // Kept: an index into the one slice. Through a `zip` of both (tried) no invariant sees what is written.
    for (i, x) in out.iter_mut().enumerate() {
        *x = T::from_u32(numbers[i]);
    }
}
