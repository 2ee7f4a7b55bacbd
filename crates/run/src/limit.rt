//! Numbers held against a limit.

ghost use Rattle.std.specs.Prelude.{◌≡◌, nat_le};
ghost use Rattle.std.specs.List.{list_any, position};
ghost use Rattle.run.specs.Packed.{good};

/// Whether a number is not below the limit.
// Kept: a loop with no early exit, which runs in vectors. The library's `any` ends at the first.
fn any_at_least(numbers: &[u32], limit: u32) -> bool
    ensures { result ≡ list_any (λ x. nat_le limit x) numbers.now }
{
    let mut found = false;
    for x in numbers {
        found |= *x >= limit;
    }
    found
}

/// The place of the first number that is not below the limit.
fn first_bad(numbers: &[u32], limit: u32) -> Option<usize>
    ensures { result ≡ position (λ x. nat_le limit x) numbers.now }
{
    numbers.iter().position(|x| *x >= limit)
}

/// The place of the first number that is not below the limit, or how many numbers there are.
pub(crate) fn first_at_least(numbers: &[u32], limit: u64) -> usize
    ensures { result ≡ good limit numbers.now }
{
    let n = numbers.len();
    let Ok(limit) = u32::try_from(limit) else {
        return n;
    };
    if !any_at_least(numbers, limit) {
        return n;
    }
    first_bad(numbers, limit).unwrap_or(n)
}
