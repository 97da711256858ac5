//! Where a test stops to hold.
ghost use Rattle.std.specs.Prelude.{ℕ, ◌<◌, ◌≤◌, Ok, Err, IfOk, IfErr};
ghost use Rattle.limits.specs.Bisection.{IsEdge};

use std::alloc::AllocError;

/// A number at which a test holds and at the next of which it doesn't, between one at which it is known to hold and an end
/// at which it isn't asked. The first step is at most this. The error is out of memory.
pub fn edge_of<F: Fn(u64) -> Result<bool, AllocError>>(
    known: u64,
    end: u64,
    first_step: u64,
    holds: F,
) -> Result<u64, AllocError>
    requires within { known < end }
    requires step { 1 ≤ first_step }
    requires test { (n : ℕ) → known < n → n < end → F.pre holds n }
    ensures edge { IfOk result (IsEdge (λ n answer. F.post holds n (Ok answer)) known end) }
    ensures error { IfErr result (λ error. (n : ℕ) × F.post holds n (Err error)) }
{
    let mut passing = known;
    let mut failing = end;
    let mut step = first_step;
    while failing - passing > 1 {
        let middle = passing + step.min((failing - passing) / 2);
        if holds(middle)? {
            passing = middle;
            step = failing;
        } else {
            failing = middle;
        }
    }
    Ok(passing)
}
