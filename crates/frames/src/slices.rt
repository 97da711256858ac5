//! Slices, by time, and how many ticks of a job they have.
ghost use Rattle.std.specs.Prelude.{◌+◌, ◌<◌, ◌≡◌, length, min};
ghost use Rattle.frames.specs.Slices.{executed_with, rises, slice_at, ticks_of};

use ceiling_kernel::Slice;

/// How many ticks a slice has.
pub fn ticks_of(slice: Slice) -> u64
    ensures { result ≡ ticks_of slice }
{
    slice.stop.saturating_sub(slice.start)
}

/// How many ticks the job of a slice has executed after it.
pub fn executed_after(executed: u64, slice: Slice) -> u64
    ensures { result ≡ min executed slice.start + ticks_of slice }
{
    executed.min(slice.start) + ticks_of(slice)
}

/// How many ticks a job has executed after a slice, which may be another's.
pub fn executed_with(executed: u64, job: usize, slice: Slice) -> u64
    ensures { result ≡ executed_with job executed slice }
{
    if slice.job == job {
        executed_after(executed, slice)
    } else {
        executed
    }
}

/// Slice n.
pub fn slice_at(slices: &[Slice], n: usize) -> Slice
    requires { n < length slices.now }
    ensures { result ≡ slice_at slices.now n }
{
    slices[n]
}

/// Whether slices begin one after the other.
pub fn starts_rise(slices: &[Slice]) -> bool
    ensures { result ≡ rises 0 slices.now }
{
    let mut before = 0;
    for slice in slices {
        if slice.start < before {
            return false;
        }
        before = slice.start;
    }
    true
}
