//! While which slices a job waits.
ghost use Rattle.std.specs.Prelude.{◌≡◌, min, max};
ghost use Rattle.pieces.specs.Pieces.{wait_in};

use ceiling_kernel::Slice;

/// The part of a slice in which a job waits that is ready from one time up to another; none of its own slices.
pub fn wait_in(job: usize, from: u64, to: u64, slice: Slice) -> Option<Slice>
    ensures { result ≡ wait_in job from to slice }
{
    let start = slice.start.max(from);
    let stop = slice.stop.min(to);
    if slice.job == job {
        None
    } else if start < stop {
        Some(Slice {
            job: slice.job,
            start,
            stop,
        })
    } else {
        None
    }
}
