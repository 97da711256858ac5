//! Tasks whose jobs come exactly a period apart.
ghost use Rattle.std.specs.Prelude.{◌≡◌};
ghost use Rattle.release_list.specs.Steady.{is_steady, offset_in};

/// A task whose jobs come exactly a period apart, by its index: from its offset on, in microseconds, where that is known.
#[derive(Clone, Copy)]
pub struct SteadyTask {
    pub task: usize,
    pub offset: Option<u64>,
}

// Whether the task of a rank is one of the steady ones.
pub(crate) fn is_steady(steady: &[SteadyTask], rank: usize) -> bool
    ensures { result ≡ is_steady steady.now rank }
{
    steady.iter().any(|own| own.task == rank)
}

// The first of its offsets that are known.
pub(crate) fn offset_in(steady: &[SteadyTask], rank: usize) -> Option<u64>
    ensures { result ≡ offset_in steady.now rank }
{
    for own in steady {
        if own.task == rank {
            if let Some(offset) = own.offset {
                return Some(offset);
            }
        }
    }
    None
}
