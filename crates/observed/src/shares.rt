//! For how long some of the pieces of a trace execute between two times.
ghost use Rattle.std.specs.Prelude.{◌≡◌, ◌<◌};
ghost use Rattle.observed.specs.Shares.{counts, is_at, is_below, overlap, share_of, time_in};

use crate::pieces::Piece;
use task_sheet::Name;

/// Which pieces are counted.
#[derive(Clone, Copy)]
pub(crate) enum Whom {
    /// Those of the job at a place.
    Job(usize),
    /// Those of the task of a level.
    Level(usize),
    /// Those of the tasks below a level.
    Below(usize),
    /// Those of threads that the set doesn't have.
    Foreign,
    /// Those of the one of them with a name.
    Thread(Name),
    Anyone,
}

// It is this number.
pub(crate) fn is_at(number: usize, some: Option<usize>) -> bool
    ensures { result ≡ is_at number some }
{
    match some {
        Some(other) => other == number,
        None => false,
    }
}

// It is a number below this one.
fn is_below(number: usize, some: Option<usize>) -> bool
    ensures { result ≡ is_below number some }
{
    match some {
        Some(other) => other < number,
        None => false,
    }
}

// The piece is counted.
fn counts(whom: &Whom, piece: &Piece) -> bool
    ensures { result ≡ counts whom.now piece.now }
{
    match whom {
        Whom::Job(place) => is_at(*place, piece.job),
        Whom::Level(level) => is_at(*level, piece.level),
        Whom::Below(level) => is_below(*level, piece.level),
        Whom::Foreign => piece.level.is_none(),
        Whom::Thread(name) => piece.level.is_none() && piece.name == *name,
        Whom::Anyone => true,
    }
}

// How much of a piece lies between two times.
fn overlap(from: u128, to: u128, piece: &Piece) -> u128
    ensures is { result ≡ overlap from to piece.now }
    ensures small { result < 18446744073709551616 }
{
    let start = u128::from(piece.start);
    let stop = u128::from(piece.stop);
    stop.min(to).saturating_sub(start.max(from))
}

// The same, where the piece is counted; else 0.
pub(crate) fn share_of(whom: &Whom, from: u128, to: u128, piece: &Piece) -> u128
    ensures is { result ≡ share_of whom.now from to piece.now }
    ensures small { result < 18446744073709551616 }
{
    if counts(whom, piece) {
        overlap(from, to, piece)
    } else {
        0
    }
}

// For how long those who are counted execute between two times.
pub(crate) fn time_in(whom: &Whom, from: u128, to: u128, pieces: &[Piece]) -> u128
    ensures { result ≡ time_in whom.now from to pieces.now }
{
    let mut time: u128 = 0;
    for piece in pieces {
        time += share_of(whom, from, to, piece);
    }
    time
}
