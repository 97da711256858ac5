//! The pieces of a trace that lie near a job: those that end after its arrival and begin before its end.
ghost use Rattle.std.specs.Prelude.{◌≡◌, OnOk};
ghost use Rattle.observed.specs.Near.{behind, near, rise_from};
ghost use Rattle.observed.specs.Pieces.{pieces_at};

use crate::pieces::{Housed, Piece, piece_of, split_first};
use crate::promises::Promise;
use std::alloc::AllocError;

// The slices from the first on that ends after a time.
pub(crate) fn behind<'a>(promises: &[Promise], housed: Housed<'a>, time: u64) -> Housed<'a>
    ensures { pieces_at promises.now result.homes.now result.slices.now
        ≡ behind time (pieces_at promises.now housed.entry.homes.now housed.entry.slices.now) }
{
    let mut rest = housed;
    while let Some((slice, _home, more)) = split_first(promises, rest) {
        if time < slice.stop {
            return rest;
        }
        rest = more;
    }
    rest
}

// The same, where those from another time on are known.
pub(crate) fn behind_next<'a>(
    promises: &[Promise],
    housed: Housed<'a>,
    known: Housed<'a>,
    reached: u64,
    time: u64,
) -> Housed<'a>
    requires { pieces_at promises.now known.homes.now known.slices.now
        ≡ behind reached (pieces_at promises.now housed.homes.now housed.slices.now) }
    ensures { pieces_at promises.now result.homes.now result.slices.now
        ≡ behind time (pieces_at promises.now housed.entry.homes.now housed.entry.slices.now) }
{
    if time < reached {
        behind(promises, housed, time)
    } else {
        behind(promises, known, time)
    }
}

// In place of others, the pieces from a time on up to another time; where they don't rise, all of them.
#[tactic(auto, using(crate::proofs::HomeLaws::near_none))]
pub(crate) fn fill_near(
    pieces: &mut Vec<Piece>,
    promises: &[Promise],
    rises: bool,
    housed: Housed<'_>,
    time: u64,
) -> Result<(), AllocError>
    ensures { OnOk result (pieces.new.items
        ≡ near rises time (pieces_at promises.now housed.entry.homes.now housed.entry.slices.now)) }
{
    pieces.clear();
    let mut rest = housed;
    while let Some((slice, home, more)) = split_first(promises, rest) {
        if rises && time <= slice.start {
            return Ok(());
        }
        pieces.push(piece_of(promises, slice, home))?;
        rest = more;
    }
    Ok(())
}

// Each piece begins no sooner than the one before it.
pub(crate) fn rises(promises: &[Promise], housed: Housed<'_>) -> bool
    ensures { result ≡ rise_from 0 (pieces_at promises.now housed.entry.homes.now housed.entry.slices.now) }
{
    let mut least = 0;
    let mut rest = housed;
    while let Some((slice, _home, more)) = split_first(promises, rest) {
        if slice.start < least {
            return false;
        }
        least = slice.start;
        rest = more;
    }
    true
}
