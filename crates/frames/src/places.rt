//! Where the rows of two runs stand side by side.
ghost use Rattle.std.specs.List.{filter};
ghost use Rattle.std.specs.Prelude.{◌+◌, ◌*◌, ◌<◌, ◌≡◌, ◌≤◌, All, IfOk, length, map};
ghost use Rattle.frames.specs.Places.{below_of, is_alone, lower_places, twin_of, upper_places};

use crate::rows::{TaskRow, name_in, spot_named};
use std::alloc::{AllocError, Global};
use task_sheet::TASK_LIMIT;

/// The rank of no row, at a place that is free.
pub const FREE: usize = TASK_LIMIT;

/// No picture has more places: those of the lanes, and two for each task of two sets.
pub const PLACES_LIMIT: usize = 4 * TASK_LIMIT + 1;

// The rank in another run of the row of the same task, if it is shown there.
fn twin_of(rows: &[TaskRow], other: &[TaskRow], shown: &[usize], rank: usize) -> usize
    requires { rank < length rows.now }
    ensures { result ≡ twin_of rows.now other.now shown.now rank }
{
    match spot_named(other, shown, name_in(rows, rank)) {
        None => FREE,
        Some(spot) => spot.rank,
    }
}

// Whether there is no such row.
fn is_alone(rows: &[TaskRow], other: &[TaskRow], shown: &[usize], rank: usize) -> bool
    requires { rank < length rows.now }
    ensures { result ≡ is_alone rows.now other.now shown.now rank }
{
    spot_named(other, shown, name_in(rows, rank)).is_none()
}

// The rows of the same tasks in another run.
fn twins_of(
    alloc: Global,
    rows: &[TaskRow],
    rows_shown: &[usize],
    other: &[TaskRow],
    shown: &[usize],
) -> Result<Vec<usize>, AllocError>
    requires { All (λ rank. rank < length rows.now) rows_shown.now }
    ensures { IfOk result (λ ranks. ranks.items
        ≡ map (twin_of rows.now other.now shown.now) rows_shown.now) }
{
    let mut ranks = Vec::new(alloc);
    for rank in rows_shown {
        ranks.push(twin_of(rows, other, shown, *rank))?;
    }
    Ok(ranks)
}

// Those of the rows that have no row of the same task in another run.
fn alone_of(
    alloc: Global,
    rows: &[TaskRow],
    rows_shown: &[usize],
    other: &[TaskRow],
    shown: &[usize],
) -> Result<Vec<usize>, AllocError>
    requires { All (λ rank. rank < length rows.now) rows_shown.now }
    ensures { IfOk result (λ ranks. ranks.items
        ≡ filter (is_alone rows.now other.now shown.now) rows_shown.now) }
{
    let mut ranks = Vec::new(alloc);
    for rank in rows_shown {
        if is_alone(rows, other, shown, *rank) {
            ranks.push(*rank)?;
        }
    }
    Ok(ranks)
}

/// The ranks of the rows below those of another run: of the same tasks, and then of the tasks that it has no row of.
pub fn below_of(
    alloc: Global,
    old: &[TaskRow],
    old_shown: &[usize],
    new: &[TaskRow],
    new_shown: &[usize],
) -> Result<Vec<usize>, AllocError>
    requires old { All (λ rank. rank < length old.now) old_shown.now }
    requires new { All (λ rank. rank < length new.now) new_shown.now }
    ensures ranks { IfOk result (λ ranks. ranks.items
        ≡ below_of old.now old_shown.now new.now new_shown.now) }
    ensures few { IfOk result (λ ranks. length ranks.items
        ≤ length old_shown.now + length new_shown.now) }
{
    let mut ranks = twins_of(alloc, old, old_shown, new, new_shown)?;
    let alone = alone_of(alloc, new, new_shown, old, old_shown)?;
    ranks.extend_from_slice(&alone)?;
    Ok(ranks)
}

/// A place for each of some rows, with a free one below it, behind one for the lanes of the processor.
pub fn upper_places(alloc: Global, ranks: &[usize]) -> Result<Vec<usize>, AllocError>
    ensures places { IfOk result (λ places. places.items ≡ upper_places ranks.now) }
    ensures few { IfOk result (λ places. length places.items ≡ 2 * length ranks.now + 1) }
{
    let mut places = vec![in alloc; FREE]?;
    for rank in ranks {
        places.push(*rank)?;
        places.push(FREE)?;
    }
    Ok(places)
}

/// A place for each, with a free one above it.
pub fn lower_places(alloc: Global, ranks: &[usize]) -> Result<Vec<usize>, AllocError>
    ensures places { IfOk result (λ places. places.items ≡ lower_places ranks.now) }
    ensures few { IfOk result (λ places. length places.items ≡ 2 * length ranks.now + 1) }
{
    let mut places = vec![in alloc; FREE]?;
    for rank in ranks {
        places.push(FREE)?;
        places.push(*rank)?;
    }
    Ok(places)
}
