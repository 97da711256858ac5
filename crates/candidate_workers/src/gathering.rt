//! What the workers of a level hand on, all together.
ghost use Rattle.std.specs.Prelude.{◌≡◌, ◌++◌, ◌∷◌, [], List, Some, option_to_list};
ghost use Rattle.candidate_workers.specs.declared.assaying.AssayFault.{AssayFault};
ghost use Rattle.candidate_workers.specs.WorkerFaults.{fault_of};
ghost use Rattle.assignment.specs.Places.{PlaceData};
ghost use Rattle.candidate_workers.specs.Crews.{place_in, places_in, fault_in, faults_of, rank_of, IsFirstFault, IsLowest};

use crate::asking::WorkFault;
use crate::assaying::AssayFault;
use crate::claims::ClaimSeat;
use assignment::Place;
use std::snapshot::Snapshot;

/// What a worker hands on: the candidate that passed with its response, where one did, or why it has no answer.
pub type Handed = Result<Option<Place>, WorkFault>;

/// How the claim table of a level ended, where no fault came.
#[derive(Drop)]
pub struct Claimed {
    /// How many numbers were drawn.
    pub counter: u64,
    /// The least place whose candidate passes, or the number of candidates.
    pub least: u64,
    /// What is known of all seats, united in one. It has no bytes.
    pub seat: Snapshot<ClaimSeat>,
}

/// What came of the workers of a level. All of them were joined.
#[derive(Drop)]
pub struct Crew {
    /// What each worker handed on, the caller first.
    pub handed: Vec<Handed>,
    /// Whether the system refused a thread.
    pub refused: bool,
    /// How the claim table ended. None where a fault came.
    pub claimed: Option<Claimed>,
}

/// The fault of a worker, as one of `assay`.
pub(crate) fn fault_of(fault: WorkFault) -> AssayFault
    ensures { result ≡ fault_of fault }
{
    match fault {
        WorkFault::GateShut(task) => AssayFault::GateShut { task },
        WorkFault::OutOfMemory => AssayFault::OutOfMemory,
    }
}

// The place of a fault in the order in which faults are answered.
fn rank_of(fault: &AssayFault) -> u8
    ensures { result ≡ rank_of fault.now }
{
    match fault {
        AssayFault::BadWorkers => 0,
        AssayFault::ThreadRefused => 1,
        AssayFault::GateShut { .. } => 2,
        AssayFault::OutOfMemory => 3,
    }
}

// The first of some faults, and of one more.
fn first_of(first: Option<AssayFault>, other: AssayFault) -> AssayFault
    ensures { (faults : List AssayFault) → IsFirstFault faults first →
        IsFirstFault (faults ++ other ∷ []) (Some result) }
{
    match first {
        None => other,
        Some(fault) => {
            if rank_of(&other) < rank_of(&fault) {
                other
            } else {
                fault
            }
        }
    }
}

// The first of some faults, and of that of one more worker, if it has one.
fn first_with(first: Option<AssayFault>, handed: &Handed) -> Option<AssayFault>
    ensures { (faults : List AssayFault) → IsFirstFault faults first →
        IsFirstFault (faults ++ fault_in handed.now) result }
{
    match handed {
        Ok(_) => first,
        Err(fault) => Some(first_of(first, fault_of(*fault))),
    }
}

// The lowest of some places, and of one more.
fn lower_of(lowest: Option<Place>, other: Place) -> Place
    ensures { (places : List PlaceData) → IsLowest places lowest →
        IsLowest (places ++ other ∷ []) (Some result) }
{
    match lowest {
        None => other,
        Some(place) => {
            if other.task < place.task {
                other
            } else {
                place
            }
        }
    }
}

// The same, where there may be none more.
fn lowest_of(lowest: Option<Place>, other: Option<Place>) -> Option<Place>
    ensures { (places : List PlaceData) → IsLowest places lowest →
        IsLowest (places ++ option_to_list other) result }
{
    match other {
        Some(place) => Some(lower_of(lowest, place)),
        None => lowest,
    }
}

// The lowest of some places, and of that of one more worker, if it has one.
fn lowest_with(lowest: Option<Place>, handed: &Handed) -> Option<Place>
    ensures { (places : List PlaceData) → IsLowest places lowest →
        IsLowest (places ++ place_in handed.now) result }
{
    match handed {
        Ok(place) => lowest_of(lowest, *place),
        Err(_) => lowest,
    }
}

impl Crew {
    /// The first fault in the order `ThreadRefused`, `GateShut`, `OutOfMemory`. None where there is none.
    pub fn fault(&self) -> Option<AssayFault>
        ensures { IsFirstFault (faults_of self.now) result }
    {
        let mut first = if self.refused {
            Some(AssayFault::ThreadRefused)
        } else {
            None
        };
        for handed in &self.handed {
            first = first_with(first, handed);
        }
        first
    }
    /// Of the candidates that were handed on, the one of least rank. None where there is none.
    pub fn lowest(&self) -> Option<Place>
        ensures { IsLowest (places_in self.now.handed.items) result }
    {
        let mut lowest = None;
        for handed in &self.handed {
            lowest = lowest_with(lowest, handed);
        }
        lowest
    }
}
