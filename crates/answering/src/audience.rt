//! Who is told what became of a command's inputs.
ghost use Rattle.assignment.specs.Placings.{IsPlacingOf};

use crate::refusal::CommandRefusal;
use assignment::Placing;
use chain_tables::Chain;
use preferences::Choice;
use task_sheet::{Members, Name, TaskSet};

/// Which input of a call.
#[derive(Clone, Copy, Debug, PartialEq, Eq)]
pub enum Which {
    First,
    Second,
    /// The set in one text behind a release list.
    Third,
}

/// Somebody who is told what became of a command's inputs, beside its answer. No contract speaks of what it does with
/// that: no answer rests on it.
pub trait Audience {
    /// A set was read, and an answer on it follows, or out of memory for its lines.
    fn read(&mut self, set: &TaskSet);

    /// What becomes of the tasks of a set that was read, by their analysis.
    fn placed(&mut self, set: &TaskSet, placing: &Placing)
        requires { IsPlacingOf set.now placing.now };

    /// The answer that follows is of the best order of a set: what was read beside it gives none.
    fn in_best_order(&mut self, set: &TaskSet);

    /// The answer that follows is a run of a set's tasks.
    fn ran(&mut self, set: &TaskSet);

    /// That run ends where a job of the task with a name becomes ready, and the one before it isn't finished.
    fn overran(&mut self, name: Name);

    /// A trace shows jobs of some tasks of a set, by their indexes, and of no other.
    fn seen(&mut self, set: &TaskSet, tasks: Members);

    /// A set is to keep the order that settings give.
    fn keeping(&mut self, set: &TaskSet, settings: &[u8]);

    /// The answer that follows is of an order that isn't the best one, and a chain misses its limit in it.
    fn missed_here(&mut self);

    /// The answer that follows compares with a new set, and a chain misses its limit in the best order of that.
    fn missed_in_new(&mut self);

    /// A new set was read beside the first, by a preference, and who says so.
    fn compared(&mut self, new: &TaskSet, choice: Choice);

    /// No order of a set that passes keeps one that is given: the first pair of it that has to change.
    fn parted(&mut self, set: &TaskSet, low: usize, high: usize);

    /// A set was read by a preference, and who says so; it may still be refused for what is read beside it.
    fn preferred(&mut self, set: &TaskSet, choice: Choice);

    /// That set has these chains.
    fn chained(&mut self, chains: &[Chain]);

    /// An input was refused; its bytes are empty where it was not read, and where the number beside it was refused.
    fn refused(&mut self, which: Which, bytes: &[u8], refusal: CommandRefusal);
}

/// Nobody is told.
#[derive(Clone, Copy, Debug, PartialEq, Eq)]
pub struct Nobody;

impl Audience for Nobody {
    fn read(&mut self, _set: &TaskSet) {}

    fn placed(&mut self, _set: &TaskSet, _placing: &Placing) {}

    fn in_best_order(&mut self, _set: &TaskSet) {}

    fn ran(&mut self, _set: &TaskSet) {}

    fn overran(&mut self, _name: Name) {}

    fn seen(&mut self, _set: &TaskSet, _tasks: Members) {}

    fn keeping(&mut self, _set: &TaskSet, _settings: &[u8]) {}

    fn missed_here(&mut self) {}

    fn missed_in_new(&mut self) {}

    fn compared(&mut self, _new: &TaskSet, _choice: Choice) {}

    fn parted(&mut self, _set: &TaskSet, _low: usize, _high: usize) {}

    fn preferred(&mut self, _set: &TaskSet, _choice: Choice) {}

    fn chained(&mut self, _chains: &[Chain]) {}

    fn refused(&mut self, _which: Which, _bytes: &[u8], _refusal: CommandRefusal) {}
}
