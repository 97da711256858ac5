//! The lines of a verdict.
ghost use Rattle.std.specs.Prelude.{◌≡◌, ◌≢◌, ◌++◌, ◌<◌, length, IfOk, string_bytes};
ghost use Rattle.task_sheet.specs.Indexes.{indexes_of, listed_below};
ghost use Rattle.assignment.specs.Placings.{IsPlacingOf};
ghost use Rattle.answering.specs.declared.status.Status.TheVariants.{InputOrOutputFailed};
ghost use Rattle.answering.specs.OutcomeLines.{infeasible_line};
ghost use Rattle.answering.specs.OrderParts.{placing_said, settings_said};
ghost use Rattle.assignment.specs.Placings.{tasks_of_places};
ghost use Rattle.task_sheet.specs.Orders.{IsOrder};

use crate::notes::Notes;
use crate::status::Status;
use assignment::{Place, Placing};
use lines::push_names;
use settings::{anew_text, settings_text};
use std::alloc::{AllocError, Global};
use task_sheet::{Members, TaskSet};

/// What a command prints, the status that it ends with, and what a person is told beside it.
#[derive(Drop)]
pub struct Answer {
    pub text: Vec<u8>,
    pub status: Status,
    pub notes: Notes,
    ghost ended: { status ≢ InputOrOutputFailed },
}

impl Answer {
    /// A text with a status, beside which nobody is told anything.
    pub fn new(text: String, status: Status) -> Answer
        requires { status ≢ Status.InputOrOutputFailed }
        ensures text { result.text.items ≡ string_bytes text }
        ensures status { result.status ≡ status }
    {
        Answer {
            text: text.into_bytes(),
            status,
            notes: Notes::none(),
        }
    }
}

/// How much is said of an order.
#[derive(Clone, Copy)]
pub enum OrderPart {
    /// How many levels it has.
    Count,
    /// What a node is set to, where level 1 has this priority, with so much room beside each.
    Settings { base: u32, room: u32 },
}

/// The line of an obstruction.
pub fn infeasible_text(alloc: Global, set: &TaskSet, members: Members) -> Result<String, AllocError>
    ensures { IfOk result (λ text. string_bytes text
        ≡ infeasible_line set.now (listed_below (length set.now) (indexes_of members))) }
{
    let mut text = String::from_str(alloc, "infeasible")?;
    push_names(&mut text, set, members)?;
    text.push_str("\n")?;
    Ok(text)
}

// What a node is set to for an order, where level 1 has this priority, with so much room beside each.
fn set_text(
    alloc: Global,
    set: &TaskSet,
    base: u32,
    room: u32,
    places: &[Place],
) -> Result<String, AllocError>
    requires { IsOrder set.now (tasks_of_places places.now) }
    ensures { IfOk result (λ text. string_bytes text
        ≡ settings_said set.now base room (tasks_of_places places.now)) }
{
    if room == 0 {
        settings_text(alloc, set, base, places)
    } else {
        anew_text(alloc, set, base, room, places)
    }
}

/// So much of the order of a placing, or the line of its obstruction.
pub fn placing_text(
    alloc: Global,
    part: OrderPart,
    set: &TaskSet,
    placing: &Placing,
) -> Result<String, AllocError>
    requires { IsPlacingOf set.now placing.now }
    ensures { IfOk result (λ text. string_bytes text ≡ placing_said part set.now placing.now) }
{
    let places = match placing {
        Placing::Best(places) => places,
        Placing::Stuck(members) => return infeasible_text(alloc, set, *members),
    };
    let count = places.len();
    match part {
        OrderPart::Count => format!(in alloc; "admitted {count}\n"),
        OrderPart::Settings { base, room } => set_text(alloc, set, base, room, places),
    }
}

/// A text, and then another one.
pub fn joined(alloc: Global, first: &[u8], second: &[u8]) -> Result<Vec<u8>, AllocError>
    ensures { IfOk result (λ both. both.items ≡ first.now ++ second.now) }
{
    let mut both = Vec::new(alloc);
    both.extend_from_slice(first)?;
    both.extend_from_slice(second)?;
    Ok(both)
}
