//! What a task's values break. The limits stand in the texts of the causes.

use crate::told::Told;
use crate::values::{Numbers, Span};
use task_sheet::{Node, SheetCause};

/// A fault of the numbers or of a section, with the values at hand.
pub(crate) fn tell_cause(told: &mut Told, cause: SheetCause, numbers: Numbers, span: Span) {
    told.show(cause);
    let Numbers {
        weight,
        period,
        deadline,
        cost,
        sections,
        ..
    } = numbers;
    let Span {
        at,
        len,
        locks,
        from,
    } = span;
    match cause {
        SheetCause::BadWeight => told.number(": weight ", weight),
        SheetCause::BadPeriod => told.number(" microseconds: period ", period),
        SheetCause::DeadlinePastPeriod => {
            told.numbers(": deadline {}, period {}", &[deadline, period]);
        }
        SheetCause::CostPastPeriod => told.numbers(": cost {}, period {}", &[cost, period]),
        SheetCause::TooManySections => told.number(": there are ", sections),
        SheetCause::TooManyLocks { .. } => told.number(": there are ", locks),
        SheetCause::Overlap { .. } => told.numbers(": at {}, that one ends at {}", &[at, from]),
        SheetCause::SectionPastCost { .. } => {
            let end = at.saturating_add(len);
            told.numbers(": at {} and len {} make {}, cost {}", &[at, len, end, cost]);
        }
        _ => {}
    }
}

/// A jitter that isn't below the deadline.
pub(crate) fn tell_jitter(told: &mut Told, numbers: Numbers) {
    told.numbers(
        "the jitter is not below the deadline: jitter {}, deadline {}",
        &[numbers.jitter, numbers.deadline],
    );
}

/// A cost that is past the period with what the node takes of a job and of so many locks.
pub(crate) fn tell_padded_cost(told: &mut Told, numbers: Numbers, node: &Node, locks: u64) {
    let Numbers { cost, period, .. } = numbers;
    let (job, lock) = (node.job, node.lock);
    let padded = cost.saturating_add(job);
    let sum = padded.saturating_add(lock.saturating_mul(locks));
    told.numbers(
        "with job and lock of [node] the cost is past the period: cost {}, job {} and {} times lock {} make {}, period {}",
        &[cost, job, locks, lock, sum, period],
    );
}

/// A jitter that isn't below the deadline with how late the node may be.
pub(crate) fn tell_padded_jitter(told: &mut Told, numbers: Numbers, late: u64) {
    let Numbers {
        jitter,
        deadline,
        ..
    } = numbers;
    told.numbers(
        "with late of [node] the jitter isn't below the deadline: jitter {} and late {} make {}, deadline {}",
        &[jitter, late, jitter.saturating_add(late), deadline],
    );
}
