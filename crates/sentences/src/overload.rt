//! Whether a set asks for more than all of the processor's time.

use std::io::Write;
use streams::{Watched, WriteFailed};
use task_sheet::{Sheet, TaskSet};

// How many limbs a number has. The product of 40 periods, of 32 tasks and 8 interrupts, is below 2^931, and so many costs
// over them below 2^937.
const LIMBS: usize = 30;

// The numbers below which a limb is.
const BASE: u64 = 0x1_0000_0000;

// A number below 2^960: its limbs, the least first.
#[derive(Clone, Copy)]
struct Wide {
    limbs: [u64; LIMBS],
}

impl Wide {
    // A number that has one limb.
    fn small(number: u64) -> Wide {
        let mut limbs = [0; LIMBS];
        limbs[0] = number;
        Wide { limbs }
    }

    // So many times the number, and so many times another one, for factors below 2^31.
    fn times(mut self, factor: u64, other: Wide, others: u64) -> Wide {
        let mut sum = 0u64;
        for i in 0..LIMBS {
            sum = sum
                .wrapping_add(self.limbs[i].wrapping_mul(factor))
                .wrapping_add(other.limbs[i].wrapping_mul(others));
            self.limbs[i] = sum % BASE;
            sum /= BASE;
        }
        self
    }

    // Whether it is greater than the other.
    fn is_above(self, other: Wide) -> bool {
        for i in (0..LIMBS).rev() {
            if self.limbs[i] != other.limbs[i] {
                return self.limbs[i] > other.limbs[i];
            }
        }
        false
    }
}

// What is asked of the processor: a fraction, whose denominator is the product of periods.
#[derive(Clone, Copy)]
struct Asked {
    costs: Wide,
    periods: Wide,
}

impl Asked {
    // The same and a cost, once in a period, beside it.
    fn and(self, cost: u64, period: u64) -> Asked {
        Asked {
            costs: self.costs.times(period, self.periods, cost),
            periods: self.periods.times(period, self.costs, 0),
        }
    }
}

// Whether the costs of tasks, their timers and interrupts, each over its period, come to more than 1.
fn is_overloaded(sheets: &[Sheet]) -> bool {
    let mut asked = Asked {
        costs: Wide::small(0),
        periods: Wide::small(1),
    };
    for sheet in sheets {
        asked = asked.and(
            sheet.cost().wrapping_add(sheet.node().release),
            sheet.period(),
        );
        for interrupt in sheet.interrupts() {
            asked = asked.and(interrupt.cost, interrupt.period);
        }
    }
    asked.costs.is_above(asked.periods)
}

/// Writes a note where the costs of a set, with what timers and interrupts take, over the periods come to more than 1. It
/// takes no memory.
pub fn put_overload<W: Write + Drop>(
    set: &TaskSet,
    out: &mut Watched<W>,
) -> Result<(), WriteFailed> {
    let note: &[u8] = if !is_overloaded(set.sheets()) {
        b""
    } else if set.sheets().iter().any(|sheet| sheet.interrupts_some()) {
        b"note: costs, timers and interrupts over the periods come to more than 1: no order can pass\n"
    } else {
        b"note: the costs over the periods come to more than 1: no order can pass\n"
    };
    out.write(note)
}
