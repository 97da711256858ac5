//! Numbers as text.
ghost use Rattle.std.specs.Prelude.{◌≡◌, Some};
ghost use Rattle.frames.specs.Numbers.{known_text, time_text, unit_text};

use std::fmt;

/// So many microseconds, shown in milliseconds or as they are.
#[derive(Clone, Copy)]
pub struct ShownTime {
    pub millis: bool,
    pub micros: u64,
}

impl fmt::Display for ShownTime {
    ghost output = { λ time. Some (time_text time.millis time.micros) };

    fn fmt<W: fmt::Write>(&self, f: &mut fmt::Formatter<W>) -> fmt::Result {
        let time = self.micros;
        let (whole, micros) = (time / 1_000, time % 1_000);
        let (first, second, third) = (micros / 100, micros / 10 % 10, micros % 10);
        if !self.millis {
            write!(f, "{time}")
        } else if micros == 0 {
            write!(f, "{whole}")
        } else if micros % 100 == 0 {
            write!(f, "{whole}.{first}")
        } else if third == 0 {
            write!(f, "{whole}.{first}{second}")
        } else {
            write!(f, "{whole}.{first}{second}{third}")
        }
    }
}

/// The unit, behind a number.
pub fn unit_of(millis: bool) -> &'static str
    ensures { result.now ≡ unit_text millis }
{
    if millis { " ms" } else { " us" }
}

/// A bound, shown as `-` where none is known.
#[derive(Clone, Copy)]
pub struct Known(pub Option<u64>);

impl fmt::Display for Known {
    ghost output = { λ bound. Some (known_text bound.0) };

    fn fmt<W: fmt::Write>(&self, f: &mut fmt::Formatter<W>) -> fmt::Result {
        match self.0 {
            Some(bound) => write!(f, "{bound}"),
            None => f.write_str("-"),
        }
    }
}
