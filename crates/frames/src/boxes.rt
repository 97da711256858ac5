//! Boxes.
ghost use Rattle.std.specs.Prelude.{◌*◌, ◌+◌, ◌≡◌, ◌≤◌, Some, length, max, nat_le};
ghost use Rattle.frames.specs.declared.places.TheConstants.{PLACES_LIMIT};
ghost use Rattle.frames.specs.Boxes.{box_path};
ghost use Rattle.frames.specs.Frame.{top_of};
ghost use Rattle.frames.specs.declared.frame.TheConstants.{RIGHTMOST};

use crate::frame::top_of;
use std::fmt;
use task_sheet::Name;

/// From where to where a box goes, its upper edge, and how high it is. It is shown as its path.
#[derive(Clone, Copy)]
pub struct Bar {
    pub x: u64,
    pub right: u64,
    pub y: u64,
    pub high: u64,
}

impl fmt::Display for Bar {
    ghost output = { λ bar. Some (box_path bar.x bar.right bar.y bar.high) };

    fn fmt<W: fmt::Write>(&self, f: &mut fmt::Formatter<W>) -> fmt::Result {
        let Bar { x, right, y, high } = *self;
        write!(f, "M{x} {y}H{right}v{high}H{x}z")
    }
}

/// The bar from a place up to another, in row k; at least half a pixel wide.
pub fn bar_of(x: u64, end: u64, k: usize) -> Bar
    requires place { x ≤ RIGHTMOST }
    requires row { k ≤ PLACES_LIMIT }
    ensures x { result.x ≡ x }
    ensures right { result.right ≡ max end (x + 5) }
    ensures y { result.y ≡ top_of k + 165 }
    ensures high { result.high ≡ 180 }
{
    Bar {
        x,
        right: end.max(x + 5),
        y: top_of(k) + 165,
        high: 180,
    }
}

/// Whether a name has room where it is so wide.
pub fn has_room(name: Name, wide: u64) -> bool
    ensures { result ≡ nat_le (66 * length name + 60) wide }
{
    let letters = name.bytes().len() as u64;
    wide >= 60 && letters <= (wide - 60) / 66
}
