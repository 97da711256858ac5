//! What of a placing the lines ask for.
ghost use Rattle.std.specs.Prelude.{◌≡◌, option_map};
ghost use Rattle.limit_lines.specs.LimitLines.{order_given, order_in, places_in};

use assignment::{Place, Placing};

/// The order of a placing, the lowest first, where it has one; `order` is the same, or anything after a no.
pub fn order_given<'a>(placing: &Placing, order: &'a [usize]) -> Option<&'a [usize]>
    requires { order.now ≡ order_in placing.now }
    ensures { option_map (λ o. o.now) result ≡ order_given placing.now }
{
    match placing {
        Placing::Best(_) => Some(order),
        Placing::Stuck(_) => None,
    }
}

/// Its places.
pub fn places_given<'a>(placing: &'a Placing) -> Option<&'a [Place]>
    ensures { option_map (λ p. p.now) result ≡ places_in placing.entry.now }
{
    match placing {
        Placing::Best(places) => Some(places),
        Placing::Stuck(_) => None,
    }
}
