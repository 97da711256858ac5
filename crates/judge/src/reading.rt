//! The order that settings give.
ghost use Rattle.std.specs.Prelude.{Ok, MatchResult};
ghost use Rattle.judge.specs.SettingFaults.{IsSettingsFault, rows_fault};
ghost use Rattle.judge.specs.Node.{IsOrderOfRows};

use crate::fault::SettingsFault;
use crate::order::order_by;
use crate::rows::{SettingRow, by_height, sort_rows};
use crate::settings_fault::setting_fault;
use ceilings::Tabled;
use std::alloc::Global;

/// The order that rows of settings give, as indexes, the lowest first; a smaller number may be the higher one. Refused in
/// the order of `SettingsFault`, but for `BadLine`.
pub fn order_of_rows(
    alloc: Global,
    set: &Tabled<'_>,
    lower_is_higher: bool,
    rows: &[SettingRow],
) -> Result<Vec<usize>, SettingsFault>
    ensures { MatchResult result
        (λ order. IsOrderOfRows lower_is_higher set.now rows.now order.items)
        (λ fault. IsSettingsFault fault (rows_fault lower_is_higher set.now (Ok rows.now))) }
{
    let sorted = sort_rows(alloc, rows)?;
    let settings = by_height(alloc, lower_is_higher, sorted)?;
    if let Some(fault) = setting_fault(set, lower_is_higher, &settings) {
        return Err(fault);
    }
    let order = order_by(alloc, set.tasks(), &settings.threads)?;
    Ok(order)
}
