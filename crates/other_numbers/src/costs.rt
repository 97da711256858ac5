//! Where the sections of a sheet end.
ghost use Rattle.std.specs.Prelude.{◌≡◌, ◌≤◌};
ghost use Rattle.task_sheet.specs.Sheet.{IsValidSheet};
ghost use Rattle.other_numbers.specs.Costs.{last_end};

use task_sheet::Sheet;

/// The end of the task's last section, in microseconds; 0 where it has none.
pub fn last_end(sheet: &Sheet) -> u64
    requires { IsValidSheet sheet.now }
    ensures is { result ≡ last_end sheet.now }
    ensures within { result ≤ sheet.now.cost }
{
    let mut end = 0;
    for section in sheet.sections() {
        end = end.max(section.at + section.len);
    }
    end
}
