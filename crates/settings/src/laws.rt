//! Laws of settings: each is the clause of a function that does nothing.

ghost use Rattle.std.specs.Prelude.{◌≡◌, ◌+◌, ◌≤◌, ℕ, List, Some, IsTrue, length};
ghost use Rattle.std.specs.List.{list_any};
ghost use Rattle.task_sheet.specs.Sheet.{Task, same_bytes};
ghost use Rattle.task_sheet.specs.Locks.{ceiling_of};
ghost use Rattle.task_sheet.specs.Orders.{IsOrder};
ghost use Rattle.ceilings.specs.IsTableOf.{locks_of};
ghost use Rattle.settings.specs.Numbering.{KeepsMost, numbers_of};
ghost use Rattle.settings.specs.Settings.{settings_from, settings_lines};

/// Each lock of a set has a ceiling in each order of it, so that each mutex has a line.
pub fn each_lock_has_a_ceiling()
    ensures { (U : List Task) (order lock : List ℕ) → IsOrder U order
        → IsTrue (list_any (same_bytes lock) (locks_of U))
        → (level : ℕ) × (ceiling_of U order lock ≡ Some level) }
{}

/// Where level 1 has the priority 1, the priorities are the levels.
pub fn levels_are_priorities_from_1()
    ensures { (U : List Task) (order : List ℕ) → settings_from U 1 order ≡ settings_lines U order }
{}

/// The numbers that are given to an order rise, and no others leave more threads at theirs.
pub fn numbers_keep_most()
    ensures { (room least most : ℕ) (old : List ℕ) → 1 ≤ least → least + length old ≤ most + 1
        → KeepsMost least most old (numbers_of room least most old) }
{}
