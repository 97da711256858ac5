//! Laws of interrupts' names and of the parts of a set: the contracts of functions that do nothing.
ghost use Rattle.std.specs.Prelude.{◌≡◌, ℕ, List, Some};
ghost use Rattle.std.specs.List.Sorted.{IsPermutation};
ghost use Rattle.task_sheet.specs.Sheet.{Task};
ghost use Rattle.owners.specs.Owners.{interrupt_of};
ghost use Rattle.owners.specs.Accounts.{AccountsKeepTime, accounted};
ghost use Rattle.owners.specs.Parts.{all_of, parts_of};
ghost use Rattle.task_lines.specs.declared.owner.Owner.{Owner};

/// No two interrupts are the same team's at the same place among that team's.
pub fn interrupts_are_told_apart()
    ensures { (owners : List Owner) (a b : ℕ) (own : List ℕ × ℕ) → interrupt_of owners a ≡ Some own
        → interrupt_of owners b ≡ Some own → a ≡ b }
{}

/// Whoever has them, the parts of a set together are the set, each task once, but for whose account interrupts are on.
pub fn parts_are_the_set()
    ensures { (owners : List Owner) (U : List Task)
        → IsPermutation (accounted owners U) (all_of (parts_of owners U)) }
{}

/// Whose account interrupts are on changes nothing of what they take in any window.
pub fn accounts_keep_time()
    ensures { AccountsKeepTime }
{}
