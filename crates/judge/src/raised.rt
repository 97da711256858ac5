//! How long sections of lower tasks can hold a task up by the ceilings that mutexes are given, the least or higher ones.
ghost use Rattle.std.specs.Prelude.{◌≡◌, ◌<◌, length, if◌then◌else◌};
ghost use Rattle.task_sheet.specs.Sheet.{IsValidSheet, task_at};
ghost use Rattle.task_sheet.specs.Indexes.{indexes_of};
ghost use Rattle.judge.specs.Ceilings.{blocking_at, ceiling_in, longest_raised, raises_to};
ghost use Rattle.judge.specs.SettingFaults.{thread_number};

use crate::rows::NodeSettings;
use crate::settings_fault::{number_of, top_of};
use ceilings::Tabled;
use task_sheet::{Members, Name, Section, Sheet};

// The ceiling of a lock: the number of its mutex, where that is no lower than that of the lock's highest user.
fn ceiling_in(set: &Tabled<'_>, settings: &NodeSettings, lock: Name) -> u64
    ensures { result ≡ ceiling_in set.now settings.now.threads.items settings.now.mutexes.items lock }
{
    number_of(&settings.mutexes, lock).max(top_of(set, &settings.threads, lock))
}

// Whether whoever executes a section does so at this number or above.
fn raises_to(set: &Tabled<'_>, settings: &NodeSettings, number: u64, section: &Section) -> bool
    ensures { result ≡ raises_to
        (ceiling_in set.now settings.now.threads.items settings.now.mutexes.items)
        number section.now }
{
    section
        .locks
        .iter()
        .any(|lock| number <= ceiling_in(set, settings, *lock))
}

// The length of such a section; 0 of another.
fn length_at(set: &Tabled<'_>, settings: &NodeSettings, number: u64, section: &Section) -> u64
    ensures { result ≡ (if raises_to
        (ceiling_in set.now settings.now.threads.items settings.now.mutexes.items)
        number section.now then section.now.len else 0) }
{
    if raises_to(set, settings, number, section) {
        section.len
    } else {
        0
    }
}

// The longest such section of a task.
fn longest_raised(set: &Tabled<'_>, settings: &NodeSettings, number: u64, sheet: &Sheet) -> u64
    requires { IsValidSheet sheet.now }
    ensures { result ≡ longest_raised
        (ceiling_in set.now settings.now.threads.items settings.now.mutexes.items)
        number sheet.now }
{
    let mut longest = 0;
    for section in sheet.sections() {
        longest = longest.max(length_at(set, settings, number, section));
    }
    longest
}

// That of the task at an index, unless it is one of these.
fn longest_below(
    set: &Tabled<'_>,
    settings: &NodeSettings,
    number: u64,
    others: Members,
    index: usize,
) -> u64
    requires { index < length set.now }
    ensures { result ≡ (if indexes_of others index then 0 else longest_raised
        (ceiling_in set.now settings.now.threads.items settings.now.mutexes.items)
        number (task_at set.now index)) }
{
    let sheet = &set.sheets()[index];
    if others.has(index) {
        return 0;
    }
    longest_raised(set, settings, number, sheet)
}

/// The blocking of a task with these above it, in microseconds: the longest section of a task below at the number of the
/// task's thread or above; 0 if there is none.
pub(crate) fn blocking_at(
    set: &Tabled<'_>,
    settings: &NodeSettings,
    task: usize,
    above: Members,
) -> u64
    requires { task < length set.now }
    ensures { result ≡ blocking_at
        (ceiling_in set.now settings.now.threads.items settings.now.mutexes.items)
        (thread_number set.now settings.now.threads.items task) set.now task (indexes_of above) }
{
    let number = number_of(&settings.threads, set.sheets()[task].name());
    let others = above.with(task);
    let mut longest = 0;
    for index in 0..set.len() {
        longest = longest.max(longest_below(set, settings, number, others, index));
    }
    longest
}
