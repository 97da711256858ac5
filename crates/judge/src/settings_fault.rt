//! The first reason why threads and mutexes are no settings of a set.
ghost use Rattle.std.specs.Prelude.{◌≡◌, ℕ, Bool, not, nat_lt, ◌==◌, List, [], find};
ghost use Rattle.std.specs.List.{list_any};
ghost use Rattle.ceilings.specs.IsTableOf.{locks_of};
ghost use Rattle.judge.specs.SettingFaults.{ceiling_fault, is_no_lock, is_no_task, is_set, line_again, line_where, low_lock, fault_with, given_fault, mutexless, setting_number, setting_fault, share, threadless, top_number, wrong_lock};

use crate::fault::SettingsFault;
use crate::rows::{NodeSettings, Setting, as_written};
use ceilings::Tabled;
use task_sheet::{Name, TaskSet};

// Some setting is of this name.
pub(crate) fn is_set(settings: &[Setting], name: Name) -> bool
    ensures { result ≡ is_set settings.now name }
{
    settings.iter().any(|setting| setting.name == name)
}

// The number of the first setting of this name, and 0 of none.
pub(crate) fn number_of(settings: &[Setting], name: Name) -> u64
    ensures { result ≡ setting_number settings.now name }
{
    for setting in settings {
        if setting.name == name {
            return setting.number;
        }
    }
    0
}

// The number of the highest user of a lock.
pub(crate) fn top_of(set: &Tabled<'_>, threads: &[Setting], lock: Name) -> u64
    ensures { result ≡ top_number set.now threads.now lock }
{
    let users = set.users(lock);
    let mut top = 0;
    for (task, sheet) in set.sheets().iter().enumerate() {
        if users.has(task) {
            top = top.max(number_of(threads, sheet.name()));
        }
    }
    top
}

// No task has the name of the thread.
fn is_no_task(set: &TaskSet, thread: &Setting) -> bool
    ensures { result ≡ is_no_task set.now thread.now }
{
    set.find(thread.name).is_none()
}

// No lock has the name of the mutex.
fn is_no_lock(set: &Tabled<'_>, mutex: &Setting) -> bool
    ensures { result ≡ is_no_lock set.now mutex.now }
{
    set.lock_index(mutex.name).is_none()
}

// The line of the first thread that has the name of no task.
fn unknown_task(set: &TaskSet, threads: &[Setting]) -> Option<u64>
    ensures { result ≡ line_where (is_no_task set.now) threads.now }
{
    let thread = threads.iter().find(|thread| is_no_task(set, thread))?;
    Some(thread.line)
}

// The line of the first mutex that has the name of no lock.
fn unknown_lock(set: &Tabled<'_>, mutexes: &[Setting]) -> Option<u64>
    ensures { result ≡ line_where (is_no_lock set.now) mutexes.now }
{
    let mutex = mutexes.iter().find(|mutex| is_no_lock(set, mutex))?;
    Some(mutex.line)
}

// What no two settings may share.
#[derive(Clone, Copy)]
pub(crate) enum SettingField {
    Name,
    Number,
}

// Two settings share this.
fn share(field: SettingField, r: &Setting, s: &Setting) -> bool
    ensures { result ≡ share field r.now s.now }
{
    match field {
        SettingField::Name => r.name == s.name,
        SettingField::Number => r.number == s.number,
    }
}

// Some of the settings shares this with another one.
fn some_shares(settings: &[Setting], field: SettingField, other: &Setting) -> bool
    ensures { result ≡ list_any (λ before. share field before other.now) settings.now }
{
    settings.iter().any(|before| share(field, before, other))
}

// The line of the first setting that shares this with one before it.
pub(crate) fn first_again(settings: &[Setting], field: SettingField) -> Option<u64>
    ensures { result ≡ line_again (share field) [] settings.now }
{
    for (place, setting) in settings.iter().enumerate() {
        if some_shares(&settings[..place], field, setting) {
            return Some(setting.line);
        }
    }
    None
}

// The first task by rank that has no thread.
fn threadless(set: &TaskSet, threads: &[Setting]) -> Option<Name>
    ensures { result ≡ threadless set.now threads.now }
{
    let sheet = set
        .sheets()
        .iter()
        .find(|sheet| !is_set(threads, sheet.name()))?;
    Some(sheet.name())
}

// The first lock, in the order of first sight, that passes a test.
fn first_lock<F: Fn(Name) -> bool>(set: &Tabled<'_>, test: F) -> Option<Name>
    requires test { F.IsAlwaysCallable test }
    ensures { (passes : List ℕ → Bool)
        → ((lock : List ℕ) (answer : Bool) → F.post test lock answer → answer ≡ passes lock)
        → result ≡ find passes (locks_of set.now) }
{
    for place in 0..set.lock_count() {
        let lock = set.lock_at(place)?;
        if test(lock) {
            return Some(lock);
        }
    }
    None
}

// Where there are mutexes, the first lock, in the order of first sight, that has none.
fn mutexless(set: &Tabled<'_>, mutexes: &[Setting]) -> Option<Name>
    ensures { result ≡ mutexless (locks_of set.now) mutexes.now }
{
    if mutexes.is_empty() {
        return None;
    }
    first_lock(set, |lock| !is_set(mutexes, lock))
}

// The mutex of a lock isn't at the number of the lock's highest user.
fn is_wrong(set: &Tabled<'_>, settings: &NodeSettings, lock: Name) -> bool
    ensures { result ≡ not (setting_number settings.now.mutexes.items lock
        == top_number set.now settings.now.threads.items lock) }
{
    number_of(&settings.mutexes, lock) != top_of(set, &settings.threads, lock)
}

// Where there are mutexes, the first lock, in the order of first sight, whose mutex isn't at the number of its highest
// user.
fn wrong_lock(set: &Tabled<'_>, settings: &NodeSettings) -> Option<Name>
    ensures { result ≡ wrong_lock set.now (locks_of set.now)
        settings.now.threads.items settings.now.mutexes.items }
{
    if settings.mutexes.is_empty() {
        return None;
    }
    first_lock(set, |lock| is_wrong(set, settings, lock))
}

// The mutex of a lock is below the number of the lock's highest user.
fn is_low(set: &Tabled<'_>, settings: &NodeSettings, lock: Name) -> bool
    ensures { result ≡ nat_lt (setting_number settings.now.mutexes.items lock)
        (top_number set.now settings.now.threads.items lock) }
{
    number_of(&settings.mutexes, lock) < top_of(set, &settings.threads, lock)
}

// Where there are mutexes, the first lock, in the order of first sight, whose mutex is below the number of its highest user.
fn low_lock(set: &Tabled<'_>, settings: &NodeSettings) -> Option<Name>
    ensures { result ≡ low_lock set.now (locks_of set.now)
        settings.now.threads.items settings.now.mutexes.items }
{
    if settings.mutexes.is_empty() {
        return None;
    }
    first_lock(set, |lock| is_low(set, settings, lock))
}

// That a lock's ceiling is wrong, and the number of its highest user.
fn ceiling_fault(
    set: &Tabled<'_>,
    lower_is_higher: bool,
    threads: &[Setting],
    name: Name,
) -> SettingsFault
    ensures { result ≡ ceiling_fault lower_is_higher set.now threads.now name }
{
    let number = as_written(lower_is_higher, top_of(set, threads, name));
    SettingsFault::WrongCeiling { name, number }
}

// The first reason why threads and mutexes are no settings of a set, where this lock's ceiling is wrong.
fn fault_with(
    set: &Tabled<'_>,
    lower_is_higher: bool,
    settings: &NodeSettings,
    wrong: Option<Name>,
) -> Option<SettingsFault>
    ensures { result ≡ fault_with wrong lower_is_higher set.now
        settings.now.threads.items settings.now.mutexes.items }
{
    if let Some(line) = unknown_task(set.tasks(), &settings.threads) {
        return Some(SettingsFault::UnknownTask { line });
    }
    if let Some(line) = unknown_lock(set, &settings.mutexes) {
        return Some(SettingsFault::UnknownLock { line });
    }
    if let Some(line) = first_again(&settings.threads, SettingField::Name) {
        return Some(SettingsFault::SameTask { line });
    }
    if let Some(line) = first_again(&settings.mutexes, SettingField::Name) {
        return Some(SettingsFault::SameLock { line });
    }
    if let Some(line) = first_again(&settings.threads, SettingField::Number) {
        return Some(SettingsFault::SameNumber { line });
    }
    if let Some(name) = threadless(set.tasks(), &settings.threads) {
        return Some(SettingsFault::MissingTask { name });
    }
    if let Some(name) = mutexless(set, &settings.mutexes) {
        return Some(SettingsFault::MissingLock { name });
    }
    match wrong {
        Some(name) => Some(ceiling_fault(set, lower_is_higher, &settings.threads, name)),
        None => None,
    }
}

/// The first reason why threads and mutexes are no settings of a set, whose text's numbers count so: each ceiling has to be
/// the least.
pub(crate) fn setting_fault(
    set: &Tabled<'_>,
    lower_is_higher: bool,
    settings: &NodeSettings,
) -> Option<SettingsFault>
    ensures { result ≡ setting_fault lower_is_higher set.now
        settings.now.threads.items settings.now.mutexes.items }
{
    fault_with(set, lower_is_higher, settings, wrong_lock(set, settings))
}

/// The same where ceilings may be higher than the least.
pub(crate) fn given_fault(
    set: &Tabled<'_>,
    lower_is_higher: bool,
    settings: &NodeSettings,
) -> Option<SettingsFault>
    ensures { result ≡ given_fault lower_is_higher set.now
        settings.now.threads.items settings.now.mutexes.items }
{
    fault_with(set, lower_is_higher, settings, low_lock(set, settings))
}
