//! The lines of settings: `thread NAME NUMBER` and `mutex NAME NUMBER`.
ghost use Rattle.std.specs.Prelude.{◌≡◌, Ok, MatchResult, IfOk, map};
ghost use Rattle.judge.specs.SettingFaults.{IsRowsFault};
ghost use Rattle.judge.specs.SettingLines.{as_written, heights, mutexes_of, number_in_range, setting_row, rows_in, threads_of, turned};

use crate::fault::SettingsFault;
use lines::{LineRow, TextPlace, Words, name_of, number_of, read_lines};
use std::alloc::{AllocError, Global};
use task_sheet::Name;

/// The greatest number of a thread or a mutex.
pub const NUMBER_LIMIT: u64 = 1_000_000;

/// What a line sets: a thread's priority or a mutex's priority ceiling.
#[derive(Clone, Copy)]
pub struct Setting {
    /// Counted from 1, with the lines that say nothing.
    pub line: u64,
    /// That of the thread's task, or of the mutex's lock.
    pub name: Name,
    /// From 1 to `NUMBER_LIMIT`, as the line has it; which way it counts the reader says.
    pub number: u64,
}

/// A line of settings.
#[derive(Clone, Copy)]
pub enum SettingRow {
    Thread(Setting),
    Mutex(Setting),
}

/// What a node is set to: its threads and its mutexes, each in the order of the lines.
#[derive(Drop)]
pub(crate) struct NodeSettings {
    pub threads: Vec<Setting>,
    pub mutexes: Vec<Setting>,
}

// The number from 1 to the limit that a word is.
fn number_in_range(word: &[u8]) -> Option<u64>
    ensures { result ≡ number_in_range word.now }
{
    let number = number_of(word)?;
    if 1 <= number && number <= NUMBER_LIMIT {
        Some(number)
    } else {
        None
    }
}

// The row of a first word.
fn row_of(word: &[u8], setting: Setting) -> Option<SettingRow>
    ensures { result ≡ setting_row word.now setting }
{
    if word == b"thread".as_slice() {
        Some(SettingRow::Thread(setting))
    } else if word == b"mutex".as_slice() {
        Some(SettingRow::Mutex(setting))
    } else {
        None
    }
}

impl LineRow for SettingRow {
    type Row = SettingRow;

    ghost use Rattle.judge.specs.SettingLines.{setting_row_in};

    ghost row_in = { setting_row_in };

    fn read(line: u64, text: &[u8]) -> Option<SettingRow> {
        let mut words = Words::of(text);
        let word = words.next()?;
        let name = words.next()?;
        let number = words.next()?;
        match words.next() {
            Some(_more) => None,
            None => {
                let name = name_of(name)?;
                let number = number_in_range(number)?;
                row_of(word, Setting { line, name, number })
            }
        }
    }
}

// The rows of a text. Empty lines and lines that begin with `#` are skipped and counted; the last line may lack its LF.
pub(crate) fn read_rows(alloc: Global, text: &[u8]) -> Result<Vec<SettingRow>, SettingsFault>
    ensures { MatchResult result
        (λ rows. rows_in text.now ≡ Ok rows.items) (λ fault. IsRowsFault fault (rows_in text.now)) }
{
    read_lines::<SettingRow>(alloc, TextPlace::start(text))?.map_err(|line| SettingsFault::BadLine {
        line,
    })
}

// What rows set of threads and of mutexes.
pub(crate) fn sort_rows(alloc: Global, rows: &[SettingRow]) -> Result<NodeSettings, AllocError>
    ensures threads { IfOk result (λ settings. settings.threads.items ≡ threads_of rows.now) }
    ensures mutexes { IfOk result (λ settings. settings.mutexes.items ≡ mutexes_of rows.now) }
{
    let mut threads = Vec::new(alloc);
    let mut mutexes = Vec::new(alloc);
    for row in rows {
        match row {
            SettingRow::Thread(setting) => threads.push(*setting)?,
            SettingRow::Mutex(setting) => mutexes.push(*setting)?,
        }
    }
    Ok(NodeSettings { threads, mutexes })
}

// A setting with its number turned around.
fn turned(setting: Setting) -> Setting
    ensures { result ≡ turned setting }
{
    Setting {
        line: setting.line,
        name: setting.name,
        number: (NUMBER_LIMIT + 1).saturating_sub(setting.number),
    }
}

// Settings with their numbers turned around.
fn all_turned(alloc: Global, settings: &[Setting]) -> Result<Vec<Setting>, AllocError>
    ensures { IfOk result (λ all. all.items ≡ map turned settings.now) }
{
    let mut all = Vec::with_capacity(alloc, settings.len())?;
    for setting in settings {
        all.push(turned(*setting))?;
    }
    Ok(all)
}

// What a node is set to, with numbers of which a greater one is higher, also where its own count the other way round.
pub(crate) fn by_height(
    alloc: Global,
    lower_is_higher: bool,
    settings: NodeSettings,
) -> Result<NodeSettings, AllocError>
    ensures threads { IfOk result (λ high. high.threads.items
        ≡ heights lower_is_higher settings.threads.items) }
    ensures mutexes { IfOk result (λ high. high.mutexes.items
        ≡ heights lower_is_higher settings.mutexes.items) }
{
    if !lower_is_higher {
        return Ok(settings);
    }
    let threads = all_turned(alloc, &settings.threads)?;
    let mutexes = all_turned(alloc, &settings.mutexes)?;
    Ok(NodeSettings { threads, mutexes })
}

/// The number by which a text says a height.
pub(crate) fn as_written(lower_is_higher: bool, height: u64) -> u64
    ensures { result ≡ as_written lower_is_higher height }
{
    if lower_is_higher {
        (NUMBER_LIMIT + 1).saturating_sub(height)
    } else {
        height
    }
}
