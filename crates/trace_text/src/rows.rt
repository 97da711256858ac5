//! The lines of a trace: `START STOP NAME`, perhaps with `@P`, and `job NAME ARRIVAL FINISH`, perhaps with READY.
ghost use Rattle.std.specs.Prelude.{◌≡◌, Some};
ghost use Rattle.lines.specs.Words.{number_in, words};
ghost use Rattle.trace_text.specs.TraceLines.{finish_in, five_words, four_words, job_at, priority_in, ranked, readied, slice_at, three_words, trace_row_in};

use lines::{Words, name_of, number_of};
use task_sheet::Name;

/// A thread executed from one time up to another, in microseconds.
#[derive(Clone, Copy)]
pub struct TraceSlice {
    /// Counted from 1, with the lines that say nothing.
    pub line: u64,
    pub start: u64,
    /// After the start.
    pub stop: u64,
    /// That of a task, or of a thread of the node's own.
    pub name: Name,
    /// At which the thread ran, where it is said.
    pub priority: Option<u64>,
}

/// A job of the task with a name: when it arrived, and when it finished, if it did; in microseconds.
#[derive(Clone, Copy)]
pub struct TraceJob {
    /// Counted from 1, with the lines that say nothing.
    pub line: u64,
    pub name: Name,
    pub arrival: u64,
    /// Not before the arrival.
    pub finish: Option<u64>,
    /// When it was ready, where it is said: not before its arrival, nor behind its finish.
    pub ready: Option<u64>,
}

/// A line of a trace.
#[derive(Clone, Copy)]
pub enum TraceRow {
    Slice(TraceSlice),
    Job(TraceJob),
}

// The slice that the words of a line are.
fn slice_at(line: u64, start: &[u8], stop: &[u8], name: &[u8]) -> Option<TraceSlice>
    ensures { result ≡ slice_at line start.now stop.now name.now }
{
    let start = number_of(start)?;
    let stop = number_of(stop)?;
    let name = name_of(name)?;
    if start < stop {
        Some(TraceSlice {
            line,
            start,
            stop,
            name,
            priority: None,
        })
    } else {
        None
    }
}

// The number behind the `@` that a word begins with.
fn priority_in(word: &[u8]) -> Option<u64>
    ensures { result ≡ priority_in word.now }
{
    let (first, digits) = word.split_first()?;
    if *first == b'@' {
        number_of(digits)
    } else {
        None
    }
}

// The slice at the priority that a word says.
fn ranked(slice: TraceSlice, word: &[u8]) -> Option<TraceSlice>
    ensures { result ≡ ranked (Some slice) (priority_in word.now) }
{
    let priority = priority_in(word)?;
    let mut slice = slice;
    slice.priority = Some(priority);
    Some(slice)
}

// The finish that a word says: `-`, or a number that isn't before the arrival.
fn finish_in(arrival: u64, word: &[u8]) -> Option<Option<u64>>
    ensures { result ≡ finish_in arrival word.now }
{
    if word == b"-".as_slice() {
        return Some(None);
    }
    let finish = number_of(word)?;
    if arrival <= finish {
        Some(Some(finish))
    } else {
        None
    }
}

// The job that the words of a line behind its first are.
fn job_at(line: u64, name: &[u8], arrival: &[u8], finish: &[u8]) -> Option<TraceJob>
    ensures { result ≡ job_at line name.now arrival.now finish.now }
{
    let name = name_of(name)?;
    let arrival = number_of(arrival)?;
    let finish = finish_in(arrival, finish)?;
    Some(TraceJob {
        line,
        name,
        arrival,
        finish,
        ready: None,
    })
}

// The job that was ready at the time that a word says.
fn readied(job: TraceJob, word: &[u8]) -> Option<TraceJob>
    ensures { result ≡ readied (Some job) (number_in word.now) }
{
    let ready = number_of(word)?;
    if job.arrival <= ready && ready <= job.finish.unwrap_or(ready) {
        let mut job = job;
        job.ready = Some(ready);
        Some(job)
    } else {
        None
    }
}

// What a line of three words says.
fn three_words(line: u64, start: &[u8], stop: &[u8], name: &[u8]) -> Option<TraceRow>
    ensures { result ≡ three_words line start.now stop.now name.now }
{
    let slice = slice_at(line, start, stop, name)?;
    Some(TraceRow::Slice(slice))
}

// What a line of four words says.
fn four_words(
    line: u64,
    first: &[u8],
    second: &[u8],
    third: &[u8],
    fourth: &[u8],
) -> Option<TraceRow>
    ensures { result ≡ four_words line first.now second.now third.now fourth.now }
{
    if first == b"job".as_slice() {
        let job = job_at(line, second, third, fourth)?;
        return Some(TraceRow::Job(job));
    }
    let slice = slice_at(line, first, second, third)?;
    let slice = ranked(slice, fourth)?;
    Some(TraceRow::Slice(slice))
}

// What a line of five words says.
fn five_words(
    line: u64,
    first: &[u8],
    second: &[u8],
    third: &[u8],
    fourth: &[u8],
    fifth: &[u8],
) -> Option<TraceRow>
    ensures { result ≡ five_words line first.now second.now third.now fourth.now fifth.now }
{
    if first != b"job".as_slice() {
        return None;
    }
    let job = job_at(line, second, third, fourth)?;
    let job = readied(job, fifth)?;
    Some(TraceRow::Job(job))
}

// What a line with this number says; `None` of a faulty line.
pub(crate) fn row_in(line: u64, text: &[u8]) -> Option<TraceRow>
    ensures { result ≡ trace_row_in line (words text.now) }
{
    let mut words = Words::of(text);
    let first = words.next()?;
    let second = words.next()?;
    let third = words.next()?;
    let Some(fourth) = words.next() else {
        return three_words(line, first, second, third);
    };
    let Some(fifth) = words.next() else {
        return four_words(line, first, second, third, fourth);
    };
    match words.next() {
        Some(_more) => None,
        None => five_words(line, first, second, third, fourth, fifth),
    }
}
