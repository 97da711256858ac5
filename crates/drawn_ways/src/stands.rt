//! What stands longest behind a chain.
ghost use Rattle.std.specs.Prelude.{◌≡◌};
ghost use Rattle.chain_runs.specs.Outcomes.{next_of};
ghost use Rattle.drawn_ways.specs.Stands.{age_of, is_older, older, oldest, stand_at, stand_by};

use chain_runs::ChainOutput;

/// An output with a sample, from when to when it stands; in microseconds.
#[derive(Clone, Copy)]
pub struct Stand {
    pub sample: u64,
    pub since: u64,
    pub until: u64,
}

// Until when an output stands: to the next one, or to the end.
fn next_of(end: u64, others: &[ChainOutput]) -> u64
    ensures { result ≡ next_of end others.now }
{
    match others.first() {
        Some(next) => next.finish,
        None => end,
    }
}

// An output that comes by the end of what is seen, where it has a sample.
fn stand_at(end: u64, output: ChainOutput, others: &[ChainOutput]) -> Option<Stand>
    ensures { result ≡ stand_at end output others.now }
{
    if output.finish > end {
        return None;
    }
    match output.sample {
        None => None,
        Some(sample) => Some(Stand {
            sample,
            since: output.finish,
            until: next_of(end, others).min(end),
        }),
    }
}

// How old it gets.
pub(crate) fn age_of(stand: Stand) -> u64
    ensures { result ≡ age_of stand }
{
    stand.until.saturating_sub(stand.sample)
}

// Whether it gets older than another, if there is one.
fn is_older(found: Option<Stand>, stand: Stand) -> bool
    ensures { result ≡ is_older found stand }
{
    match found {
        None => true,
        Some(found) => age_of(found) < age_of(stand),
    }
}

// The older of two, of equals the first, where the second stands in a window.
fn older(from: u64, found: Option<Stand>, next: Option<Stand>) -> Option<Stand>
    ensures { result ≡ older from found next }
{
    let Some(stand) = next else {
        return found;
    };
    if from < stand.until && is_older(found, stand) {
        next
    } else {
        found
    }
}

/// Of the outputs that stand up to a time in a window, or to its end, the first of those that get oldest, if one has a sample.
pub fn oldest(from: u64, end: u64, outputs: &[ChainOutput]) -> Option<Stand>
    ensures { result ≡ oldest from end outputs.now }
{
    let mut found = None;
    let mut rest = outputs;
    while let Some((output, others)) = rest.split_first() {
        found = older(from, found, stand_at(end, *output, others));
        rest = others;
    }
    found
}
