//! What the outputs of a chain come to.
ghost use Rattle.std.specs.Prelude.{◌≡◌, length};
ghost use Rattle.chain_runs.specs.Outcomes.{age_at, ages_of, count_of, greater, later_by, next_of, outcome_of, reaction_at, reactions_of};

use crate::outputs::ChainOutput;

/// How many outputs have a sample, how old what stands there gets at the most, and how long an event is not acted on at the
/// most, just after a sample, where there are such; in microseconds.
#[derive(Clone, Copy, Debug, PartialEq, Eq)]
pub struct ChainOutcome {
    pub outputs: usize,
    pub age: Option<u64>,
    pub reaction: Option<u64>,
}

// The greater of two numbers, of which either may be absent.
fn greater(one: Option<u64>, other: Option<u64>) -> Option<u64>
    ensures { result ≡ greater one other }
{
    match (one, other) {
        (Some(one), Some(other)) => Some(one.max(other)),
        (Some(one), None) => Some(one),
        (None, other) => other,
    }
}

// Until when an output stands: to the next one, or to the end.
fn next_of(until: u64, others: &[ChainOutput]) -> u64
    ensures { result ≡ next_of until others.now }
{
    match others.first() {
        Some(next) => next.finish,
        None => until,
    }
}

// How old an output gets.
fn age_at(until: u64, output: ChainOutput, others: &[ChainOutput]) -> Option<u64>
    ensures { result ≡ age_at until output others.now }
{
    match output.sample {
        Some(sample) => Some(next_of(until, others).saturating_sub(sample)),
        None => None,
    }
}

// From just after a sample to an output, where its sample is a later one.
fn later_by(sample: u64, next: ChainOutput) -> Option<u64>
    ensures { result ≡ later_by sample next }
{
    match next.sample {
        Some(later) => {
            if sample < later {
                Some(next.finish.saturating_sub(sample))
            } else {
                None
            }
        }
        None => None,
    }
}

// From just after the sample of an output to the next one, where that has a later sample.
fn reaction_at(output: ChainOutput, others: &[ChainOutput]) -> Option<u64>
    ensures { result ≡ reaction_at output others.now }
{
    let Some(next) = others.first() else {
        return None;
    };
    match output.sample {
        Some(sample) => later_by(sample, *next),
        None => None,
    }
}

// How many outputs have a sample.
fn count_of(outputs: &[ChainOutput]) -> usize
    ensures { result ≡ count_of outputs.now }
{
    let mut count = 0;
    for output in outputs {
        if output.sample.is_some() {
            count += 1;
        }
    }
    count
}

// The greatest age of outputs.
fn ages_of(until: u64, outputs: &[ChainOutput]) -> Option<u64>
    ensures { result ≡ ages_of until outputs.now }
{
    let mut age = None;
    let mut rest = outputs;
    while let Some((output, others)) = rest.split_first() {
        age = greater(age, age_at(until, *output, others));
        rest = others;
    }
    age
}

// The greatest reaction of outputs.
fn reactions_of(outputs: &[ChainOutput]) -> Option<u64>
    ensures { result ≡ reactions_of outputs.now }
{
    let mut reaction = None;
    let mut rest = outputs;
    while let Some((output, others)) = rest.split_first() {
        reaction = greater(reaction, reaction_at(*output, others));
        rest = others;
    }
    reaction
}

/// What the outputs of a chain come to in a run that ends at `until`, in microseconds.
pub fn outcome_of(until: u64, outputs: &[ChainOutput]) -> ChainOutcome
    ensures { result ≡ outcome_of until outputs.now }
{
    ChainOutcome {
        outputs: count_of(outputs),
        age: ages_of(until, outputs),
        reaction: reactions_of(outputs),
    }
}
