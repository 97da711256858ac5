//! An audience that writes what a person is to know.
ghost use Rattle.std.specs.Prelude.{IfOk};
ghost use Rattle.assignment.specs.Placings.{IsPlacingOf};

use crate::causes::LastError;
use crate::sentence::{Known, sentence_of};
use assignment::{Placing, place_all};
use ceilings::{LockTable, Tabled};
use chain_lines::all_met;
use chain_tables::Chain;
use command_line::{Call, Input, Named, OfNumber, OfOne, OfTwo, Options};
use desk_cli::{Audience, CommandRefusal, Status, Which, base_of};
use explain::least_conflict;
use least_chains::levels_of;
use preferences::Choice;
use sentences::{
    greatest_until, leaves_out, of_chain, of_neither, of_task, of_tasks, push_clean,
    put_chain_missed, put_chain_missed_here, put_chain_missed_in_new, put_chains_left_out,
    put_conflict, put_empty, put_left_out, put_names_decide, put_notes, put_one_overran,
    put_overload, put_overran, put_override, put_parted, put_past_priorities, put_periods_stay,
    put_strange_threads, put_strangers, put_unrun, put_unrun_of, put_unseen,
};
use std::alloc::{AllocError, Global};
use std::io::Write;
use streams::{Watched, WriteFailed};
use task_sheet::{Members, Name, Preference, TaskSet};

/// Tells a person what is wrong with an input, and what is odd in a set. A sentence for which memory runs out, or that
/// can't be written, is dropped: no answer and no status rests on it.
#[derive(Drop)]
pub struct Advice<'a, W: Write + Drop> {
    alloc: Global,
    call: Call<'a>,
    last: &'a LastError,
    // Up to when the densest list of the set is short enough, where the call asks for that list.
    greatest_until: Option<u64>,
    // That the set has no task or no chain of a name that the call's words say.
    no_task: Option<String>,
    // Whether nobody says by what the set is preferred.
    is_unpreferred: bool,
    // Whether the set has chains, some of them with offsets.
    has_chains: bool,
    has_offsets: bool,
    // Whether there was a run, and whether the new set has timers or interrupts, which its run lacks.
    has_run: bool,
    lacks_in_new: bool,
    // The set of a call that runs a list or checks a certificate, for what these break, or that asks for the densest list.
    set: Option<TaskSet>,
    // The chains of a set whose certificate a call checks, or whose answer doesn't say that one misses its limit.
    chains: Vec<Chain>,
    // Whether one of these does in the best order; whether one does in the order that the answer is of, or in the new set's.
    has_missed: bool,
    misses_here: bool,
    misses_in_new: bool,
    errors: Watched<W>,
}

// Chains that say the same.
fn copy_chains(alloc: Global, chains: &[Chain]) -> Result<Vec<Chain>, AllocError> {
    let mut copies = Vec::with_capacity(alloc, chains.len())?;
    for chain in chains {
        copies.push(Chain {
            name: chain.name,
            tasks: chain.tasks.to_vec(alloc)?,
            limit: chain.limit,
            offsets: chain.offsets.to_vec(alloc)?,
            writes: chain.writes,
        })?;
    }
    Ok(copies)
}

// Whether the answer of a call on a set of which no order passes says that alone.
fn says_no_alone(call: Call<'_>) -> bool {
    match call {
        Call::One { command, .. } => match command {
            OfOne::Admit | OfOne::Settings => true,
            OfOne::Limits | OfOne::Explain | OfOne::Worst | OfOne::Certify => false,
            OfOne::Script | OfOne::Play => false,
        },
        _ => false,
    }
}

// Whether a call runs a list.
fn is_run(call: Call<'_>) -> bool {
    match call {
        Call::Two { command, .. } => match command {
            OfTwo::Simulate | OfTwo::Draw | OfTwo::DrawBeside => true,
            OfTwo::Check | OfTwo::Diff | OfTwo::Judge | OfTwo::Observe => false,
            OfTwo::Keep | OfTwo::WorstAt | OfTwo::ExplainAt | OfTwo::LimitsAt => false,
        },
        _ => false,
    }
}

// Whether a call prints a set as a script.
fn is_script(call: Call<'_>) -> bool {
    match call {
        Call::One { command, .. } => match command {
            OfOne::Script => true,
            OfOne::Admit | OfOne::Settings | OfOne::Play => false,
            OfOne::Limits | OfOne::Explain | OfOne::Worst | OfOne::Certify => false,
        },
        _ => false,
    }
}

// Whether a call asks how far numbers may go.
fn asks_limits(call: Call<'_>) -> bool {
    match call {
        Call::One { command, .. } => matches!(command, OfOne::Limits),
        Call::Two { command, .. } => matches!(command, OfTwo::LimitsAt),
        Call::Number { .. } => false,
    }
}

// Whether a call asks for a worst case.
fn asks_worst(call: Call<'_>) -> bool {
    match call {
        Call::One { command, .. } => matches!(command, OfOne::Worst),
        Call::Two { command, .. } => matches!(command, OfTwo::WorstAt),
        Call::Number { .. } => false,
    }
}

// Whether a call asks for a certificate.
fn asks_certificate(call: Call<'_>) -> bool {
    match call {
        Call::One { command, .. } => matches!(command, OfOne::Certify),
        _ => false,
    }
}

// Whether a call checks a certificate.
fn is_check(call: Call<'_>) -> bool {
    match call {
        Call::Two { command, .. } => match command {
            OfTwo::Check => true,
            OfTwo::Simulate | OfTwo::Draw | OfTwo::DrawBeside => false,
            OfTwo::Diff | OfTwo::Judge | OfTwo::Observe => false,
            OfTwo::Keep | OfTwo::WorstAt | OfTwo::ExplainAt | OfTwo::LimitsAt => false,
        },
        _ => false,
    }
}

// Whether a call's answer speaks of the best order of a set, and has no line of each chain beside its limit.
fn hides_chains(call: Call<'_>) -> bool {
    match call {
        Call::One {
            command,
            options,
            ..
        } => match command {
            OfOne::Limits | OfOne::Settings | OfOne::Worst | OfOne::Certify => true,
            OfOne::Explain => options.task.is_some(),
            OfOne::Admit | OfOne::Script | OfOne::Play => false,
        },
        Call::Two { command, .. } => match command {
            OfTwo::Simulate | OfTwo::Draw | OfTwo::Observe => true,
            OfTwo::Check | OfTwo::Diff | OfTwo::Judge | OfTwo::DrawBeside => false,
            OfTwo::Keep | OfTwo::WorstAt | OfTwo::ExplainAt | OfTwo::LimitsAt => false,
        },
        Call::Number { .. } => false,
    }
}

// What becomes of the tasks of a set.
fn placing_of(alloc: Global, set: &TaskSet) -> Result<Placing, AllocError>
    ensures { IfOk result (λ placing. IsPlacingOf set.now placing) }
{
    let table = LockTable::new(alloc, set)?;
    place_all(alloc, &Tabled::of(set, &table))
}

// Whether a chain misses its limit in the order of a placing.
fn misses_chain(
    alloc: Global,
    set: &TaskSet,
    placing: &Placing,
    chains: &[Chain],
) -> Result<bool, AllocError> {
    let levels = levels_of(alloc, placing)?;
    Ok(!all_met(alloc, set, &levels, chains)?)
}

// Whether a call compares two sets: what is odd in the old one needs no note.
fn is_diff(call: Call<'_>) -> bool {
    match call {
        Call::Two { command, .. } => match command {
            OfTwo::Diff | OfTwo::DrawBeside => true,
            OfTwo::Simulate | OfTwo::Draw => false,
            OfTwo::Check | OfTwo::Judge | OfTwo::Observe => false,
            OfTwo::Keep | OfTwo::WorstAt | OfTwo::ExplainAt | OfTwo::LimitsAt => false,
        },
        _ => false,
    }
}

// Whether a call asks for the densest list.
fn asks_densest(call: Call<'_>) -> bool {
    match call {
        Call::Number {
            command,
            options,
            ..
        } => match command {
            OfNumber::Releases => options.seed.is_none(),
            OfNumber::Rush => false,
        },
        _ => false,
    }
}

// Whether a call shows two runs.
fn is_of_two(call: Call<'_>) -> bool {
    is_run(call) && is_diff(call)
}

// What the words of a call choose.
fn options_of(call: Call<'_>) -> Options<'_> {
    match call {
        Call::One { options, .. } => options,
        Call::Two { options, .. } => options,
        Call::Number { options, .. } => options,
    }
}

// The tasks that a picture is to have rows for, as the words of a call name them.
fn rows_of<'a>(call: Call<'a>) -> Option<&'a str> {
    match call {
        Call::Two {
            command: OfTwo::Draw,
            options,
            ..
        } => match options.rows {
            Some(words) => {
                if words.as_bytes() == b"all".as_slice() {
                    None
                } else {
                    Some(words)
                }
            }
            None => None,
        },
        _ => None,
    }
}

// That the set has no task of a name that the words of a call say.
fn no_task_of(alloc: Global, set: &TaskSet, call: Call<'_>) -> Option<String> {
    let options = options_of(call);
    match (options.task, rows_of(call)) {
        // (a chain is asked about in its place)
        (Some(_), _) if options.chain.is_some() => None,
        (Some(word), _) => of_task(alloc, set, word),
        (None, Some(words)) => of_tasks(alloc, set, words),
        (None, None) => None,
    }
}

// That neither set of a call on two has a task of a name that its words say.
fn neither_of(alloc: Global, call: Call<'_>, name: Option<Name>) -> Option<String> {
    match call {
        Call::Two {
            command: OfTwo::DrawBeside,
            options,
            ..
        } => of_neither(alloc, options.rows?, name),
        _ => None,
    }
}

// The input of a call that a refusal is of.
fn input_of(call: Call<'_>, which: Which) -> Input<'_> {
    match call {
        Call::One { input, .. } => input,
        Call::Two { first, second, .. } => match which {
            Which::First => first,
            Which::Second | Which::Third => second,
        },
        Call::Number { input, .. } => input,
    }
}

// What is wrong with an input that is too long.
fn too_long(call: Call<'_>, which: Which) -> &'static str {
    let observes = matches!(
        call,
        Call::Two {
            command: OfTwo::Observe,
            ..
        }
    );
    if observes && which == Which::Second {
        "longer than the 1073741824 bytes that a trace may have"
    } else if matches!(input_of(call, which), Input::Both { .. }) {
        "with the new set longer than the 16777216 bytes that an input may have"
    } else {
        "longer than the 16777216 bytes that an input may have"
    }
}

// Puts what a word names.
fn push_named(line: &mut String, named: Named<'_>) -> Result<(), AllocError> {
    match named {
        Named::Standard => line.push_str("standard input"),
        Named::File("") => line.push_str("\"\""),
        Named::File(path) => push_clean(line, path),
    }
}

// The line that says what is wrong with an input, or with that part of it.
fn line_of(
    alloc: Global,
    input: Input<'_>,
    which: Which,
    sentence: &str,
) -> Result<String, AllocError> {
    let mut line = String::new(alloc);
    match (input, which) {
        (Input::One(named), _) => push_named(&mut line, named)?,
        (Input::Both { new, .. }, Which::Third) => push_named(&mut line, new)?,
        (Input::Both { list, .. }, _) => push_named(&mut line, list)?,
    }
    line.push_str(": ")?;
    line.push_str(sentence)?;
    line.push_str("\n")?;
    Ok(line)
}

impl<'a, W: Write + Drop> Advice<'a, W> {
    /// On the inputs of a call, whose last error is kept, written to the errors.
    pub fn new(
        alloc: Global,
        call: Call<'a>,
        last: &'a LastError,
        errors: Watched<W>,
    ) -> Advice<'a, W> {
        Advice {
            alloc,
            call,
            last,
            greatest_until: None,
            no_task: None,
            is_unpreferred: false,
            has_chains: false,
            has_offsets: false,
            has_run: false,
            lacks_in_new: false,
            set: None,
            chains: Vec::new(alloc),
            has_missed: false,
            misses_here: false,
            misses_in_new: false,
            errors,
        }
    }

    /// What was written to, and what became of that.
    pub fn into_errors(self) -> Watched<W> {
        self.errors
    }

    // What is odd in a set.
    fn put_oddities(&mut self, set: &TaskSet) -> Result<(), WriteFailed> {
        put_notes(set, &mut self.errors)?;
        put_strangers(set, &mut self.errors)?;
        put_overload(set, &mut self.errors)
    }

    // What is odd in the set of a call, what of it a script leaves out, and what is odd in the priority that its words choose.
    fn put_all(&mut self, set: &TaskSet) -> Result<(), WriteFailed> {
        put_empty(set, &mut self.errors)?;
        self.put_oddities(set)?;
        if self.has_chains && is_script(self.call) {
            put_chains_left_out(&mut self.errors)?;
        }
        if asks_worst(self.call) && leaves_out(set) {
            put_left_out(&mut self.errors)?;
        }
        if self.has_offsets && asks_limits(self.call) {
            put_periods_stay(&mut self.errors)?;
        }
        match options_of(self.call).base {
            Some(_) => put_past_priorities(base_of(options_of(self.call)), set, &mut self.errors),
            None => Ok(()),
        }
    }

    // Says what is wrong with an input.
    fn put_line(&mut self, which: Which, sentence: &str) {
        if let Ok(line) = line_of(self.alloc, input_of(self.call, which), which, sentence) {
            let _ = self.errors.write(line.as_bytes());
        }
    }

    // Says that the set has no task or no chain of a name that the words say, where that is so.
    fn put_no_task(&mut self) -> bool {
        match self.no_task.take() {
            Some(sentence) => {
                self.put_line(Which::First, sentence.as_str());
                true
            }
            None => false,
        }
    }

    // Whether nobody but the names says what stands higher.
    fn put_names(&mut self, set: &TaskSet) {
        if self.is_unpreferred && !is_diff(self.call) {
            let _ = put_names_decide(set, &mut self.errors);
        }
    }

    // Whether the set has chains, and the answer has no line of each.
    fn hides_some(&self) -> bool {
        hides_chains(self.call) && !self.chains.is_empty()
    }

    // Keeps whether one of them misses its limit in the order of a placing.
    fn look_at_chains(&mut self, set: &TaskSet, placing: &Placing) {
        if let (true, Placing::Best(_)) = (self.hides_some(), placing) {
            self.has_missed = matches!(
                misses_chain(self.alloc, set, placing, &self.chains),
                Ok(true)
            );
        }
    }

    // The same of a set whose placing isn't told.
    fn look_at_best(&mut self, set: &TaskSet) {
        if self.hides_some() {
            if let Ok(placing) = placing_of(self.alloc, set) {
                self.look_at_chains(set, &placing);
            }
        }
    }

    // That the call prefers otherwise than a set, or than the new one, if it does.
    fn put_overridden(&mut self, call: Preference, own: Preference, is_new: bool) {
        if call != own {
            let _ = put_override(call, own, is_new, &mut self.errors);
        }
    }

    // That a chain misses its limit in the order that an answer speaks of, and has no line on it.
    fn put_missed(&mut self, status: Status) {
        if status != Status::Done && status != Status::Infeasible {
            return;
        }
        if self.has_missed {
            let _ = put_chain_missed(&mut self.errors);
        }
        if self.misses_here {
            let _ = put_chain_missed_here(&mut self.errors);
        }
        if self.misses_in_new {
            let _ = put_chain_missed_in_new(&mut self.errors);
        }
    }

    /// The call has ended.
    pub fn ended(&mut self, status: Status) {
        self.put_missed(status);
        if status != Status::Infeasible {
            return;
        }
        if !is_run(self.call) {
            return;
        }
        if is_of_two(self.call) {
            let _ = put_unrun_of(self.has_run, &mut self.errors);
        } else {
            let _ = put_unrun(&mut self.errors);
        }
    }
}

impl<'a, W: Write + Drop> Audience for Advice<'a, W> {
    fn read(&mut self, set: &TaskSet) {
        // (of one input: what follows is that refusal)
        if !self.put_no_task() && !is_diff(self.call) {
            let _ = self.put_all(set);
            if asks_certificate(self.call) {
                self.look_at_best(set);
            }
        }
    }

    fn placed(&mut self, set: &TaskSet, placing: &Placing)
        requires { IsPlacingOf set.now placing.now }
    {
        let Placing::Stuck(greatest) = placing else {
            self.put_names(set);
            self.look_at_chains(set, placing);
            return;
        };
        if !says_no_alone(self.call) {
            return;
        }
        if let Ok(table) = LockTable::new(self.alloc, set) {
            let least = least_conflict(&Tabled::of(set, &table), *greatest);
            let _ = put_conflict(set, *greatest, least, &mut self.errors);
        }
    }

    fn in_best_order(&mut self, set: &TaskSet) {
        self.put_names(set);
        self.look_at_best(set);
    }

    fn ran(&mut self, set: &TaskSet) {
        self.has_run = true;
        if leaves_out(set) || self.lacks_in_new {
            let _ = put_left_out(&mut self.errors);
        }
    }

    fn overran(&mut self, name: Name) {
        if is_of_two(self.call) {
            let _ = put_one_overran(name, &mut self.errors);
        } else {
            let _ = put_overran(name, &mut self.errors);
        }
    }

    fn seen(&mut self, set: &TaskSet, tasks: Members) {
        let _ = put_unseen(set, tasks, &mut self.errors);
    }

    fn keeping(&mut self, set: &TaskSet, settings: &[u8]) {
        let _ = put_strange_threads(self.alloc, set, settings, &mut self.errors);
    }

    fn missed_here(&mut self) {
        self.misses_here = true;
    }

    fn missed_in_new(&mut self) {
        self.misses_in_new = true;
    }

    fn compared(&mut self, new: &TaskSet, choice: Choice) {
        if let (Some(call), Some(own)) = (choice.call, choice.own) {
            self.put_overridden(call, own, true);
        }
        self.lacks_in_new = is_of_two(self.call) && leaves_out(new);
        let _ = self.put_oddities(new);
    }

    fn parted(&mut self, set: &TaskSet, low: usize, high: usize) {
        let _ = put_parted(set, low, high, &mut self.errors);
    }

    fn preferred(&mut self, set: &TaskSet, choice: Choice) {
        self.no_task = no_task_of(self.alloc, set, self.call);
        if is_run(self.call) || is_check(self.call) || asks_densest(self.call) {
            self.set = set.copy(self.alloc).ok();
        }
        match (choice.call, choice.own) {
            (Some(call), Some(own)) => self.put_overridden(call, own, false),
            (None, None) => self.is_unpreferred = true,
            _ => {}
        }
    }

    fn chained(&mut self, chains: &[Chain]) {
        self.has_chains = !chains.is_empty();
        self.has_offsets = chains.iter().any(|chain| !chain.offsets.is_empty());
        if asks_densest(self.call) {
            self.greatest_until = match &self.set {
                Some(set) => Some(greatest_until(set, chains)),
                None => None,
            };
        }
        if is_check(self.call) || hides_chains(self.call) {
            if let Ok(copies) = copy_chains(self.alloc, chains) {
                self.chains = copies;
            }
        }
        if let (None, Some(word)) = (&self.no_task, options_of(self.call).chain) {
            self.no_task = of_chain(self.alloc, chains, word);
        }
    }

    fn refused(&mut self, which: Which, bytes: &[u8], refusal: CommandRefusal) {
        if let CommandRefusal::NoSuchTask { name } = refusal {
            if let Some(sentence) = neither_of(self.alloc, self.call, name) {
                self.no_task = Some(sentence);
            }
            self.put_no_task();
            return;
        }
        if let CommandRefusal::NoSuchChain { .. } = refusal {
            self.put_no_task();
            return;
        }
        let known = Known {
            last: self.last,
            options: options_of(self.call),
            greatest_until: self.greatest_until,
            set: self.set.as_ref(),
            chains: &self.chains,
            too_long: too_long(self.call, which),
        };
        if let Some(sentence) = sentence_of(self.alloc, known, bytes, refusal) {
            self.put_line(which, sentence.as_str());
        }
    }
}
