//! The functions that a program in C calls: a command each, and what a person is told.
ghost use Rattle.std.specs.Prelude.{◌≡◌, length, IfSome, None, Some};
ghost use Rattle.command_line.specs.Calls.{no_options};
ghost use Rattle.command_line.specs.declared.calls.OfOne.TheVariants.{Admit, Certify, Explain, Limits, Play, Settings};
ghost use Rattle.command_line.specs.declared.calls.OfTwo.TheVariants.{Check, Diff, Draw, DrawBeside, Judge, Observe, Simulate};
ghost use Rattle.desk_cli.specs.Commands.{OneSays, TwoSay};
ghost use Rattle.set_commands.specs.Releases.{SaysList};
ghost use Rattle.answering.specs.Chosen.{asking_of};
ghost use Rattle.answering.specs.Statuses.{code_of};
ghost use Rattle.libdesk.specs.Answers.{AnswersCall, TellsCall};
ghost use Rattle.libdesk.specs.Asked.{AskedSays, SaysChainAsked, SaysWayAsked, SaysWorstAsked, all_options};
ghost use Rattle.libdesk.specs.Numbers.{command_of};

use crate::asked::{Asked, answer};
use crate::tell::{command_of, tell};
use command_line::{OfOne, OfTwo};
use desk_cli::Status;
use std::alloc::Global;

/// What `desk admit` prints of a task set.
#[unsafe(no_mangle)]
pub extern "C" fn desk_admit(alloc: Global, set: &[u8], room: &mut [u8], status: &mut u8) -> usize
    ensures room { length room.new ≡ length room.old }
    ensures answer { AnswersCall (OneSays Admit all_options (Some set.now)) room.old room.new result status.new }
{
    answer(alloc, Asked::One(OfOne::Admit, set), room, status)
}

/// What `desk certify` prints of a task set.
#[unsafe(no_mangle)]
pub extern "C" fn desk_certify(alloc: Global, set: &[u8], room: &mut [u8], status: &mut u8) -> usize
    ensures room { length room.new ≡ length room.old }
    ensures answer { AnswersCall (OneSays Certify all_options (Some set.now)) room.old room.new result status.new }
{
    answer(alloc, Asked::One(OfOne::Certify, set), room, status)
}

/// What `desk limits` prints of a task set.
#[unsafe(no_mangle)]
pub extern "C" fn desk_limits(alloc: Global, set: &[u8], room: &mut [u8], status: &mut u8) -> usize
    ensures room { length room.new ≡ length room.old }
    ensures answer { AnswersCall (OneSays Limits all_options (Some set.now)) room.old room.new result status.new }
{
    answer(alloc, Asked::One(OfOne::Limits, set), room, status)
}

/// What `desk settings` prints of a task set.
#[unsafe(no_mangle)]
pub extern "C" fn desk_settings(
    alloc: Global,
    set: &[u8],
    room: &mut [u8],
    status: &mut u8,
) -> usize
    ensures room { length room.new ≡ length room.old }
    ensures answer { AnswersCall (OneSays Settings all_options (Some set.now)) room.old room.new result status.new }
{
    answer(alloc, Asked::One(OfOne::Settings, set), room, status)
}

/// What `desk explain` prints of a task set with `--all`.
#[unsafe(no_mangle)]
pub extern "C" fn desk_explain(alloc: Global, set: &[u8], room: &mut [u8], status: &mut u8) -> usize
    ensures room { length room.new ≡ length room.old }
    ensures answer { AnswersCall (OneSays Explain all_options (Some set.now)) room.old room.new result status.new }
{
    answer(alloc, Asked::One(OfOne::Explain, set), room, status)
}

/// What `desk play` prints of a script.
#[unsafe(no_mangle)]
pub extern "C" fn desk_play(alloc: Global, script: &[u8], room: &mut [u8], status: &mut u8) -> usize
    ensures room { length room.new ≡ length room.old }
    ensures answer { AnswersCall (OneSays Play all_options (Some script.now)) room.old room.new result status.new }
{
    answer(alloc, Asked::One(OfOne::Play, script), room, status)
}

/// What `desk releases` prints of a task set, up to `until` in microseconds.
#[unsafe(no_mangle)]
pub extern "C" fn desk_releases(
    alloc: Global,
    set: &[u8],
    until: u64,
    room: &mut [u8],
    status: &mut u8,
) -> usize
    ensures room { length room.new ≡ length room.old }
    ensures answer { AnswersCall (SaysList (asking_of no_options) None until
        (Some set.now)) room.old room.new result status.new }
{
    answer(alloc, Asked::Releases(set, until), room, status)
}

/// What `desk worst` prints of a task set, with `--task` where the name of a task is given.
#[unsafe(no_mangle)]
pub extern "C" fn desk_worst(
    alloc: Global,
    set: &[u8],
    task: &[u8],
    room: &mut [u8],
    status: &mut u8,
) -> usize
    ensures room { length room.new ≡ length room.old }
    ensures answer { AnswersCall (SaysWorstAsked set.now task.now)
        room.old room.new result status.new }
{
    answer(alloc, Asked::Worst(set, task), room, status)
}

/// What `desk worst` prints of a task set with `--chain` and the name of a chain; without a name as `desk_worst`.
#[unsafe(no_mangle)]
pub extern "C" fn desk_worst_chain(
    alloc: Global,
    set: &[u8],
    chain: &[u8],
    room: &mut [u8],
    status: &mut u8,
) -> usize
    ensures room { length room.new ≡ length room.old }
    ensures answer { AnswersCall (SaysChainAsked set.now chain.now)
        room.old room.new result status.new }
{
    answer(alloc, Asked::WorstChain(set, chain), room, status)
}

/// What `desk check` prints of a task set and a certificate.
#[unsafe(no_mangle)]
pub extern "C" fn desk_check(
    alloc: Global,
    set: &[u8],
    certificate: &[u8],
    room: &mut [u8],
    status: &mut u8,
) -> usize
    ensures room { length room.new ≡ length room.old }
    ensures answer { AnswersCall (TwoSay Check no_options (Some set.now)
        (Some certificate.now)) room.old room.new result status.new }
{
    answer(
        alloc,
        Asked::Two(OfTwo::Check, set, certificate),
        room,
        status,
    )
}

/// What `desk judge` prints of a task set and settings.
#[unsafe(no_mangle)]
pub extern "C" fn desk_judge(
    alloc: Global,
    set: &[u8],
    settings: &[u8],
    room: &mut [u8],
    status: &mut u8,
) -> usize
    ensures room { length room.new ≡ length room.old }
    ensures answer { AnswersCall (TwoSay Judge no_options (Some set.now)
        (Some settings.now)) room.old room.new result status.new }
{
    answer(alloc, Asked::Two(OfTwo::Judge, set, settings), room, status)
}

/// What `desk diff` prints of a task set and the one that it becomes.
#[unsafe(no_mangle)]
pub extern "C" fn desk_diff(
    alloc: Global,
    set: &[u8],
    changed: &[u8],
    room: &mut [u8],
    status: &mut u8,
) -> usize
    ensures room { length room.new ≡ length room.old }
    ensures answer { AnswersCall (TwoSay Diff no_options (Some set.now)
        (Some changed.now)) room.old room.new result status.new }
{
    answer(alloc, Asked::Two(OfTwo::Diff, set, changed), room, status)
}

/// What `desk simulate` prints of a task set and a release list.
#[unsafe(no_mangle)]
pub extern "C" fn desk_simulate(
    alloc: Global,
    set: &[u8],
    releases: &[u8],
    room: &mut [u8],
    status: &mut u8,
) -> usize
    ensures room { length room.new ≡ length room.old }
    ensures answer { AnswersCall (TwoSay Simulate no_options (Some set.now)
        (Some releases.now)) room.old room.new result status.new }
{
    answer(
        alloc,
        Asked::Two(OfTwo::Simulate, set, releases),
        room,
        status,
    )
}

/// What `desk draw` prints of a task set and a release list.
#[unsafe(no_mangle)]
pub extern "C" fn desk_draw(
    alloc: Global,
    set: &[u8],
    releases: &[u8],
    room: &mut [u8],
    status: &mut u8,
) -> usize
    ensures room { length room.new ≡ length room.old }
    ensures answer { AnswersCall (TwoSay Draw no_options (Some set.now)
        (Some releases.now)) room.old room.new result status.new }
{
    answer(alloc, Asked::Two(OfTwo::Draw, set, releases), room, status)
}

/// What `desk draw` with `--beside` prints of a task set, and of a release list and a new set in one text: the list, a byte 0,
/// and the set.
#[unsafe(no_mangle)]
pub extern "C" fn desk_draw_beside(
    alloc: Global,
    set: &[u8],
    both: &[u8],
    room: &mut [u8],
    status: &mut u8,
) -> usize
    ensures room { length room.new ≡ length room.old }
    ensures answer { AnswersCall (TwoSay DrawBeside no_options (Some set.now)
        (Some both.now)) room.old room.new result status.new }
{
    answer(
        alloc,
        Asked::Two(OfTwo::DrawBeside, set, both),
        room,
        status,
    )
}

/// What `desk draw` with `--chain` prints of a task set, and of a release list and the name of a chain in one text: the list, a
/// byte 0, and the name; without a name as `desk_draw`.
#[unsafe(no_mangle)]
pub extern "C" fn desk_draw_chain(
    alloc: Global,
    set: &[u8],
    both: &[u8],
    room: &mut [u8],
    status: &mut u8,
) -> usize
    ensures room { length room.new ≡ length room.old }
    ensures answer { AnswersCall (SaysWayAsked set.now both.now)
        room.old room.new result status.new }
{
    answer(alloc, Asked::DrawChain(set, both), room, status)
}

/// What `desk observe` prints of a task set and a trace, with no tolerance, and where each task is to have a job.
#[unsafe(no_mangle)]
pub extern "C" fn desk_observe(
    alloc: Global,
    set: &[u8],
    trace: &[u8],
    room: &mut [u8],
    status: &mut u8,
) -> usize
    ensures room { length room.new ≡ length room.old }
    ensures answer { AnswersCall (TwoSay Observe no_options (Some set.now)
        (Some trace.now)) room.old room.new result status.new }
{
    answer(alloc, Asked::Two(OfTwo::Observe, set, trace), room, status)
}

/// What a person is told of what the command of a number is given: what `desk` writes on standard error beside its answer.
/// No contract says what is told; the status is that of the command's answer. A number without a command is refused.
#[unsafe(no_mangle)]
pub extern "C" fn desk_tell(
    alloc: Global,
    command: u8,
    first: &[u8],
    second: &[u8],
    until: u64,
    room: &mut [u8],
    status: &mut u8,
) -> usize
    ensures room { length room.new ≡ length room.old }
    ensures told { IfSome (command_of command first.entry second.entry until) (λ asked.
        TellsCall (AskedSays asked) room.old room.new result status.new) }
    ensures unknown { command_of command first.entry second.entry until ≡ None
        → (room.new ≡ room.old) × (result ≡ 0) × (status.new ≡ code_of Status.BadArguments) }
{
    match command_of(command, first, second, until) {
        Some(asked) => tell(alloc, asked, room, status),
        None => {
            *status = Status::BadArguments.code();
            0
        }
    }
}
