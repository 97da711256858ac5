//! `desk rush`.
ghost use Rattle.std.specs.Prelude.{◌≡◌, ◌⊎◌, string_bytes, true, false};
ghost use Rattle.std.specs.Io.KnownBytes.{Appends};
ghost use Rattle.candidate_workers.specs.WorkerFaults.{IsBadCount};
ghost use Rattle.streams.specs.Inputs.{IsDisturbed, IsWithinTurns};
ghost use Rattle.script_commands.specs.Rush.{IsNoted, SaysRushed};

use crate::playing::lines_of;
use answering::{Audience, CommandRefusal, Status, refuse};
use rushes::{RushTexts, rush_lines};
use std::alloc::Global;
use std::io::{Read, Write};
use std::sync::Wait;
use std::thread::Threads;
use streams::Watched;

// Writes to the errors what is told of lines that did nothing.
fn tell<E: Write + Drop>(notes: &[u8], errors: &mut Watched<E>) -> Status
    ensures noted { IsNoted (λ e. E.contents e) errors.old errors.new notes.now result }
    ensures failed { result ≡ Status.InputOrOutputFailed → errors.new.has_failed ≡ true }
    ensures untold { errors.new.has_failed ≡ true → result ≡ Status.InputOrOutputFailed }
{
    match errors.write(notes) {
        Ok(()) => Status::Done,
        Err(_) => Status::InputOrOutputFailed,
    }
}

// Prints the log and the book, and then, to the errors, what is told of lines that did nothing.
fn print_both<W: Write + Drop, E: Write + Drop>(
    texts: &RushTexts,
    output: &mut Watched<W>,
    errors: &mut Watched<E>,
) -> Status
    ensures printed { output.new.has_failed ≡ false
        → Appends (W.contents output.old.inner) (W.contents output.new.inner)
        (string_bytes texts.now.log) }
    ensures noted { output.new.has_failed ≡ false
        → IsNoted (λ e. E.contents e) errors.old errors.new (string_bytes texts.now.notes) result }
    ensures quiet { output.new.has_failed ≡ true → errors.new ≡ errors.old }
    ensures failed { result ≡ Status.InputOrOutputFailed
        → (output.new.has_failed ≡ true) ⊎ (errors.new.has_failed ≡ true) }
    ensures unwritten { output.old.has_failed ≡ false → output.new.has_failed ≡ true
        → result ≡ Status.InputOrOutputFailed }
    ensures untold { errors.old.has_failed ≡ false → errors.new.has_failed ≡ true
        → result ≡ Status.InputOrOutputFailed }
{
    match output.write(texts.log.as_bytes()) {
        Ok(()) => tell(texts.notes.as_bytes(), errors),
        Err(_) => Status::InputOrOutputFailed,
    }
}

/// `desk rush`: reads a script, runs the lines of each team on a thread of its own over one locked book, with at most
/// so many workers for the test of a commit, and prints the log and then the book, and to the errors what is told of
/// lines that did nothing; or why the script was refused, and then nothing of it was run; or why there is no log,
/// alone.
pub fn run_rush<
    Rd: Read + Drop,
    W: Write + Drop,
    E: Write + Drop,
    P: Audience,
    R: Threads + Wait + Sync,
>(
    rt: &R,
    alloc: Global,
    script: &mut Watched<Rd>,
    workers: usize,
    output: &mut Watched<W>,
    errors: &mut Watched<E>,
    people: &mut P,
) -> Status
    requires workers { IsBadCount workers → ⊥ }
    ensures printed { output.new.has_failed ≡ false
        → SaysRushed (Rd.remaining script.old.inner) workers (W.contents output.old.inner)
        (W.contents output.new.inner) (λ e. E.contents e) errors.old errors.new result }
    ensures quiet { output.new.has_failed ≡ true → errors.new ≡ errors.old }
    ensures failed { result ≡ Status.InputOrOutputFailed
        → IsDisturbed script.new ⊎ (output.new.has_failed ≡ true) ⊎ (errors.new.has_failed ≡ true) }
    ensures unread { script.old.has_failed ≡ false → script.new.has_failed ≡ true
        → output.old.has_failed ≡ false
        → result ≡ Status.InputOrOutputFailed }
    ensures unwritten { output.old.has_failed ≡ false → output.new.has_failed ≡ true
        → result ≡ Status.InputOrOutputFailed }
    ensures untold { errors.old.has_failed ≡ false → errors.new.has_failed ≡ true
        → result ≡ Status.InputOrOutputFailed }
    ensures turns { IsWithinTurns script.old script.new }
{
    match lines_of(alloc, script, people) {
        Err(refusal) => refuse(refusal, output),
        Ok(lines) => match rush_lines(rt, alloc, &lines, workers) {
            Ok(texts) => print_both(&texts, output, errors),
            Err(fault) => refuse(CommandRefusal::Rush(fault), output),
        },
    }
}
