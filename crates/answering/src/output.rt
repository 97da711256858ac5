//! Printing.
ghost use Rattle.std.specs.Prelude.{◌≡◌, ◌⊎◌, codes, true, false};
ghost use Rattle.std.specs.Io.KnownBytes.{Appends};
ghost use Rattle.answering.specs.Outcomes.{IsPrintedOn};
ghost use Rattle.answering.specs.Printed.{answer_said, answer_status};
ghost use Rattle.answering.specs.Refusals.{refusal_line, status_of};
ghost use Rattle.answering.specs.WordsFaults.{IsMemory, fault_status, goes_out};

use crate::answer::Answer;
use crate::refusal::CommandRefusal;
use crate::status::Status;
use clap::Error;
use clap::error::ErrorKind;
use command_line::WordsFault;
use std::io::Write;
use streams::Watched;

/// Prints the text, and gives the status that belongs to it; where the writer fails, the status of that.
pub fn print<W: Write + Drop>(text: &[u8], status: Status, output: &mut Watched<W>) -> Status
    ensures { IsPrintedOn W.contents output.old output.new text.now status result }
{
    match output.write(text) {
        Ok(()) => status,
        Err(_) => Status::InputOrOutputFailed,
    }
}

/// Prints the line of a refusal, and gives its exit status.
pub fn refuse<W: Write + Drop>(refusal: CommandRefusal, output: &mut Watched<W>) -> Status
    ensures { IsPrintedOn W.contents output.old output.new (refusal_line refusal) (status_of refusal)
        result }
{
    match write!(output, "{refusal}") {
        Ok(()) => refusal.status(),
        Err(_) => Status::InputOrOutputFailed,
    }
}

/// Prints an answer, or why there is none, and gives its exit status.
pub fn print_answer<W: Write + Drop>(
    answer: &Result<Answer, CommandRefusal>,
    output: &mut Watched<W>,
) -> Status
    ensures { IsPrintedOn W.contents output.old output.new (answer_said answer.now)
        (answer_status answer.now) result }
{
    match answer {
        Ok(answer) => print(&answer.text, answer.status, output),
        Err(refusal) => refuse(*refusal, output),
    }
}

// Prints the text of `clap`'s error.
fn show<W: Write + Drop>(error: &Error, status: Status, writer: &mut Watched<W>) -> Status
    ensures status { writer.new.has_failed ≡ false → result ≡ status }
    ensures unwritten { writer.old.has_failed ≡ false → writer.new.has_failed ≡ true
        → result ≡ Status.InputOrOutputFailed }
{
    match write!(writer, "{error}") {
        Ok(()) => status,
        Err(_) => Status::InputOrOutputFailed,
    }
}

/// Prints why words were refused: help to the output, out of memory as each command prints it,
/// and anything else to the errors.
pub fn refuse_words<O: Write + Drop, E: Write + Drop>(
    fault: &WordsFault,
    output: &mut Watched<O>,
    errors: &mut Watched<E>,
) -> Status
    ensures status { output.new.has_failed ≡ false → errors.new.has_failed ≡ false
        → result ≡ fault_status fault.now }
    ensures preference { fault.now ≡ WordsFault.NoSuchPreference → errors.new.has_failed ≡ false
        → Appends (E.contents errors.old.inner) (E.contents errors.new.inner)
        (codes "no such preference: --prefer takes weight, deadline or chains\n") }
    ensures sort { fault.now ≡ WordsFault.NoSuchSort → errors.new.has_failed ≡ false
        → Appends (E.contents errors.old.inner) (E.contents errors.new.inner)
        (codes "no such order of lines: --sort takes slack\n") }
    ensures twice { fault.now ≡ WordsFault.InputTwice → errors.new.has_failed ≡ false
        → Appends (E.contents errors.old.inner) (E.contents errors.new.inner)
        (codes "standard input named twice\n") }
    ensures memory { IsMemory fault.now → output.new.has_failed ≡ false
        → Appends (O.contents output.old.inner) (O.contents output.new.inner)
        (refusal_line CommandRefusal.OutOfMemory) }
    ensures output_alone { goes_out fault.now ≡ true → errors.new ≡ errors.old }
    ensures errors_alone { goes_out fault.now ≡ false → output.new ≡ output.old }
    ensures unwritten { output.old.has_failed ≡ false → errors.old.has_failed ≡ false
        → (output.new.has_failed ≡ true) ⊎ (errors.new.has_failed ≡ true)
        → result ≡ Status.InputOrOutputFailed }
{
    match fault {
        WordsFault::NoSuchPreference => {
            print(
                b"no such preference: --prefer takes weight, deadline or chains\n",
                Status::BadArguments,
                errors,
            )
        }
        WordsFault::NoSuchSort => print(
            b"no such order of lines: --sort takes slack\n",
            Status::BadArguments,
            errors,
        ),
        WordsFault::InputTwice => print(
            b"standard input named twice\n",
            Status::BadArguments,
            errors,
        ),
        WordsFault::Clap(error) => match error.kind() {
            ErrorKind::OutOfMemory => refuse(CommandRefusal::OutOfMemory, output),
            ErrorKind::DisplayHelp | ErrorKind::DisplayVersion => show(error, Status::Done, output),
            _ => show(error, Status::BadArguments, errors),
        },
    }
}
