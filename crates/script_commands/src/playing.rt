//! `desk play`.
ghost use Rattle.std.specs.Prelude.{ℕ, List};
ghost use Rattle.std.specs.Io.KnownBytes.{Appends};
ghost use Rattle.answering.specs.Outcomes.{IsRead, IsSaidOn, failed_read};
ghost use Rattle.script_commands.specs.Play.{IsPlay, Scripts};

use answering::{Audience, CommandRefusal, Status, Which, read_told, refuse};
use plays::{PlayFault, play_lines};
use scripts::{Line, read_script};
use std::alloc::Global;
use std::io::{Read, Write};
use streams::{INPUT_LIMIT, Watched};

/// The lines of the script that the reader has, or why there are none.
pub fn lines_of<R: Read + Drop, P: Audience>(
    alloc: Global,
    script: &mut Watched<R>,
    people: &mut P,
) -> Result<Vec<Line>, CommandRefusal>
    ensures answer { Scripts (R.remaining script.old.inner) result }
    ensures read { IsRead failed_read script.old script.new result }
{
    let bytes = read_told(alloc, Which::First, INPUT_LIMIT, script, people).map_err(
        CommandRefusal::Input,
    )?;
    match read_script(alloc, &bytes) {
        Ok(lines) => Ok(lines),
        Err(fault) => {
            people.refused(Which::First, &bytes, CommandRefusal::Script(fault));
            Err(CommandRefusal::Script(fault))
        }
    }
}

/// Plays the lines of a script, and prints what comes of them.
pub fn play<W: Write + Drop>(alloc: Global, lines: Vec<Line>, output: &mut Watched<W>) -> Status
    ensures { IsSaidOn (λ before after s. (text : List ℕ) × Appends before after text
        × IsPlay lines.items text s) W.contents output.old output.new result }
{
    match play_lines(alloc, lines, output) {
        Ok(()) => Status::Done,
        Err(PlayFault::OutOfMemory) => refuse(CommandRefusal::OutOfMemory, output),
        Err(PlayFault::WriteFailed) => Status::InputOrOutputFailed,
    }
}
