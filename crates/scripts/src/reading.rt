//! Reading a script.
ghost use Rattle.std.specs.Prelude.{◌≡◌, ◌+◌, ◌<◌, ◌^◌, Ok, MatchResult};
ghost use Rattle.scripts.specs.Script.{IsFault, fault_at, opened_after, script_in};

use crate::line::{Line, Row, RowFault, ScriptFault};
use crate::rows::read_row;
use lines::{TextPlace, next_kept};
use std::alloc::Global;

// How many drafts were opened, after a line.
fn opened_after(opened: usize, row: &Row) -> usize
    requires { opened + 1 < 2 ^ 64 }
    ensures { result ≡ opened_after opened row.now }
{
    match row {
        Row::Open { .. } => opened + 1,
        _ => opened,
    }
}

// The fault of the line with this number.
fn fault_at(number: u64, fault: RowFault) -> ScriptFault
    ensures { result ≡ fault_at number fault }
{
    match fault {
        RowFault::Bad => ScriptFault::BadLine { line: number },
        RowFault::Sheet { cause } => ScriptFault::Sheet {
            line: number,
            cause,
        },
        RowFault::BadJitter => ScriptFault::BadJitter { line: number },
        RowFault::Outranks { cause } => ScriptFault::Outranks {
            line: number,
            cause,
        },
        RowFault::BadOverhead => ScriptFault::BadOverhead { line: number },
        RowFault::BadInterrupt => ScriptFault::BadInterrupt { line: number },
        RowFault::OutOfMemory => ScriptFault::OutOfMemory,
    }
}

/// Reads a script. Empty lines and lines that begin with `#` are skipped and counted; the last line may lack its LF.
/// The first faulty line decides.
#[tactic(auto, using(crate::proofs::ScriptLaws::script_next, crate::proofs::ScriptLaws::script_end))]
pub fn read_script(alloc: Global, text: &[u8]) -> Result<Vec<Line>, ScriptFault>
    ensures { MatchResult result
        (λ lines. script_in text.now ≡ Ok lines.items)
        (λ fault. IsFault fault (script_in text.now)) }
{
    let mut lines = Vec::new(alloc);
    let mut opened = 0;
    let mut at = TextPlace::start(text);
    while let Ok((line, after)) = next_kept(at) {
        let row = match read_row(alloc, opened, line.text) {
            Ok(row) => row,
            Err(fault) => return Err(fault_at(line.number, fault)),
        };
        opened = opened_after(opened, &row);
        let number = line.number;
        match lines.push(Line { number, row }) {
            Ok(()) => at = after,
            Err(_) => return Err(ScriptFault::OutOfMemory),
        }
    }
    Ok(lines)
}
