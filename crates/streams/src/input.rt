//! Reading inputs whole.
ghost use Rattle.std.specs.Prelude.{◌≡◌, ◌+◌, ◌≤◌, true, false, Err, IfOk};
ghost use Rattle.std.specs.Io.KnownBytes.{IsAtEnd};
ghost use Rattle.streams.specs.Inputs.{AreTurnsSpent, IsDisturbed, IsLonger, IsReadUpTo, IsWithinTurns, turns_for};
ghost use Rattle.streams.specs.declared.input.TheConstants.{TRACE_LIMIT, TURN_LIMIT};

use crate::watched::{ReadFault, Watched};
use std::alloc::Global;
use std::io::Read;

/// The most bytes that an input has but a trace.
pub const INPUT_LIMIT: usize = 16_777_216;

/// The most bytes that a trace has, of some hours.
pub const TRACE_LIMIT: usize = 1_073_741_824;

// The most reads that any input takes, interrupted ones among them: those of a trace.
const TURN_LIMIT: usize = 2_147_483_650;

// The most bytes that one read takes.
const CHUNK: usize = 16_384;

/// Why an input was not read.
#[derive(Clone, Copy)]
pub enum InputFault {
    /// It has more bytes than it may have.
    TooLong,
    /// An allocation was refused.
    OutOfMemory,
    /// A read failed, or reads were interrupted until no turn was left.
    ReadFailed,
}

// The most reads that an input of so many bytes takes: twice as many as these and their end need at most.
fn turns_for(most: usize) -> usize
    requires { most ≤ TRACE_LIMIT }
    ensures is { result ≡ turns_for most }
    ensures within { result ≤ TURN_LIMIT }
{
    2 * (most + 1)
}

/// Reads all that the reader has, up to so many bytes, in at most twice as many reads as these and their end need. A failed
/// read is answered at once; an interrupted one is tried again, until no turn is left.
pub fn read_input<R: Read + Drop>(
    alloc: Global,
    reader: &mut Watched<R>,
    most: usize,
) -> Result<Vec<u8>, InputFault>
    requires { most ≤ TRACE_LIMIT }
    ensures whole { IfOk result (λ bytes. IsReadUpTo most (R.remaining reader.old.inner) bytes.items) }
    ensures too_long { result ≡ Err InputFault.TooLong → IsLonger most (R.remaining reader.old.inner) }
    ensures failed { result ≡ Err InputFault.ReadFailed → IsDisturbed reader.new }
    ensures answered { reader.old.has_failed ≡ false → reader.new.has_failed ≡ true
        → result ≡ Err InputFault.ReadFailed }
    ensures tried_again { result ≡ Err InputFault.ReadFailed → reader.new.has_failed ≡ false
        → AreTurnsSpent most reader.old reader.new }
    ensures ended { IfOk result (λ _. IsAtEnd (R.remaining reader.new.inner)) }
    ensures turns { IsWithinTurns reader.old reader.new }
    ensures own_turns { reader.new.reads ≤ reader.old.reads + turns_for most }
{
    let mut bytes = Vec::new(alloc);
    let mut chunk = [0; CHUNK];
    for _ in 0..turns_for(most) {
        match reader.read(&mut chunk) {
            Ok(0) => return Ok(bytes),
            Ok(count) => {
                if count > most - bytes.len() {
                    return Err(InputFault::TooLong);
                }
                if bytes.extend_from_slice(&chunk[..count]).is_err() {
                    return Err(InputFault::OutOfMemory);
                }
            }
            Err(ReadFault::Failed) => return Err(InputFault::ReadFailed),
            Err(ReadFault::Interrupted) => {}
        }
    }
    Err(InputFault::ReadFailed)
}
