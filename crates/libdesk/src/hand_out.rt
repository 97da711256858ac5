//! Handing out what a command has printed.
ghost use Rattle.std.specs.Prelude.{◌≡◌, ◌≢◌, length};
ghost use Rattle.answering.specs.Statuses.{code_of};
ghost use Rattle.libdesk.specs.Answers.{Fills, GivesUp};

use desk_cli::Status;
use streams::Watched;

// Writes a text to the start of the room, if it fits, and gives its length.
fn fill(room: &mut [u8], text: &[u8]) -> usize
    ensures room { Fills text.now room.old room.new }
    ensures count { result ≡ length text.now }
{
    let count = text.len();
    if count <= room.len() {
        room[..count].copy_from_slice(text);
    }
    count
}

// Hands out what a command has printed and its status, or gives up where the vector could not grow.
pub(crate) fn hand_out(
    ended: Status,
    output: Watched<Vec<u8>>,
    room: &mut [u8],
    status: &mut u8,
) -> usize
    ensures given { ended ≢ Status.InputOrOutputFailed → Fills output.inner.items room.old room.new
        × (result ≡ length output.inner.items) × (status.new ≡ code_of ended) }
    ensures gave_up { ended ≡ Status.InputOrOutputFailed
        → GivesUp room.old room.new result status.new }
{
    match ended {
        Status::InputOrOutputFailed => {
            *status = Status::OutOfMemory.code();
            0
        }
        _ => {
            *status = ended.code();
            fill(room, &output.into_inner())
        }
    }
}
