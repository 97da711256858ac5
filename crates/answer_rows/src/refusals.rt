//! The lines of refusals.
use answering::{CommandRefusal, RushFault, Status, refuse};
use std::alloc::Global;
use std::test::Fail;
use streams::Watched;

// The line of a refusal, where its status is that of a want of memory.
fn line_of(alloc: Global, refusal: CommandRefusal) -> Result<String, Fail> {
    let mut output = Watched::new(Vec::new(alloc));
    if refuse(refusal, &mut output) != Status::OutOfMemory {
        return Err("this status")?;
    }
    Ok(String::from_utf8(output.into_inner())?)
}

// What went wrong in a rush, and its line.
const LINES: [(RushFault, &str); 5] = [
    (RushFault::OutOfMemory, "refused: OutOfMemory\n"),
    (RushFault::ThreadRefused, "refused: ThreadRefused\n"),
    (RushFault::Foreign, "refused: Foreign\n"),
    (RushFault::Behind, "refused: Behind\n"),
    (RushFault::ReceiptMismatch, "refused: ReceiptMismatch\n"),
];

#[test]
fn lines_of_a_rush(rt: HostRuntime) -> Result<(), Fail> {
    for (fault, want) in LINES {
        let line = line_of(rt.alloc(), CommandRefusal::Rush(fault))?;
        assert_eq!(rt; line.as_str(), want);
    }
    Ok(())
}
