//! Whether a set's text asks that the set have no doubt.
ghost use Rattle.std.specs.Prelude.{◌≡◌, Ok, Err, IfOk};
ghost use Rattle.teams.specs.NodeDocument.{ReadsNodeDocument};
ghost use Rattle.teams.specs.Strictness.{SaysStrict};

use crate::gathering::node_part;
use crate::node::{NodeDocument, NodeFault, read_document};
use crate::text::is_gathered;
use std::alloc::{AllocError, Global};

/// Whether a set's text asks that the set have no doubt: the node's document does, in front of those of teams, by
/// `strict = true`. The error is out of memory.
pub fn is_strict(alloc: Global, text: &[u8]) -> Result<bool, AllocError>
    ensures { IfOk result (λ s. SaysStrict text.now s) }
{
    if !is_gathered(text) {
        return Ok(false);
    }
    let Some((node, _after)) = node_part(text) else {
        return Ok(false);
    };
    match read_document(alloc, node) {
        Ok(document) => Ok(document.is_strict),
        Err(NodeFault::OutOfMemory) => Err(AllocError),
        Err(_) => Ok(false),
    }
}
