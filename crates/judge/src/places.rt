//! The places of an order that passes.
ghost use Rattle.std.specs.Prelude.{◌≡◌, IfOk, IfSome, None, false};
ghost use Rattle.judge.specs.Judgements.{all_meet, judged_of};

use crate::judging::{JudgedTask, Judgement};
use assignment::Place;
use std::alloc::{AllocError, Global};

/// Each task of an order with its response, the lowest first, where all meet their deadlines. The error is out of memory.
pub fn places_of(alloc: Global, judged: &[JudgedTask]) -> Result<Option<Vec<Place>>, AllocError>
    ensures meet { IfOk result (λ found. IfSome found (λ places. judged.now ≡ judged_of places.items)) }
    ensures miss { IfOk result (λ found. found ≡ None → all_meet judged.now ≡ false) }
{
    let mut places = Vec::with_capacity(alloc, judged.len())?;
    for entry in judged {
        let Judgement::Meets { response } = entry.judgement else {
            return Ok(None);
        };
        places.push(Place {
            task: entry.task,
            response,
        })?;
    }
    Ok(Some(places))
}
