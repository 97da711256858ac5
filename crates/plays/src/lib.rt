//! Playing a script: the core runs its lines one after the other, and each is answered by a printed line.
#![tactic(auto)]

mod asking;
pub mod laws;
mod playing;
mod printing;

pub use playing::{PlayFault, play_lines};
pub use printing::{book_text, edit_word, ruling_text};
