//! Words that are fields of a line.
ghost use Rattle.std.specs.Prelude.{◌≡◌, MatchOption, option_map};
ghost use Rattle.scripts.specs.Gives.{GivesRow};
ghost use Rattle.scripts.specs.ScriptWords.{draft_in, head_word, is_over, next_draft, next_field, next_name, next_number, value_or_zero, only_draft, other_in, round, team_in, value_in};

use crate::line::RowFault;
use drafts::Team;
use lines::{Words, cut, name_of, number_of};
use task_sheet::Name;

/// Whether no word is left.
pub(crate) fn is_over(words: &mut Words<'_>) -> bool
    ensures { result ≡ is_over words.old }
{
    words.next().is_none()
}

/// The next word; without it the line is bad.
pub(crate) fn next<'a>(words: &mut Words<'a>) -> Result<&'a [u8], RowFault>
    ensures { GivesRow (λ x. (x.now, words.new)) result (head_word words.old) }
{
    match words.next() {
        Some(word) => Ok(word),
        None => Err(RowFault::Bad),
    }
}

// The number of a draft, where so many were opened.
fn draft_of(opened: usize, word: &[u8]) -> Option<usize>
    ensures { result ≡ draft_in opened word.now }
{
    let number = number_of(word)? as usize;
    if 1 <= number && number <= opened {
        Some(number)
    } else {
        None
    }
}

/// The team of a number.
pub(crate) fn team_of(word: &[u8]) -> Option<Team>
    ensures { result ≡ team_in word.now }
{
    Team::new(number_of(word)?)
}

/// The two parts of a text round a byte that stands in it once.
pub(crate) fn round(text: &[u8], byte: u8) -> Option<(&[u8], &[u8])>
    ensures { MatchOption result (round byte text.now ≡ None)
        (λ x. round byte text.now ≡ Some (x.0.now, x.1.now)) }
{
    let (front, back) = cut(text, byte)?;
    match cut(back, byte) {
        Some((_middle, _more)) => None,
        None => Some((front, back)),
    }
}

// The value of a word `KEY=VALUE`.
fn value_in<'a>(key: &[u8], word: &'a [u8]) -> Option<&'a [u8]>
    ensures { option_map (λ v. v.now) result ≡ value_in key.now word.now }
{
    let (front, value) = round(word, b'=')?;
    if front == key { Some(value) } else { None }
}

/// The value of the field `KEY=VALUE`, if it comes next.
#[tactic(auto, unfolding(crate::specs::ScriptWords::next_field))]
pub(crate) fn next_field<'a>(key: &[u8], words: &mut Words<'a>) -> Option<&'a [u8]>
    ensures { (option_map (λ v. v.now) result, words.new) ≡ next_field key.now words.old }
{
    let value = value_in(key, words.peek()?)?;
    words.next();
    Some(value)
}

/// The number that a value is, and 0 of no value.
pub(crate) fn number_or_zero(value: Option<&[u8]>) -> Result<u64, RowFault>
    ensures { GivesRow (λ x. x) result (value_or_zero (option_map (λ v. v.now) value.entry)) }
{
    let Some(text) = value else {
        return Ok(0);
    };
    number_of(text).ok_or(RowFault::Bad)
}

/// The next word as a number.
#[tactic(auto, unfolding(crate::specs::ScriptWords::next_number))]
pub(crate) fn next_number(words: &mut Words<'_>) -> Result<u64, RowFault>
    ensures { GivesRow (λ x. (x, words.new)) result (next_number words.old) }
{
    number_of(next(words)?).ok_or(RowFault::Bad)
}

/// The next word as a draft, where so many were opened.
#[tactic(auto, unfolding(crate::specs::ScriptWords::next_draft))]
pub(crate) fn next_draft(opened: usize, words: &mut Words<'_>) -> Result<usize, RowFault>
    ensures { GivesRow (λ x. (x, words.new)) result (next_draft opened words.old) }
{
    draft_of(opened, next(words)?).ok_or(RowFault::Bad)
}

/// The next word as a name.
#[tactic(auto, unfolding(crate::specs::ScriptWords::next_name))]
pub(crate) fn next_name(words: &mut Words<'_>) -> Result<Name, RowFault>
    ensures { GivesRow (λ x. (x, words.new)) result (next_name words.old) }
{
    name_of(next(words)?).ok_or(RowFault::Bad)
}

/// The one word that is left as a draft.
#[tactic(auto, unfolding(crate::specs::ScriptWords::only_draft))]
pub(crate) fn only_draft(opened: usize, words: &mut Words<'_>) -> Result<usize, RowFault>
    ensures { GivesRow (λ x. x) result (only_draft opened words.old) }
{
    let draft = next_draft(opened, words)?;
    if is_over(words) {
        Ok(draft)
    } else {
        Err(RowFault::Bad)
    }
}

/// The draft that the last word names; this one where there is no word.
#[tactic(auto, unfolding(crate::specs::ScriptWords::other_in))]
pub(crate) fn other_of(
    opened: usize,
    draft: usize,
    words: &mut Words<'_>,
) -> Result<usize, RowFault>
    ensures { GivesRow (λ x. x) result (other_in opened draft words.old) }
{
    let Some(word) = words.next() else {
        return Ok(draft);
    };
    match draft_of(opened, word) {
        Some(other) if is_over(words) => Ok(other),
        _ => Err(RowFault::Bad),
    }
}
