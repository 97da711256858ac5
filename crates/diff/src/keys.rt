//! What two sheets of one name say differently.
ghost use Rattle.std.specs.Prelude.{◌≡◌, ◌++◌, ◌<◌, ◌≤◌, length, OnOk, Some, slice_get, string_bytes};
ghost use Rattle.task_sheet.specs.SheetFields.{outranks_of};
ghost use Rattle.diff.specs.Keys.{first_words, is_changed, keys_words, other_outranks, other_section, other_sections, other_weight, other_words, outranks_word, outranks_words, plus_names, plus_rest, section_word, section_words, words_below};
ghost use Rattle.task_sheet.specs.declared.sheet.TheConstants.{SECTION_LIMIT};

use crate::own::{own_at, own_cost, own_jitter, own_len};
use crate::pairs::push_number;
use std::alloc::AllocError;
use task_sheet::{Name, Outranks, SECTION_LIMIT, Section, Sheet};

// The weights differ, where weights count.
fn other_weight(weighs: bool, old: &Sheet, new: &Sheet) -> bool
    ensures { result ≡ other_weight weighs old.now new.now }
{
    weighs && old.weight() != new.weight()
}

// The sections at a place differ.
fn other_section(old: &Sheet, new: &Sheet, place: usize) -> bool
    ensures { result ≡ other_section old.now new.now place }
{
    match (old.sections().get(place), new.sections().get(place)) {
        (Some(was), Some(is)) => {
            !(was.locks.as_slice() == is.locks.as_slice())
                || own_at(old, place, was) != own_at(new, place, is)
                || own_len(old, was) != own_len(new, is)
        }
        (None, None) => false,
        _ => true,
    }
}

// Some do.
fn other_sections(old: &Sheet, new: &Sheet) -> bool
    ensures { result ≡ other_sections old.now new.now }
{
    for place in 0..SECTION_LIMIT {
        if other_section(old, new, place) {
            return true;
        }
    }
    false
}

fn other_outranks(old: &Sheet, new: &Sheet) -> bool
    ensures { result ≡ other_outranks old.now new.now }
{
    !old.outranks().is_same(new.outranks())
}

/// The sheets say something else, beside their names. A weight does only where weights count.
#[tactic(auto, unfolding(crate::specs::Keys::is_changed))]
pub(crate) fn is_changed(weighs: bool, old: &Sheet, new: &Sheet) -> bool
    ensures { result ≡ is_changed weighs old.now new.now }
{
    other_weight(weighs, old, new)
        || old.period() != new.period()
        || old.deadline() != new.deadline()
        || own_cost(old) != own_cost(new)
        || other_sections(old, new)
        || own_jitter(old) != own_jitter(new)
        || other_outranks(old, new)
}

// Names, each behind a sign `+`.
fn push_rest(text: &mut String, names: &[Name]) -> Result<(), AllocError>
    ensures { OnOk result (string_bytes text.new ≡ string_bytes text.old ++ plus_rest names.now) }
{
    for name in names {
        write!(text, "+{name}")?;
    }
    Ok(())
}

// Names with a sign `+` between each two, or `-` for none.
fn push_names(text: &mut String, names: &[Name]) -> Result<(), AllocError>
    ensures { OnOk result (string_bytes text.new ≡ string_bytes text.old ++ plus_names names.now) }
{
    let Some((first, rest)) = names.split_first() else {
        return text.push_str("-");
    };
    write!(text, "{first}")?;
    push_rest(text, rest)
}

// A section at a place.
fn push_section_at(
    text: &mut String,
    sheet: &Sheet,
    place: usize,
    section: &Section,
) -> Result<(), AllocError>
    requires { place ≤ length sheet.now.sections }
    ensures { OnOk result (string_bytes text.new ≡ string_bytes text.old
        ++ section_word sheet.now place (Some section.now)) }
{
    let at = own_at(sheet, place, section);
    let len = own_len(sheet, section);
    push_names(text, &section.locks)?;
    write!(text, "@{at}:{len}")
}

// The same, or `-` for none.
fn push_section(text: &mut String, sheet: &Sheet, place: usize) -> Result<(), AllocError>
    ensures { OnOk result (string_bytes text.new ≡ string_bytes text.old
        ++ section_word sheet.now place (slice_get sheet.now.sections place)) }
{
    match sheet.sections().get(place) {
        None => text.push_str("-"),
        Some(section) => push_section_at(text, sheet, place, section),
    }
}

// Those at a place, where they differ.
fn push_two_sections(
    text: &mut String,
    old: &Sheet,
    new: &Sheet,
    place: usize,
) -> Result<(), AllocError>
    requires { place < SECTION_LIMIT }
    ensures { OnOk result (string_bytes text.new ≡ string_bytes text.old
        ++ section_words old.now new.now place) }
{
    if !other_section(old, new, place) {
        return Ok(());
    }
    let number = place + 1;
    write!(text, " section {number} ")?;
    push_section(text, old, place)?;
    text.push_str(" ")?;
    push_section(text, new, place)
}

// Those at each place where they differ.
fn push_sections(text: &mut String, old: &Sheet, new: &Sheet) -> Result<(), AllocError>
    ensures { OnOk result (string_bytes text.new ≡ string_bytes text.old
        ++ words_below SECTION_LIMIT (section_words old.now new.now)) }
{
    for place in 0..SECTION_LIMIT {
        push_two_sections(text, old, new, place)?;
    }
    Ok(())
}

// The tasks that must be outranked, or `-` for none, or `*` for all others.
fn push_outranked(text: &mut String, outranks: &Outranks) -> Result<(), AllocError>
    ensures { OnOk result (string_bytes text.new ≡ string_bytes text.old
        ++ outranks_word (outranks_of outranks.now)) }
{
    match outranks {
        Outranks::Named(names) => push_names(text, names),
        Outranks::AllOthers => text.push_str("*"),
    }
}

// Those, where they differ.
fn push_outranks(text: &mut String, old: &Sheet, new: &Sheet) -> Result<(), AllocError>
    ensures { OnOk result (string_bytes text.new ≡ string_bytes text.old
        ++ outranks_words old.now new.now) }
{
    if !other_outranks(old, new) {
        return Ok(());
    }
    text.push_str(" outranks ")?;
    push_outranked(text, old.outranks())?;
    text.push_str(" ")?;
    push_outranked(text, new.outranks())
}

// Those of weight, period, deadline and cost in which the sheets differ.
fn push_first(text: &mut String, weighs: bool, old: &Sheet, new: &Sheet) -> Result<(), AllocError>
    ensures { OnOk result (string_bytes text.new ≡ string_bytes text.old
        ++ first_words weighs old.now new.now) }
{
    let weights = (old.weight(), new.weight());
    let periods = (old.period(), new.period());
    let deadlines = (old.deadline(), new.deadline());
    let costs = (own_cost(old), own_cost(new));
    push_number(
        text,
        "weight",
        other_weight(weighs, old, new),
        weights.0,
        weights.1,
    )?;
    push_number(text, "period", periods.0 != periods.1, periods.0, periods.1)?;
    push_number(
        text,
        "deadline",
        deadlines.0 != deadlines.1,
        deadlines.0,
        deadlines.1,
    )?;
    push_number(text, "cost", costs.0 != costs.1, costs.0, costs.1)
}

// Those of the others.
fn push_others(text: &mut String, old: &Sheet, new: &Sheet) -> Result<(), AllocError>
    ensures { OnOk result (string_bytes text.new ≡ string_bytes text.old
        ++ other_words old.now new.now) }
{
    let jitters = (own_jitter(old), own_jitter(new));
    push_sections(text, old, new)?;
    push_number(text, "jitter", jitters.0 != jitters.1, jitters.0, jitters.1)?;
    push_outranks(text, old, new)
}

/// The keys in which the sheets differ, each with what was and what is.
#[tactic(auto, unfolding(crate::specs::Keys::keys_words))]
pub(crate) fn push_keys(
    text: &mut String,
    weighs: bool,
    old: &Sheet,
    new: &Sheet,
) -> Result<(), AllocError>
    ensures { OnOk result (string_bytes text.new ≡ string_bytes text.old
        ++ keys_words weighs old.now new.now) }
{
    text.push_str(" keys")?;
    push_first(text, weighs, old, new)?;
    push_others(text, old, new)
}
