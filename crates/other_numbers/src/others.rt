//! Sheets with other numbers, sections and interrupts.
ghost use Rattle.std.specs.Prelude.{◌≡◌, IfOk};
ghost use Rattle.task_sheet.specs.Sheet.{IsValidSheet};
ghost use Rattle.task_sheet.specs.SheetFields.{outranks_of};
ghost use Rattle.other_numbers.specs.Remade.{remade};

use std::alloc::{AllocError, Global};
use task_sheet::{Interrupt, Outranks, Section, Sheet};

/// Sections that say the same. The error is out of memory.
pub fn copy_sections(alloc: Global, sections: &[Section]) -> Result<Vec<Section>, AllocError>
    ensures { IfOk result (λ copies. copies.items ≡ sections.now) }
{
    let mut copies = Vec::with_capacity(alloc, sections.len())?;
    for section in sections {
        let locks = Vec::from_slice(alloc, &section.locks)?;
        copies.push(Section {
            locks,
            at: section.at,
            len: section.len,
        })?;
    }
    Ok(copies)
}

/// Numbers of a sheet, in microseconds.
#[derive(Clone, Copy)]
pub struct Times {
    pub period: u64,
    pub deadline: u64,
    pub cost: u64,
    pub jitter: u64,
}

/// Those of this one.
pub fn times_of(sheet: &Sheet) -> Times
    ensures { result ≡ record { period = sheet.now.period; deadline = sheet.now.deadline; cost = sheet.now.cost; jitter = sheet.now.jitter } }
{
    Times {
        period: sheet.period(),
        deadline: sheet.deadline(),
        cost: sheet.cost(),
        jitter: sheet.jitter(),
    }
}

/// The sheet with other numbers, sections and interrupts. The tasks above which it must stand are those of the sheet.
pub fn remade(
    sheet: &Sheet,
    times: Times,
    sections: Vec<Section>,
    outranks: Outranks,
    interrupts: Vec<Interrupt>,
) -> Sheet
    requires may { IsValidSheet (remade sheet.now times.period times.deadline times.cost times.jitter sections.items interrupts.items) }
    requires outranks { outranks_of outranks ≡ sheet.now.outranks }
    ensures { result ≡ remade sheet.now times.period times.deadline times.cost times.jitter sections.items interrupts.items }
{
    let Ok(other) = Sheet::new(
        sheet.name(),
        sheet.weight(),
        times.period,
        times.deadline,
        times.cost,
        sections,
    ) else {
        unreachable!()
    };
    let Ok(other) = other.jittered(times.jitter) else {
        unreachable!()
    };
    match other.outranking(outranks) {
        Ok(other) => other.of_node(sheet.node()).interrupted(interrupts),
        Err(_) => unreachable!(),
    }
}
