//! What is said of faults by their numbers.
ghost use Rattle.std.specs.Prelude.{◌≡◌, Some, Any, IfOk, IfSome, IfNone, flat_map, string_bytes};
ghost use Rattle.fault_reports.specs.Explained.{AreAskedFor, Explains, HasNoRow, IsRowOf, row_text};

use crate::reports::{end_with, report_fault, report_usage, write_and_flush};
use batch_inputs::fault_of_run;
use std::alloc::{AllocError, Global};
use std::fmt;
use text_lines::{MEMORY, RoadWrite};

/// What is said of a number that is no fault's.
const NO_SUCH_FAULT: &[u8] = b"error: no fault has this number; `diffuse faults` lists them\n";

/// What is known of a fault.
#[derive(Clone, Copy, Debug)]
pub struct FaultRow {
    /// Its number.
    pub number: u8,
    /// What it says.
    pub meaning: &'static str,
    /// An input or a command that has it.
    pub example: &'static str,
    /// What it usually comes from, and what helps.
    pub cause: &'static str,
}

impl fmt::Display for FaultRow {
    ghost output = { λ row. Some (row_text row) };

    fn fmt<W: fmt::Write>(&self, f: &mut fmt::Formatter<W>) -> fmt::Result {
        let number = self.number;
        let meaning = self.meaning;
        let example = self.example;
        let cause = self.cause;
        write!(
            f,
            "fault {number}: {meaning}\n  example: {example}\n  cause: {cause}\n"
        )
    }
}

/// The row of a number in a table, if there is one.
fn row_of(table: &[FaultRow], number: u64) -> Option<FaultRow>
    ensures found { IfSome result (IsRowOf table.now number) }
    ensures missing { IfNone result (HasNoRow table.now number) }
{
    table
        .iter()
        .find(|row| u64::from(row.number) == number)
        .copied()
}

/// The rows that are asked for: those of these numbers, in this order, and without a number all.
/// None if a number has no row.
fn rows_for(
    alloc: Global,
    table: &[FaultRow],
    numbers: &[u64],
) -> Result<Option<Vec<FaultRow>>, AllocError>
    ensures rows { IfOk result (λ found.
        IfSome found (λ rows. AreAskedFor table.now numbers.now rows.items)) }
    ensures unknown { IfOk result (λ found. IfNone found (Any (HasNoRow table.now) numbers.now)) }
{
    if numbers.is_empty() {
        return Ok(Some(Vec::from_slice(alloc, table)?));
    }
    let mut rows = Vec::new(alloc);
    for number in numbers {
        let Some(row) = row_of(table, *number) else {
            return Ok(None);
        };
        rows.push(row)?;
    }
    Ok(Some(rows))
}

/// The lines of some rows.
fn text_of_rows(alloc: Global, rows: &[FaultRow]) -> Result<String, AllocError>
    ensures { IfOk result (λ text. string_bytes text ≡ flat_map row_text rows.now) }
{
    let mut text = String::new(alloc);
    for row in rows {
        let lines = format!(in alloc; "{row}")?;
        text.push_str(lines.as_str())?;
    }
    Ok(text)
}

/// Writes the rows of these numbers in a table, in this order, and without a number all; and gives
/// the exit status. A number without a row is a usage fault.
pub fn explain<W: RoadWrite, E: RoadWrite>(
    alloc: Global,
    table: &[FaultRow],
    numbers: &[u64],
    out: &mut W,
    errors: &mut E,
) -> u8
    ensures { Explains table.now numbers.now (W.seen out.old) (W.seen out.new) (E.seen errors.old)
        (E.seen errors.new) result }
{
    let rows = match rows_for(alloc, table, numbers) {
        Ok(Some(rows)) => rows,
        Ok(None) => return report_usage(errors, NO_SUCH_FAULT),
        Err(_) => return report_fault(errors, fault_of_run(MEMORY)),
    };
    let Ok(text) = text_of_rows(alloc, rows.as_slice()) else {
        return report_fault(errors, fault_of_run(MEMORY));
    };
    let outcome = write_and_flush(out, text.as_str().as_bytes());
    end_with(errors, outcome)
}
