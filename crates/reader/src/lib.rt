//! Reads library text into rows that are handed in.
#![tactic(auto)]

ghost use Rattle.faults.specs.declared.Placed.{Placed};
ghost use Rattle.faults.specs.declared.TextFault.{TextFault};
ghost use Rattle.reader.specs.Text.{Reads};
ghost use Rattle.rows.specs.declared.forms.Row.{Row};
ghost use Rattle.rows.specs.declared.tally.Counts.{Counts};
ghost use Rattle.std.specs.Prelude.{◌≡◌, List, ◌++◌, length, drop, Result};

use faults::{Placed, TextFault};
use rows::{Counts, Row, Tally};

mod forms;
mod keywords;
mod spelled;

/// The most bytes that a text may have.
const MOST_BYTES: usize = 32768;

/// Reads a library text into the rows handed in: a row for each line, and how many rows each section has. The first line
/// at fault is told with the least of its faults. The rows of the lines before it are filled, and every other row stays.
pub fn read(text: &[u8], rows: &mut [Row]) -> Result<Counts, Placed<TextFault>>
    ensures answer_and_rows { (filled : List Row) × Reads (length rows.old) text.now result filled × (rows.new ≡ filled ++ drop (length filled) rows.old) }
    ensures no_other_answer { (answer : Result Counts (Placed TextFault)) (filled : List Row) → Reads (length rows.old) text.now answer filled → (answer ≡ result) × (rows.new ≡ filled ++ drop (length filled) rows.old) }
{
    if text.len() > MOST_BYTES {
        return Err(Placed {
            place: 0,
            fault: TextFault::Limit,
        });
    }
    let mut tally = Tally::new();
    for (count, line) in text.split_inclusive(|byte| *byte == b'\n').enumerate() {
        let place = count as u32 + 1;
        let at_place = |fault| Placed { place, fault };
        let body = line.strip_suffix(b"\n").ok_or(at_place(TextFault::Form))?;
        let room = count < rows.len();
        let admitted = spelled::next_row(body, &rows[..count], tally, room).map_err(at_place)?;
        rows[count] = admitted.row;
        tally = admitted.tally;
    }
    Ok(tally.counts())
}
