//! Rows that are tried one by one for the faults of a text.
ghost use Rattle.std.specs.Prelude.{true, [], ◌∷◌, ◌++◌, Err, MatchResult};
ghost use Rattle.library.specs.Mounting.{Mounts};
ghost use Rattle.rows.specs.Faults.{Faultless, Least, NoneOf, RowFault};
ghost use Rattle.rows.specs.Tallies.{Tallied};

use super::refusal::{MountFault, fault_of_row};
use faults::TextFault;
use rows::{Row, Tally};

// Tries a row after the rows before it, of which there is a tally.
fn admit(tally: Tally, before: &[Row], row: Row) -> Result<Tally, TextFault>
    requires tally_of_before { Tallied before.now tally.counts tally.leaves }
    ensures least_fault_or_one_more { MatchResult result (λ t. NoneOf (RowFault true before.now row) × Tallied (before.now ++ (row ∷ [])) t.counts t.leaves) (λ fault. Least (RowFault true before.now row) fault) }
{
    if !row.in_range() {
        return Err(TextFault::Number);
    }
    tally.admit(before, true, row)
}

// Tries all rows: their tally, or the first fault.
pub(crate) fn admit_all(rows: &[Row]) -> Result<Tally, MountFault>
    ensures tally_or_first_fault { MatchResult result (λ t. Faultless rows.now × Tallied rows.now t.counts t.leaves) (λ fault. Mounts rows.now (Err fault)) }
{
    let mut tally = Tally::new();
    for (place, row) in rows.iter().enumerate() {
        tally = admit(tally, &rows[..place], *row).map_err(move |fault| fault_of_row(
            place,
            fault.into(),
        ))?;
    }
    Ok(tally)
}
