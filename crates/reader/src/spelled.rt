//! The row that a line spells, tried against the rows before it.
ghost use Rattle.faults.specs.declared.TextFault.TheVariants.{Form, Number};
ghost use Rattle.reader.specs.Fields.{has_form, row_of};
ghost use Rattle.reader.specs.Text.{LineFault, Spells};
ghost use Rattle.rows.specs.Faults.{Least, NoneOf, RowFault};
ghost use Rattle.rows.specs.Tallies.{Tallied};
ghost use Rattle.std.specs.Prelude.{◌≡◌, true, false, ◌⊎◌, List, [], ◌∷◌, ◌++◌, Some, None, MatchResult};
ghost use Rattle.text.specs.Reading.{cut};
ghost use Rattle.text.specs.Slots.{Lacks};

use super::forms::{form_of, has_form};
use faults::TextFault;
use rows::{Row, Section, Tally};
use text::Fields;

// The row that a line spells, which is handed in without its line feed.
fn spelled_row(line: &[u8]) -> Result<Row, TextFault>
    ensures by_fields { MatchResult result (λ row. (has_form (cut line.now) ≡ true) × (row_of (cut line.now) ≡ Some row)) (λ f. ((f ≡ Form) × (has_form (cut line.now) ≡ false)) ⊎ ((f ≡ Number) × (has_form (cut line.now) ≡ true) × (row_of (cut line.now) ≡ None))) }
{
    let fields = Fields::of(line);
    if !has_form::<Section>(fields) {
        return Err(TextFault::Form);
    }
    form_of::<Section>(fields).ok_or(TextFault::Number)
}

// A row without fault, and the tally of the rows up to it.
#[derive(Clone, Copy)]
pub(crate) struct Admitted {
    pub(crate) row: Row,
    pub(crate) tally: Tally,
}

// The row that a line spells after the rows before, with the tally of them all.
pub(crate) fn next_row(
    line: &[u8],
    before: &[Row],
    tally: Tally,
    room: bool,
) -> Result<Admitted, TextFault>
    requires one_line { Lacks 10 line.now }
    requires tally_of_before { Tallied before.now tally.counts tally.leaves }
    ensures least_fault_or_row { MatchResult result (λ p. Spells (line.now ++ (10 ∷ [])) p.row × NoneOf (RowFault room before.now p.row) × Tallied (before.now ++ (p.row ∷ [])) p.tally.counts p.tally.leaves) (λ f. Least (LineFault room before.now (line.now ++ (10 ∷ []))) f) }
{
    let row = spelled_row(line)?;
    let tally = tally.admit(before, room, row)?;
    Ok(Admitted { row, tally })
}
