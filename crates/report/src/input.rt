//! The answer to a whole input: the two head lines, then the library.
ghost use Rattle.report.specs.Input.{InputAnswer, LibraryAnswer, most_rows};
ghost use Rattle.report.specs.Results.{HeadPassed, HeadRefused, IfAnswered, NearRows, TextOutcome, fault_in_input};
ghost use Rattle.std.specs.Fn.{FnOnceReturnsAt};
ghost use Rattle.std.specs.Prelude.{◌≡◌, ℕ, ◌+◌, ◌≤◌, List, IfErr, MatchResult, length};

use super::refusal::InputFault;
use faults::{Placed, PlayFault, TextFault};
use heads::{arithmetic_line, play_line};
use library::{Library, MountFault};
use reader::read;
use rows::{Counts, Row};
use std::alloc::Global;
use text::first_line;

// The most rows that a library may have: the limits of all sections together.
const MOST_ROWS: usize = 1232;

// The fault of a library with its line in the whole input: two lines come before it, and 0 stays 0. It is no `From`, since it
// moves the line.
fn in_whole_input(fault: MountFault) -> InputFault
    requires few_lines { NearRows fault }
    ensures two_lines_later { result ≡ fault_in_input fault }
{
    match fault {
        MountFault::Refused(found) => {
            let place = if found.place == 0 { 0 } else { found.place + 2 };
            let fault = found.fault.into();
            InputFault::Refused(Placed { place, fault })
        }
        MountFault::Memory => InputFault::Memory,
    }
}

// How many rows were read.
fn row_count(counts: Counts) -> usize
    requires few_rows { counts.types + counts.variables + counts.methods + counts.globals + counts.terms ≤ most_rows }
    ensures all_sections { result ≡ counts.types + counts.variables + counts.methods + counts.globals + counts.terms }
{
    let Counts {
        types,
        variables,
        methods,
        globals,
        terms,
    } = counts;
    (types + variables + methods + globals + terms) as usize
}

// Reads the text of a library and mounts its rows.
fn read_and_mount(heap: Global, text: &[u8], rows: &mut [Row]) -> Result<Counts, MountFault>
    requires enough_rows { length rows.old ≡ most_rows }
    ensures counts_or_first_fault { TextOutcome text.now result }
    ensures near_rows { IfErr result NearRows }
{
    let counts = read(text, rows).map_err(|found| MountFault::Refused(found.into()))?;
    let mut library = Library::empty(heap);
    library.mount(&rows[..row_count(counts)])?;
    Ok(counts)
}

// The answer to a library, over rows enough for every one.
fn library_answer(heap: Global, text: &[u8], rows: &mut [Row]) -> Result<Counts, InputFault>
    requires enough_rows { length rows.old ≡ most_rows }
    ensures answer { IfAnswered result (LibraryAnswer text.now) }
{
    read_and_mount(heap, text, rows).map_err(in_whole_input)
}

// The text after a head line that its reader takes.
fn after_head<T: Drop, F: FnOnce(&[u8]) -> Result<T, PlayFault>>(
    text: &[u8],
    place: u32,
    line_reader: F,
) -> Result<&[u8], Placed<PlayFault>>
    requires callable { F.IsAlwaysCallable line_reader }
    ensures rest_or_fault { MatchResult result (λ rest. HeadPassed (FnOnceReturnsAt F.FnOnce line_reader) text.now rest.now) (HeadRefused (FnOnceReturnsAt F.FnOnce line_reader) place text.now) }
{
    let formless = PlayFault::Text(TextFault::Form);
    if text.is_empty() {
        return Err(Placed {
            place: 0,
            fault: formless,
        });
    }
    let (line, rest) = first_line(text).ok_or(Placed {
        place,
        fault: formless,
    })?;
    line_reader(line).map_err(|fault| Placed { place, fault })?;
    Ok(rest)
}

// The answer to a whole input.
pub(crate) fn answer(heap: Global, input: &[u8]) -> Result<Counts, InputFault>
    ensures answer { IfAnswered result (InputAnswer input.now) }
{
    let rest = after_head(input, 1, arithmetic_line)?;
    let library = after_head(rest, 2, play_line)?;
    let mut rows = vec![in heap; Row::Variable(0, 0); MOST_ROWS]?;
    library_answer(heap, library, &mut rows)
}
