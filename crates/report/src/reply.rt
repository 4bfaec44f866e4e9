//! How the answer to an input is printed.
ghost use Rattle.report.specs.Output.{answer_line};
ghost use Rattle.std.specs.Prelude.{Some};

use faults::{Placed, PlayFault};
use rows::Counts;
use std::fmt;

/// The answer to an input, printed as one line.
#[derive(Clone, Copy)]
pub(crate) struct Reply(pub(crate) Result<Counts, Placed<PlayFault>>);

impl fmt::Display for Reply {
    ghost output = { λ reply. Some (answer_line reply.0) };

    // The count of each section, or the number of the fault and its line.
    fn fmt<W: fmt::Write>(&self, f: &mut fmt::Formatter<W>) -> fmt::Result {
        match self.0 {
            Ok(
                Counts {
                    types,
                    variables,
                    methods,
                    globals,
                    terms,
                },
            ) => writeln!(f, "mounted,{types},{variables},{methods},{globals},{terms}"),
            Err(Placed { place, fault }) => {
                let number = fault.number();
                writeln!(f, "refused,{number},{place}")
            }
        }
    }
}
