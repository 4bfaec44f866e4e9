//! The two head lines of an input: the arithmetic that the first names, and the bounds of play that the second names.
#![tactic(auto)]

ghost use Rattle.heads.specs.Arithmetics.{ArithmeticAnswer};
ghost use Rattle.heads.specs.Lines.{Only};
ghost use Rattle.heads.specs.Plays.{PlayAnswer};
ghost use Rattle.std.specs.Prelude.{[], ◌∷◌, ◌++◌};

mod fields;
mod head_line;
mod keywords;
mod making;
mod settings;

use crate::head_line::head_answer;
use bounds::Bounds;
use faults::PlayFault;
pub use settings::Kind;
use settings::{PlayNumbers, Settings};

/// The arithmetic that the first line names. The line is handed in without its line feed.
pub fn arithmetic_line(line: &[u8]) -> Result<Kind, PlayFault>
    ensures answer { ArithmeticAnswer (line.now ++ (10 ∷ [])) result }
    ensures only_answer { Only (ArithmeticAnswer (line.now ++ (10 ∷ []))) result }
{
    head_answer::<Settings>(line)
}

/// The bounds of play that the second line names. The line is handed in without its line feed.
pub fn play_line(line: &[u8]) -> Result<Bounds, PlayFault>
    ensures answer { PlayAnswer (line.now ++ (10 ∷ [])) result }
    ensures only_answer { Only (PlayAnswer (line.now ++ (10 ∷ []))) result }
{
    head_answer::<PlayNumbers>(line)
}
