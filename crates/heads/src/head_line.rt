//! A head line of any kind, and how it is answered.
ghost use Rattle.faults.specs.declared.PlayFault.{PlayFault};
ghost use Rattle.heads.specs.Heads.{ByFields};
ghost use Rattle.std.specs.Prelude.{◌≡◌, ℕ, Bool, List, Option, Result};
ghost use Rattle.text.specs.Remaining.{remaining};

use crate::fields::line_fields;
use faults::{PlayFault, TextFault};
use text::Fields;

// The numbers that a head line gives, whatever the limits of what is made of them.
pub(crate) trait HeadLine: Copy {
    // What is made of the numbers within its limits.
    type Made;

    ghost form: { List (List ℕ) → Bool };

    ghost read: { List (List ℕ) → Option Self };

    ghost making: { Self → Result Self.Made PlayFault → Type 0 };

    // Whether the fields of a line have its form, whatever stands where numbers belong.
    fn formed(fields: Fields) -> bool
        ensures value { result ≡ form (remaining fields.entry) };

    // The numbers that the fields spell.
    fn in_fields(fields: Fields) -> Option<Self>
        ensures value { result ≡ read (remaining fields.entry) };

    // What is made of just these numbers.
    fn make(self) -> Result<Self::Made, PlayFault>
        ensures made_within_limits_only { making self result };
}

// What is made of the numbers of a line, which is handed in without its line feed.
pub(crate) fn head_answer<H: HeadLine>(line: &[u8]) -> Result<H::Made, PlayFault>
    ensures answer_by_fields { ByFields H.form H.read H.making line.now result }
{
    let fields = line_fields(line)
        .filter(|fields| H::formed(*fields))
        .ok_or(TextFault::Form)?;
    H::in_fields(fields).ok_or(TextFault::Number)?.make()
}
