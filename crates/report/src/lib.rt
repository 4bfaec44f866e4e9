//! The answer to a whole input, as the bytes to print.
#![tactic(auto)]

ghost use Rattle.report.specs.Input.{Answer, InputAnswer};
ghost use Rattle.report.specs.Output.{answer_line};
ghost use Rattle.std.specs.Prelude.{◌≡◌, IfOk, string_bytes};

use crate::refusal::InputFault;
use crate::reply::Reply;
use std::alloc::{AllocError, Global};

mod input;
mod refusal;
mod reply;

/// The line to print for an input of two head lines and a library: how many rows of each section were read and mounted, or
/// the number of the first fault with its line in the whole input. Fails only for want of memory.
pub fn report(heap: Global, input: &[u8]) -> Result<String, AllocError>
    ensures line_of_the_answer { IfOk result (λ line. (answer : Answer) × InputAnswer input.now answer × (string_bytes line ≡ answer_line answer)) }
    ensures of_every_answer { IfOk result (λ line. (answer : Answer) → InputAnswer input.now answer → string_bytes line ≡ answer_line answer) }
{
    let answer = match input::answer(heap, input) {
        Ok(counts) => Ok(counts),
        Err(InputFault::Refused(placed)) => Err(placed),
        Err(InputFault::Memory) => return Err(AllocError),
    };
    Reply(answer).to_string(heap)
}
