//! The words by which a text names the operations.
ghost use Rattle.arithmetic.specs.Words.{operation_table, operation_word};
ghost use Rattle.std.proofs.Common.{rules};

use super::Operation;
use text::Keyword;

impl Keyword for Operation {
    ghost spelled = { operation_word };

    ghost table = { operation_table };

    ghost found = { Prim.search rules };

    // All operations.
    fn all<'a>() -> &'a [Operation] {
        &[
            Operation::Add,
            Operation::Sub,
            Operation::Mul,
            Operation::Less,
            Operation::Equal,
        ]
    }

    // Each operation by its bytes.
    fn spelling(self) -> &'static [u8] {
        match self {
            Operation::Add => b"add",
            Operation::Sub => b"sub",
            Operation::Mul => b"mul",
            Operation::Less => b"less",
            Operation::Equal => b"equal",
        }
    }
}
