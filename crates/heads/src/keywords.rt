//! The words by which a first line names the kinds of arithmetic.
ghost use Rattle.heads.specs.Words.{kind_table, kind_word};
ghost use Rattle.std.proofs.Common.{rules};

use text::Keyword;

/// A kind of arithmetic, without its settings.
#[derive(Clone, Copy, PartialEq, Eq, Debug)]
pub enum KindWord {
    Word,
    Counter,
}

impl Keyword for KindWord {
    ghost spelled = { kind_word };

    ghost table = { kind_table };

    ghost found = { Prim.search rules };

    // The kinds in the order of the table.
    fn all<'a>() -> &'a [KindWord] {
        &[KindWord::Word, KindWord::Counter]
    }

    // Each kind by its bytes.
    fn spelling(self) -> &'static [u8] {
        match self {
            KindWord::Word => b"word",
            KindWord::Counter => b"counter",
        }
    }
}
