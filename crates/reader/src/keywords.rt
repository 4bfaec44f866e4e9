//! The words of a library text.
ghost use Rattle.reader.specs.Words.{method_table, method_word, term_table, term_word, type_table, type_word};
ghost use Rattle.std.proofs.Common.{rules};

use text::Keyword;

/// What a type line says of the type.
#[derive(Clone, Copy, PartialEq, Eq, Debug)]
pub enum TypeWord {
    Unit,
    Int,
    Pair,
    Fun,
}

/// What a method line says of the method.
#[derive(Clone, Copy, PartialEq, Eq, Debug)]
pub enum MethodWord {
    Abstract,
    Public,
    Private,
}

/// What a term line says of the term.
#[derive(Clone, Copy, PartialEq, Eq, Debug)]
pub enum TermWord {
    Unit,
    Num,
    Var,
    Meth,
    Get,
    Lam,
    Set,
    Op,
    Pair,
    Fst,
    Snd,
    App,
    If,
    Let,
    Assert,
}

// The bytes of each word of a term, in the order of the words.
const TERM_SPELLINGS: [&[u8]; 15] = [
    b"unit", b"num", b"var", b"meth", b"get", b"lam", b"set", b"op", b"pair", b"fst", b"snd",
    b"app", b"if", b"let", b"assert",
];

impl Keyword for TypeWord {
    ghost spelled = { type_word };

    ghost table = { type_table };

    ghost found = { Prim.search rules };

    // All words of types, in the order of the table.
    fn all<'a>() -> &'a [TypeWord] {
        &[TypeWord::Unit, TypeWord::Int, TypeWord::Pair, TypeWord::Fun]
    }

    // Each word by its bytes.
    fn spelling(self) -> &'static [u8] {
        match self {
            TypeWord::Unit => b"unit",
            TypeWord::Int => b"int",
            TypeWord::Pair => b"pair",
            TypeWord::Fun => b"fun",
        }
    }
}

impl Keyword for MethodWord {
    ghost spelled = { method_word };

    ghost table = { method_table };

    ghost found = { Prim.search rules };

    // All words of methods, in the order of the table.
    fn all<'a>() -> &'a [MethodWord] {
        &[
            MethodWord::Abstract,
            MethodWord::Public,
            MethodWord::Private,
        ]
    }

    // Each word by its bytes.
    fn spelling(self) -> &'static [u8] {
        match self {
            MethodWord::Abstract => b"abstract",
            MethodWord::Public => b"public",
            MethodWord::Private => b"private",
        }
    }
}

impl Keyword for TermWord {
    ghost spelled = { term_word };

    ghost table = { term_table };

    ghost found = { Prim.search rules };

    // All words of terms, in the order of the table.
    fn all<'a>() -> &'a [TermWord] {
        &[
            TermWord::Unit,
            TermWord::Num,
            TermWord::Var,
            TermWord::Meth,
            TermWord::Get,
            TermWord::Lam,
            TermWord::Set,
            TermWord::Op,
            TermWord::Pair,
            TermWord::Fst,
            TermWord::Snd,
            TermWord::App,
            TermWord::If,
            TermWord::Let,
            TermWord::Assert,
        ]
    }

    // Each word by its bytes, looked up in a table: a `match` takes four times as long for each word that is passed over.
    fn spelling(self) -> &'static [u8] {
        TERM_SPELLINGS[self as usize]
    }
}
