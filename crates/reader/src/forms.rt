//! The row that the fields of a line spell.
ghost use Rattle.reader.specs.Fields.{at_end, formed_from, method_counted, method_parts, numbered_formed, operation_counted, operation_parts, parts_formed, row_parts, section_formed, section_parts, spelled_from, term_parts, type_counted, type_parts};
ghost use Rattle.text.specs.Remaining.{remaining};
ghost use Rattle.std.specs.Prelude.{◌≡◌, ℕ, Bool, List, Option};

use super::keywords::{MethodWord, TermWord, TypeWord};
use arithmetic::Operation;
use rows::{MethodForm, Row, Section, TermForm, TypeForm};
use text::{Fields, Keyword, keyword_of, number};

// A keyword that begins a form, whose parts are the fields after it.
pub(crate) trait FormWord: Keyword {
    // What the keyword and its parts spell.
    type Form;

    ghost made: { Self → List (List ℕ) → Option Self.Form };

    ghost fitting: { Self → List (List ℕ) → Bool };

    // The form that the keyword and the fields after it spell.
    fn form(self, parts: Fields) -> Option<Self::Form>
        ensures value { result ≡ made self (remaining parts.entry) };

    // Whether the fields after the keyword are as its form has them, whatever stands where numbers belong.
    fn takes(self, parts: Fields) -> bool
        ensures value { result ≡ fitting self (remaining parts.entry) };
}

// The form that fields spell, the first of them a keyword.
pub(crate) fn form_of<W: FormWord>(fields: Fields) -> Option<W::Form>
    ensures value { result ≡ spelled_from W.Keyword.spelled W.Keyword.table W.made (remaining fields.entry) }
{
    let (word, parts) = fields.split()?;
    keyword_of::<W>(word)?.form(parts)
}

// Whether fields have a form, the first of them a keyword, whatever stands where numbers belong.
pub(crate) fn has_form<W: FormWord>(fields: Fields) -> bool
    ensures value { result ≡ formed_from W.Keyword.spelled W.Keyword.table W.fitting (remaining fields.entry) }
{
    // By `let` and `match`: of a closure that calls a bound's method, `is_some_and` tells the proof too little.
    let Some((word, parts)) = fields.split() else {
        return false;
    };
    match keyword_of::<W>(word) {
        Some(word) => word.takes(parts),
        None => false,
    }
}

// A value, where no field is left.
fn at_end<T: Copy>(value: T, fields: Fields) -> Option<T>
    ensures where_none_is_left { result ≡ at_end value (remaining fields.entry) }
{
    fields.split().is_none().then_some(value)
}

impl FormWord for TypeWord {
    type Form = TypeForm;

    ghost made = { type_parts };

    ghost fitting = { type_counted };

    // A type by the fields after its word.
    fn form(self, parts: Fields) -> Option<TypeForm> {
        match self {
            TypeWord::Unit => at_end(TypeForm::Unit, parts),
            TypeWord::Int => at_end(TypeForm::Int, parts),
            TypeWord::Pair => parts.two().map(|(a, b)| TypeForm::Pair(a, b)),
            TypeWord::Fun => parts.two().map(|(a, b)| TypeForm::Fun(a, b)),
        }
    }

    // A type has no part or two.
    fn takes(self, parts: Fields) -> bool {
        match self {
            TypeWord::Unit | TypeWord::Int => parts.count() == 0,
            TypeWord::Pair | TypeWord::Fun => parts.count() == 2,
        }
    }
}

impl FormWord for MethodWord {
    type Form = MethodForm;

    ghost made = { method_parts };

    ghost fitting = { method_counted };

    // A method by the fields after its word.
    fn form(self, parts: Fields) -> Option<MethodForm> {
        match self {
            MethodWord::Abstract => parts.one().map(MethodForm::Abstract),
            MethodWord::Public => parts.two().map(|(of, term)| MethodForm::Public(of, term)),
            MethodWord::Private => parts.two().map(|(of, term)| MethodForm::Private(of, term)),
        }
    }

    // A method has its type and, unless it is abstract, its term.
    fn takes(self, parts: Fields) -> bool {
        match self {
            MethodWord::Abstract => parts.count() == 1,
            MethodWord::Public | MethodWord::Private => parts.count() == 2,
        }
    }
}

impl FormWord for Operation {
    type Form = TermForm;

    ghost made = { operation_parts };

    ghost fitting = { operation_counted };

    // An operation's term by the fields after the operation's word.
    fn form(self, parts: Fields) -> Option<TermForm> {
        parts.two().map(|(a, b)| TermForm::Op(self, a, b))
    }

    // An operation has two terms.
    fn takes(self, parts: Fields) -> bool {
        parts.count() == 2
    }
}

impl FormWord for TermWord {
    type Form = TermForm;

    ghost made = { term_parts };

    ghost fitting = { parts_formed };

    // A term by the fields after its word.
    fn form(self, parts: Fields) -> Option<TermForm> {
        match self {
            TermWord::Unit => at_end(TermForm::Unit, parts),
            TermWord::Num => parts.one().map(TermForm::Num),
            TermWord::Var => parts.one().map(TermForm::Var),
            TermWord::Meth => parts.one().map(TermForm::Meth),
            TermWord::Get => parts.one().map(TermForm::Get),
            TermWord::Fst => parts.one().map(TermForm::Fst),
            TermWord::Snd => parts.one().map(TermForm::Snd),
            TermWord::Assert => parts.one().map(TermForm::Assert),
            TermWord::Op => form_of::<Operation>(parts),
            TermWord::Lam => parts.two().map(|(x, a)| TermForm::Lam(x, a)),
            TermWord::Set => parts.two().map(|(r, a)| TermForm::Set(r, a)),
            TermWord::Pair => parts.two().map(|(a, b)| TermForm::Pair(a, b)),
            TermWord::App => parts.two().map(|(f, a)| TermForm::App(f, a)),
            TermWord::If => parts.three().map(|(c, a, b)| TermForm::If(c, a, b)),
            TermWord::Let => parts.three().map(|(x, a, b)| TermForm::Let(x, a, b)),
        }
    }

    // A term has no part to three, and an operation begins with a word of its own.
    fn takes(self, parts: Fields) -> bool {
        match self {
            TermWord::Unit => parts.count() == 0,
            TermWord::Num
            | TermWord::Var
            | TermWord::Meth
            | TermWord::Get
            | TermWord::Fst
            | TermWord::Snd
            | TermWord::Assert => parts.count() == 1,
            TermWord::Lam | TermWord::Set | TermWord::Pair | TermWord::App => parts.count() == 2,
            TermWord::If | TermWord::Let => parts.count() == 3,
            TermWord::Op => has_form::<Operation>(parts),
        }
    }
}

// The row of a section and a number that the fields after them spell.
fn row_parts(section: Section, running: u32, fields: Fields) -> Option<Row>
    ensures value { result ≡ row_parts section running (remaining fields.entry) }
{
    match section {
        Section::Types => form_of::<TypeWord>(fields).map(|form| Row::Type(running, form)),
        Section::Variables => fields.one().map(|of| Row::Variable(running, of)),
        Section::Methods => form_of::<MethodWord>(fields).map(|form| Row::Method(running, form)),
        Section::Globals => fields
            .two()
            .map(|(of, term)| Row::Global(running, of, term)),
        Section::Terms => form_of::<TermWord>(fields).map(|form| Row::Term(running, form)),
    }
}

// Whether the fields after a row's number have the form of a row of the section.
fn row_takes(section: Section, fields: Fields) -> bool
    ensures value { result ≡ section_formed section (remaining fields.entry) }
{
    match section {
        Section::Types => has_form::<TypeWord>(fields),
        Section::Variables => fields.count() == 1,
        Section::Methods => has_form::<MethodWord>(fields),
        Section::Globals => fields.count() == 2,
        Section::Terms => has_form::<TermWord>(fields),
    }
}

impl FormWord for Section {
    type Form = Row;

    ghost made = { section_parts };

    ghost fitting = { numbered_formed };

    // A row by the fields after its section's word, the first of which is its number.
    fn form(self, parts: Fields) -> Option<Row> {
        let (running, others) = parts.split()?;
        row_parts(self, number(running)?, others)
    }

    // A row has a number, and then what the section's rows have.
    fn takes(self, parts: Fields) -> bool {
        parts
            .split()
            .is_some_and(|(_, others)| row_takes(self, others))
    }
}
