//! Tries a row for the fault 11: a number outside its range.
ghost use Rattle.rows.specs.Faults.{NumbersInRange};
ghost use Rattle.rows.specs.Printing.{method_slots, term_slots, type_slots};
ghost use Rattle.std.specs.Prelude.{MatchBool};
ghost use Rattle.std.specs.List.{AllByRecursion};
ghost use Rattle.text.specs.Slots.{InRange};

use super::forms::{MethodForm, Row, TermForm, TypeForm};

/// The largest number that a row may hold, but for words.
const LARGEST: u32 = 65535;

impl TypeForm {
    // Whether each number of a type is in its range.
    fn in_range(self) -> bool
        ensures each_number { MatchBool result (AllByRecursion InRange (type_slots self)) (AllByRecursion InRange (type_slots self) → ⊥) }
    {
        match self {
            TypeForm::Unit | TypeForm::Int => true,
            TypeForm::Pair(a, b) | TypeForm::Fun(a, b) => a <= LARGEST && b <= LARGEST,
        }
    }
}

impl MethodForm {
    // Whether each number of a method is in its range.
    fn in_range(self) -> bool
        ensures each_number { MatchBool result (AllByRecursion InRange (method_slots self)) (AllByRecursion InRange (method_slots self) → ⊥) }
    {
        match self {
            MethodForm::Abstract(of) => of <= LARGEST,
            MethodForm::Public(of, term) | MethodForm::Private(of, term) => {
                of <= LARGEST && term <= LARGEST
            }
        }
    }
}

impl TermForm {
    // Whether each number of a term is in its range.
    fn in_range(self) -> bool
        ensures each_number { MatchBool result (AllByRecursion InRange (term_slots self)) (AllByRecursion InRange (term_slots self) → ⊥) }
    {
        match self {
            TermForm::Unit | TermForm::Num(_) => true,
            TermForm::Var(a)
            | TermForm::Meth(a)
            | TermForm::Get(a)
            | TermForm::Fst(a)
            | TermForm::Snd(a)
            | TermForm::Assert(a) => a <= LARGEST,
            TermForm::Lam(a, b)
            | TermForm::Set(a, b)
            | TermForm::Op(_, a, b)
            | TermForm::Pair(a, b)
            | TermForm::App(a, b) => a <= LARGEST && b <= LARGEST,
            TermForm::If(a, b, c) | TermForm::Let(a, b, c) => {
                a <= LARGEST && b <= LARGEST && c <= LARGEST
            }
        }
    }
}

impl Row {
    /// Whether each number of the row is in its range.
    pub fn in_range(self) -> bool
        ensures each_number { MatchBool result (NumbersInRange self) (NumbersInRange self → ⊥) }
    {
        match self {
            Row::Type(number, form) => number <= LARGEST && form.in_range(),
            Row::Variable(number, of) => number <= LARGEST && of <= LARGEST,
            Row::Method(number, form) => number <= LARGEST && form.in_range(),
            Row::Global(number, of, term) => {
                number <= LARGEST && of <= LARGEST && term <= LARGEST
            }
            Row::Term(number, form) => number <= LARGEST && form.in_range(),
        }
    }
}
