//! The rows of a library, one for each line of its text. They name types, variables, methods, globals and terms by number,
//! as the text does, and not as trees: rows are handed in as they were read.
use arithmetic::Operation;

/// A section of the rows. Sections follow one another in this order.
#[derive(Clone, Copy, PartialEq, Eq, Debug)]
pub enum Section {
    Types,
    Variables,
    Methods,
    Globals,
    Terms,
}

/// A type: unit, int, or a pair or a function of two types listed before it.
#[derive(Clone, Copy, PartialEq, Eq, Debug)]
pub enum TypeForm {
    Unit,
    Int,
    Pair(u32, u32),
    Fun(u32, u32),
}

/// A method: its type and, unless the host supplies it, its term.
#[derive(Clone, Copy, PartialEq, Eq, Debug)]
pub enum MethodForm {
    Abstract(u32),
    Public(u32, u32),
    Private(u32, u32),
}

/// A term, over terms that are listed before it.
#[derive(Clone, Copy, PartialEq, Eq, Debug)]
pub enum TermForm {
    Unit,
    /// A word.
    Num(i32),
    /// A variable.
    Var(u32),
    /// A method.
    Meth(u32),
    /// Reads a global.
    Get(u32),
    /// A function: its variable and its body.
    Lam(u32, u32),
    /// Writes a term's value to a global.
    Set(u32, u32),
    /// An operation on two terms.
    Op(Operation, u32, u32),
    Pair(u32, u32),
    Fst(u32),
    Snd(u32),
    /// An application: the function and its argument.
    App(u32, u32),
    /// A condition and its two branches.
    If(u32, u32, u32),
    /// Binds a variable to a term's value in another term.
    Let(u32, u32, u32),
    Assert(u32),
}

/// A row: its running number in its section, and what it says.
#[derive(Clone, Copy, PartialEq, Eq, Debug)]
pub enum Row {
    Type(u32, TypeForm),
    /// A variable and its type.
    Variable(u32, u32),
    Method(u32, MethodForm),
    /// A global, its type and its term.
    Global(u32, u32, u32),
    Term(u32, TermForm),
}
