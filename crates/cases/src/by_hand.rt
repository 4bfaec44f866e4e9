//! Mounts rows made by hand, one library after the other.
use anyhow::bail;
use faults::Placed;
use library::{Library, MountFault};
use rows::{Counts, MethodForm, Row, TermForm, TypeForm};

const UNIT: Row = Row::Type(0, TypeForm::Unit);

// Mounts rows over what a library holds, and prints the answer and how many rows of each section it then holds.
fn mount_over(rt: &HostRuntime, library: &mut Library, rows: &[Row]) -> anyhow::Result<()> {
    match library.mount(rows) {
        Ok(()) => print!(rt; "by hand: mounted")?,
        Err(MountFault::Refused(Placed { place, fault })) => {
            let number = fault.number();
            print!(rt; "by hand: refused,{number},{place}")?;
        }
        Err(MountFault::Memory) => bail!("no memory to mount"),
    }
    let Counts {
        types,
        variables,
        methods,
        globals,
        terms,
    } = library.counts();
    println!(rt; ", held {types},{variables},{methods},{globals},{terms}")?;
    Ok(())
}

// Mounts rows that break each fault which rows may have in their numbers, order, references, limits or repetition.
fn malformed(rt: &HostRuntime, library: &mut Library) -> anyhow::Result<()> {
    let pair = |number, left, right| Row::Type(number, TypeForm::Pair(left, right));
    mount_over(rt, library, &[UNIT, Row::Variable(65536, 0)])?;
    mount_over(rt, library, &[UNIT, Row::Type(0, TypeForm::Int)])?;
    mount_over(rt, library, &[UNIT, Row::Variable(0, 1)])?;
    mount_over(
        rt,
        library,
        &[UNIT, pair(1, 0, 0), pair(2, 1, 1), pair(3, 2, 0)],
    )?;
    mount_over(rt, library, &[UNIT, Row::Type(1, TypeForm::Unit)])
}

// Mounts rows that are well formed and break each fault of typing.
fn ill_typed(rt: &HostRuntime, library: &mut Library) -> anyhow::Result<()> {
    let unit_term = Row::Term(0, TermForm::Unit);
    mount_over(
        rt,
        library,
        &[UNIT, unit_term, Row::Term(1, TermForm::Fst(0))],
    )?;
    mount_over(rt, library, &[unit_term])?;
    mount_over(
        rt,
        library,
        &[UNIT, Row::Method(0, MethodForm::Abstract(0))],
    )
}

// Mounts rows that break a typing rule in the third row, and in the fourth a rule of numbers, order or references.
fn malformed_after_ill_typed(rt: &HostRuntime, library: &mut Library) -> anyhow::Result<()> {
    let unit_term = Row::Term(0, TermForm::Unit);
    let first_part = Row::Term(1, TermForm::Fst(0));
    let followed_by = |form| [UNIT, unit_term, first_part, form];
    mount_over(
        rt,
        library,
        &followed_by(Row::Term(2, TermForm::Fst(65536))),
    )?;
    mount_over(rt, library, &followed_by(Row::Term(3, TermForm::Unit)))?;
    mount_over(rt, library, &followed_by(Row::Term(2, TermForm::Fst(2))))
}

// Mounts rows that have a method of a type which is no function, and a fault which comes before that one.
fn other_fault_before_method(rt: &HostRuntime, library: &mut Library) -> anyhow::Result<()> {
    let unit_method = Row::Method(0, MethodForm::Abstract(0));
    let first_part = Row::Term(1, TermForm::Fst(0));
    let number = Row::Term(0, TermForm::Num(1));
    let unknown_type = Row::Method(1, MethodForm::Abstract(1));
    mount_over(rt, library, &[UNIT, unit_method, unknown_type])?;
    mount_over(
        rt,
        library,
        &[UNIT, unit_method, Row::Term(0, TermForm::Unit), first_part],
    )?;
    mount_over(rt, library, &[UNIT, unit_method, number, first_part])
}

// Mounts rows that have a number above 65535 as a reference or as the term of a definition, and rows out of order.
fn numbers_and_order(rt: &HostRuntime, library: &mut Library) -> anyhow::Result<()> {
    mount_over(rt, library, &[UNIT, Row::Variable(0, 65536)])?;
    mount_over(rt, library, &[UNIT, Row::Global(0, 0, 65536)])?;
    mount_over(
        rt,
        library,
        &[UNIT, Row::Method(0, MethodForm::Public(0, 65536))],
    )?;
    mount_over(
        rt,
        library,
        &[UNIT, Row::Variable(0, 0), Row::Type(1, TypeForm::Int)],
    )?;
    mount_over(rt, library, &[UNIT, Row::Variable(1, 1)])?;
    mount_over(rt, library, &[UNIT, Row::Variable(65536, 1)])
}

// Mounts rows over the empty library, then rows that are refused and leave it as it is, then rows that replace it.
pub(crate) fn mounted_by_hand(rt: &HostRuntime) -> anyhow::Result<()> {
    let mut library = Library::empty(rt.alloc());
    mount_over(rt, &mut library, &[])?;
    mount_over(rt, &mut library, &[UNIT, Row::Variable(0, 0)])?;
    malformed(rt, &mut library)?;
    ill_typed(rt, &mut library)?;
    malformed_after_ill_typed(rt, &mut library)?;
    other_fault_before_method(rt, &mut library)?;
    numbers_and_order(rt, &mut library)?;
    mount_over(rt, &mut library, &[UNIT, Row::Term(0, TermForm::Unit)])
}
