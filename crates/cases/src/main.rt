//! Answers each input that the file `names` lists, and prints its name with the answer; then reads into few rows, and mounts
//! rows made by hand.
#![tactic(auto)]

use anyhow::{Context, ensure};
use faults::Placed;
use reader::read;
use report::report;
use rows::{Counts, Row};
use std::fs;
use text::first_line;

mod by_hand;

// Reads a text into the first of 24 rows that hold something else, and prints the answer and how many rows stayed.
fn into_rows(rt: &HostRuntime, text: &[u8], room: usize) -> anyhow::Result<()> {
    let other = Row::Variable(7, 7);
    let mut rows = vec![in rt.alloc(); other; 24]?;
    ensure!(room <= rows.len(), "too few rows to try");
    let answer = read(text, &mut rows[0..room]);
    let stayed = rows.iter().filter(|row| **row == other).count();
    match answer {
        Ok(Counts { terms, .. }) => {
            println!(rt; "{room} rows: read with {terms} terms, {stayed} rows stay")?;
        }
        Err(Placed { place, fault }) => {
            let number = fault.number();
            println!(rt; "{room} rows: refused,{number},{place}, {stayed} rows stay")?;
        }
    }
    Ok(())
}

// Reads a library of 19 lines, no lines and a malformed line into few rows.
fn few_rows(rt: &HostRuntime) -> anyhow::Result<()> {
    let input = fs::read(rt, "callback_asserts_flag.in")?;
    let (_, rest) = first_line(&input).context("no first line")?;
    let (_, library) = first_line(rest).context("no second line")?;
    for room in [24, 19, 18, 0] {
        into_rows(rt, library, room)?;
    }
    into_rows(rt, b"", 0)?;
    into_rows(rt, b"type\n", 0)
}

fn main(rt: HostRuntime) -> anyhow::Result<()> {
    let names = fs::read_to_string(&rt, "names")?;
    for name in names.lines() {
        let input = fs::read(&rt, name)?;
        let answer = report(rt.alloc(), &input)?;
        print!(rt; "{name} {answer}")?;
    }
    few_rows(&rt)?;
    by_hand::mounted_by_hand(&rt)
}
