//! Settings at the edges of their limits, and sums at the edges of the words.
use crate::{Arithmetic, Counter, HostRange, HostWords, Operation, Word};
use std::test::Fail;

// Settings just within their limits are taken, and those just outside are refused.
#[test]
fn settings_at_their_limits(rt: HostRuntime) {
    assert!(rt; Word::new(0, 4095).is_ok());
    assert!(rt; Word::new(0, 4096).is_err());
    assert!(rt; Word::new(1, 0).is_err());
    assert!(rt; Counter::new(0, 0, 0).is_err());
    assert!(rt; Counter::new(1, 0, 1).is_ok());
    assert!(rt; Counter::new(65535, 65535, 65535).is_ok());
    assert!(rt; Counter::new(65536, 0, 0).is_err());
}

// The least word alone can be listed, and sums wrap past it and past the greatest.
#[test]
fn words_at_their_ends(rt: HostRuntime) -> Result<(), Fail> {
    let word = Word::new(i32::MIN, i32::MIN)?;
    assert_eq!(rt; word.list_length(), 1);
    assert_eq!(rt; word.word_at(0), Some(i32::MIN));
    assert_eq!(rt; word.word_at(1), None);
    assert_eq!(rt; word.operate(Operation::Sub, i32::MIN, 1), Some(i32::MAX));
    assert_eq!(rt; word.operate(Operation::Add, i32::MAX, 1), Some(i32::MIN));
    Ok(())
}

// A range holds the words from its least to its greatest one, and has each at one place.
#[test]
fn range_at_its_ends(rt: HostRuntime) -> Result<(), Fail> {
    let range = HostRange::new(-1, 1)?;
    assert_eq!(rt; range.count(), 3);
    assert!(rt; range.holds(-1));
    assert!(rt; range.holds(1));
    assert!(rt; !range.holds(-2));
    assert!(rt; !range.holds(2));
    assert_eq!(rt; range.at(2), Some(1));
    assert_eq!(rt; range.at(3), None);
    Ok(())
}

// A counter's product stops at the top, also where it leaves 32 bits.
#[test]
fn products_of_a_counter(rt: HostRuntime) -> Result<(), Fail> {
    let counter = Counter::new(65535, 0, 1)?;
    assert_eq!(rt; counter.operate(Operation::Mul, 255, 257), Some(65535));
    assert_eq!(rt; counter.operate(Operation::Mul, 254, 257), Some(65278));
    assert_eq!(rt; counter.operate(Operation::Mul, 65535, 65535), Some(65535));
    assert_eq!(rt; counter.operate(Operation::Mul, 65536, 0), None);
    Ok(())
}
