//! The settings of each kind of arithmetic, within their limits by their type.
ghost use Rattle.arithmetic.specs.Settings.{counter_settings, word_settings};

use crate::range::HostRange;

/// Every word is lawful, and the host may say those of `host`.
#[derive(Clone, Copy, PartialEq, Eq, Debug)]
pub struct Word {
    pub host: HostRange,
    ghost limits: { word_settings host.lo host.hi },
}

/// Lawful are 0 to `top`, and the host may say the words of `host`.
#[derive(Clone, Copy, PartialEq, Eq, Debug)]
pub struct Counter {
    pub top: u16,
    pub host: HostRange,
    ghost limits: { counter_settings top host.lo host.hi },
}
