//! Sets of variables.
ghost use Rattle.std.specs.Prelude.{◌≡◌, ◌^◌, ◌<◌, ◌==◌, bit_or};
ghost use Rattle.library.specs.Scopes.{only, without};

// A set of variables, which have numbers below 64.
#[derive(Clone, Copy, PartialEq, Eq)]
pub(crate) struct VariableSet {
    // One bit for each variable, of which there are at most 64, so that a set is copied and allocates nothing.
    bits: u64,
    ghost word: { bits < 2 ^ 64 },
}

impl VariableSet {
    // The set of no variable.
    pub(crate) fn empty() -> VariableSet
        ensures no_bit { result.bits ≡ 0 }
    {
        VariableSet { bits: 0 }
    }

    // The set of one variable.
    pub(crate) fn of(variable: u32) -> VariableSet
        ensures one_bit { result.bits ≡ only variable }
    {
        let bits = if variable < 64 { 1 << variable } else { 0 };
        VariableSet { bits }
    }

    // The variables of either set.
    pub(crate) fn union(self, other: VariableSet) -> VariableSet
        ensures both_sets { result.bits ≡ bit_or self.bits other.bits }
    {
        let bits = self.bits | other.bits;
        VariableSet { bits }
    }

    // The set without a variable.
    pub(crate) fn without(self, variable: u32) -> VariableSet
        ensures bit_removed { result.bits ≡ without self.bits variable }
    {
        let bits = self.bits ^ (self.bits & VariableSet::of(variable).bits);
        VariableSet { bits }
    }

    // Whether no variable stands in the set.
    pub(crate) fn is_empty(self) -> bool
        ensures no_variable { result ≡ 0 == self.bits }
    {
        self.bits == 0
    }
}
