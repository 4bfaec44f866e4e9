//! The free variables of a term, from those of the terms before it.
ghost use Rattle.std.specs.Prelude.{◌≡◌};
ghost use Rattle.library.specs.Facts.{free_sets};
ghost use Rattle.library.specs.Scopes.{free_in};
ghost use Rattle.std.specs.List.{slice_get};
ghost use Rattle.std.specs.Option.{unwrap_or};

use super::facts::KnownTerms;
use super::variables::VariableSet;
use rows::TermForm;

impl KnownTerms<'_, '_> {
    // The free variables of an earlier term.
    fn free(self, term: u32) -> VariableSet
        ensures known_set { result.bits ≡ unwrap_or (slice_get (free_sets self.entry.facts.now) term) 0 }
    {
        self.facts_of(term)
            .map_or(VariableSet::empty(), |facts| facts.free)
    }

    // The free variables of a term, where those of the terms before it are known.
    pub(crate) fn free_in(self, form: TermForm) -> VariableSet
        ensures set_of_term { result.bits ≡ free_in (free_sets self.entry.facts.now) form }
    {
        match form {
            TermForm::Unit | TermForm::Num(_) | TermForm::Meth(_) | TermForm::Get(_) => {
                VariableSet::empty()
            }
            TermForm::Var(x) => VariableSet::of(x),
            TermForm::Lam(x, a) => self.free(a).without(x),
            TermForm::Set(_, a) | TermForm::Fst(a) | TermForm::Snd(a) | TermForm::Assert(a) => {
                self.free(a)
            }
            TermForm::Op(_, a, b) | TermForm::Pair(a, b) | TermForm::App(a, b) => {
                self.free(a).union(self.free(b))
            }
            TermForm::If(c, a, b) => {
                let branches = self.free(a).union(self.free(b));
                self.free(c).union(branches)
            }
            TermForm::Let(x, a, b) => {
                let body = self.free(b).without(x);
                self.free(a).union(body)
            }
        }
    }
}
