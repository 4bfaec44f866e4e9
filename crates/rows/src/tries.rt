//! Tries a row for the faults 12 to 15 after the rows before it.
ghost use Rattle.std.specs.Prelude.{◌≡◌, ℕ, ◌+◌, ◌<◌, ◌≤◌, true, List, [], ◌∷◌, ◌++◌, length, MatchBool, MatchResult, ◌≢◌};
ghost use Rattle.faults.specs.declared.TextFault.TheVariants.{Order, Reference, Limit, Repeat};
ghost use Rattle.rows.specs.Faults.{Faultless, Least, ListedBefore, ListedType, NoneOf, NumbersInRange, RowFault};
ghost use Rattle.rows.specs.Sections.{limit, references, running, section, term_references};
ghost use Rattle.rows.specs.Tallies.{OrderBy, PlaceBy, Tallied, all_below, counted, counts_with, later_count, leaves_at, leaves_by, leaves_with};

use super::forms::{MethodForm, Row, Section, TermForm, TypeForm};
use super::tally::{Counts, Tally};
use faults::TextFault;

impl Section {
    /// How many rows the section may have.
    pub fn limit(self) -> u32
        ensures limit_of_section { result ≡ limit self }
    {
        match self {
            Section::Types | Section::Variables | Section::Methods => 64,
            Section::Globals => 16,
            Section::Terms => 1024,
        }
    }
}

impl Row {
    /// The section that the row stands in.
    pub fn section(self) -> Section
        ensures section_of_row { result ≡ section self }
    {
        match self {
            Row::Type(_, _) => Section::Types,
            Row::Variable(_, _) => Section::Variables,
            Row::Method(_, _) => Section::Methods,
            Row::Global(_, _, _) => Section::Globals,
            Row::Term(_, _) => Section::Terms,
        }
    }

    /// The row's running number in its section.
    pub fn running(self) -> u32
        ensures number_of_row { result ≡ running self }
    {
        match self {
            Row::Type(number, _)
            | Row::Variable(number, _)
            | Row::Method(number, _)
            | Row::Global(number, _, _)
            | Row::Term(number, _) => number,
        }
    }
}

impl Counts {
    /// How many rows a section has.
    pub fn of(self, section: Section) -> u32
        ensures count_of_section { result ≡ counted self section }
    {
        match section {
            Section::Types => self.types,
            Section::Variables => self.variables,
            Section::Methods => self.methods,
            Section::Globals => self.globals,
            Section::Terms => self.terms,
        }
    }

    // How many rows stand in the sections after one.
    fn later(self, section: Section) -> u64
        ensures count_of_later_sections { result ≡ later_count self section }
    {
        let terms = u64::from(self.terms);
        let globals = u64::from(self.globals);
        let methods = u64::from(self.methods);
        match section {
            Section::Terms => 0,
            Section::Globals => terms,
            Section::Methods => globals + terms,
            Section::Variables => methods + globals + terms,
            Section::Types => u64::from(self.variables) + methods + globals + terms,
        }
    }

    // Whether each reference of a term names an earlier row.
    fn term_refers_back(self, form: TermForm) -> bool
        ensures below_counts { result ≡ all_below self (term_references form) }
    {
        match form {
            TermForm::Unit | TermForm::Num(_) => true,
            TermForm::Var(x) => x < self.variables,
            TermForm::Meth(m) => m < self.methods,
            TermForm::Get(r) => r < self.globals,
            TermForm::Lam(x, a) => x < self.variables && a < self.terms,
            TermForm::Set(r, a) => r < self.globals && a < self.terms,
            TermForm::Op(_, a, b) | TermForm::Pair(a, b) | TermForm::App(a, b) => {
                a < self.terms && b < self.terms
            }
            TermForm::Fst(a) | TermForm::Snd(a) | TermForm::Assert(a) => a < self.terms,
            TermForm::If(c, a, b) => c < self.terms && a < self.terms && b < self.terms,
            TermForm::Let(x, a, b) => x < self.variables && a < self.terms && b < self.terms,
        }
    }

    // Whether each reference of a row names an earlier row.
    fn refers_back(self, row: Row) -> bool
        ensures below_counts { result ≡ all_below self (references row) }
    {
        match row {
            Row::Type(_, TypeForm::Unit) | Row::Type(_, TypeForm::Int) => true,
            Row::Type(_, TypeForm::Pair(a, b)) | Row::Type(_, TypeForm::Fun(a, b)) => {
                a < self.types && b < self.types
            }
            Row::Variable(_, of) | Row::Global(_, of, _) => of < self.types,
            Row::Method(_, MethodForm::Abstract(of))
            | Row::Method(_, MethodForm::Public(of, _))
            | Row::Method(_, MethodForm::Private(of, _)) => of < self.types,
            Row::Term(_, form) => self.term_refers_back(form),
        }
    }
}

// Whether a type of this form is listed before.
fn listed_before(before: &[Row], form: TypeForm) -> bool
    ensures listed { MatchBool result (ListedType before.now form) (ListedType before.now form → ⊥) }
{
    before.iter().any(|row| matches!(row, Row::Type(_, listed) if *listed == form))
}

// Whether the type that a row lists is listed before.
fn repeats(before: &[Row], row: Row) -> bool
    ensures listed { MatchBool result (ListedBefore before.now row) (ListedBefore before.now row → ⊥) }
{
    matches!(row, Row::Type(_, form) if listed_before(before, form))
}

impl Tally {
    /// The tally of no rows.
    pub fn new() -> Tally
        ensures tally_of_no_rows { Tallied [] result.counts result.leaves }
    {
        Tally {
            counts: Counts::default(),
            leaves: [0; 64],
        }
    }

    /// How many rows each section has.
    pub fn counts(self) -> Counts
        ensures counts_of_tally { result ≡ self.counts }
    {
        self.counts
    }

    /// The leaves of the type of a number, or none past the last type.
    pub fn leaves(self, number: u32) -> Option<u8>
        ensures leaves_of_type { result ≡ leaves_at self.counts self.leaves number }
    {
        let types = self.counts.types as usize;
        self.leaves[0..types].get(number as usize).copied()
    }

    // The leaves of the type that a row lists; 0 for any other row.
    fn leaves_of(self, row: Row) -> u16
        requires refers_back { all_below self.counts (references row) ≡ true }
        ensures leaves_by_table { result ≡ leaves_by self.leaves row }
    {
        match row {
            Row::Type(_, TypeForm::Pair(a, b)) => {
                u16::from(self.leaves[a as usize]) + u16::from(self.leaves[b as usize])
            }
            Row::Type(_, _) => 1,
            _ => 0,
        }
    }

    // The tally with one more row.
    fn with(self, row: Row, leaves: u8) -> Tally
        requires place_left { counted self.counts (section row) < limit (section row) }
        ensures counts_one_more { result.counts ≡ counts_with self.counts (section row) }
        ensures keeps_leaves { result.leaves ≡ leaves_with self.counts self.leaves (section row) leaves }
    {
        let mut counts = self.counts;
        let mut table = self.leaves;
        match row.section() {
            Section::Types => {
                table[counts.types as usize] = leaves;
                counts.types += 1;
            }
            Section::Variables => counts.variables += 1,
            Section::Methods => counts.methods += 1,
            Section::Globals => counts.globals += 1,
            Section::Terms => counts.terms += 1,
        }
        Tally {
            counts,
            leaves: table,
        }
    }

    // Whether a row's section may come now, and its running number counts on.
    fn in_order(self, row: Row) -> bool
        ensures by_counts { MatchBool result (OrderBy self.counts row) (OrderBy self.counts row → ⊥) }
    {
        row.running() == self.counts.of(row.section()) && self.counts.later(row.section()) == 0
    }

    // Whether there is a place for a row, in its section too, and its type has few enough leaves.
    fn has_place(self, room: bool, row: Row, leaves: u16) -> bool
        ensures by_counts { MatchBool result (PlaceBy self.counts room row leaves) (PlaceBy self.counts room row leaves → ⊥) }
    {
        room && leaves <= 4 && self.counts.of(row.section()) < row.section().limit()
    }

    // The rows before come beside the tally and not in a struct with it: whoever calls writes the next row between two calls.
    /// Tries a row after the rows before, of which this is the tally, for the faults of order, reference, limit and
    /// repeat. A row without fault gives the tally with it. `room` tells whether there is a place to keep it.
    pub fn admit(self, before: &[Row], room: bool, row: Row) -> Result<Tally, TextFault>
        ensures least_fault_or_one_more { Tallied before.now self.counts self.leaves → NumbersInRange row → MatchResult result (λ t. NoneOf (RowFault room before.now row) × Tallied (before.now ++ (row ∷ [])) t.counts t.leaves) (λ f. Least (RowFault room before.now row) f) }
    {
        if !self.in_order(row) {
            return Err(TextFault::Order);
        }
        if !self.counts.refers_back(row) {
            return Err(TextFault::Reference);
        }
        let leaves = self.leaves_of(row);
        if !self.has_place(room, row, leaves) {
            return Err(TextFault::Limit);
        }
        if repeats(before, row) {
            return Err(TextFault::Repeat);
        }
        Ok(self.with(row, leaves as u8))
    }
}
