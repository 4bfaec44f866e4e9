//! Rows that are sorted into sections, looked up by section and number.
ghost use Rattle.std.specs.Prelude.{◌≡◌};
ghost use Rattle.library.specs.Inference.{Sectioned, number_of_form, start};
ghost use Rattle.library.specs.Listing.{global_term_at, global_type_at, method_at, method_type, method_type_at, section_rows, term_at, type_form_at, variable_type_at};
ghost use Rattle.std.specs.List.{slice_get};
ghost use Rattle.std.specs.Option.{option_map};

use rows::{Counts, MethodForm, Row, Section, TermForm, TypeForm};

// Rows that stand sorted into sections, with the count of each section.
#[derive(Clone, Copy)]
pub(crate) struct Listing<'a> {
    pub(crate) rows: &'a [Row],
    pub(crate) counts: Counts,
    ghost sectioned: { Sectioned rows.now counts },
}

// How many rows stand before a section.
fn rows_before(counts: Counts, section: Section) -> u64
    ensures start_of_section { result ≡ start counts section }
{
    let types = u64::from(counts.types);
    let variables = u64::from(counts.variables);
    let methods = u64::from(counts.methods);
    match section {
        Section::Types => 0,
        Section::Variables => types,
        Section::Methods => types + variables,
        Section::Globals => types + variables + methods,
        Section::Terms => types + variables + methods + u64::from(counts.globals),
    }
}

// The type of a method.
pub(crate) fn type_of_method(form: MethodForm) -> u32
    ensures declared_type { result ≡ method_type form }
{
    match form {
        MethodForm::Abstract(of) | MethodForm::Public(of, _) | MethodForm::Private(of, _) => of,
    }
}

impl Listing<'_> {
    // The row of a section and a number.
    fn row(self, section: Section, number: u32) -> Option<Row>
        ensures row_of_number { result ≡ slice_get (section_rows section self.entry.rows.now) number }
    {
        if number >= self.counts.of(section) {
            return None;
        }
        let place = rows_before(self.counts, section) + u64::from(number);
        self.rows.get(place as usize).copied()
    }

    // The form of the type of a number. Each lookup takes its parts out of another kind of row, so each has its own match.
    pub(crate) fn type_form(self, number: u32) -> Option<TypeForm>
        ensures form_of_type { result ≡ type_form_at self.entry.rows.now number }
    {
        match self.row(Section::Types, number)? {
            Row::Type(_, form) => Some(form),
            _ => None,
        }
    }

    // The type of the variable of a number.
    pub(crate) fn variable_type(self, number: u32) -> Option<u32>
        ensures declared_type { result ≡ variable_type_at self.entry.rows.now number }
    {
        match self.row(Section::Variables, number)? {
            Row::Variable(_, of) => Some(of),
            _ => None,
        }
    }

    // The method of a number.
    pub(crate) fn method(self, number: u32) -> Option<MethodForm>
        ensures form_of_method { result ≡ method_at self.entry.rows.now number }
    {
        match self.row(Section::Methods, number)? {
            Row::Method(_, form) => Some(form),
            _ => None,
        }
    }

    // The type of the method of a number.
    pub(crate) fn method_type(self, number: u32) -> Option<u32>
        ensures declared_type { result ≡ method_type_at self.entry.rows.now number }
    {
        self.method(number).map(type_of_method)
    }

    // The type and the term of the global of a number.
    fn global(self, number: u32) -> Option<(u32, u32)>
        ensures declared_type { option_map (λ p. p.0) result ≡ global_type_at self.entry.rows.now number }
        ensures declared_term { option_map (λ p. p.1) result ≡ global_term_at self.entry.rows.now number }
    {
        match self.row(Section::Globals, number)? {
            Row::Global(_, of, term) => Some((of, term)),
            _ => None,
        }
    }

    // The type of the global of a number.
    pub(crate) fn global_type(self, number: u32) -> Option<u32>
        ensures declared_type { result ≡ global_type_at self.entry.rows.now number }
    {
        self.global(number).map(|(of, _)| of)
    }

    // The term of the global of a number.
    pub(crate) fn global_term(self, number: u32) -> Option<u32>
        ensures declared_term { result ≡ global_term_at self.entry.rows.now number }
    {
        self.global(number).map(|(_, term)| term)
    }

    // The term of a number.
    pub(crate) fn term(self, number: u32) -> Option<TermForm>
        ensures form_of_term { result ≡ term_at self.entry.rows.now number }
    {
        match self.row(Section::Terms, number)? {
            Row::Term(_, form) => Some(form),
            _ => None,
        }
    }

    // The number of the type of this form.
    pub(crate) fn number_of(self, form: TypeForm) -> Option<u32>
        ensures number_of_type { result ≡ number_of_form self.entry.rows.now form }
    {
        (0..self.counts.types).find(|number| self.type_form(*number) == Some(form))
    }
}
