//! The type that a term has by its rule.
use rows::TypeForm;

// A type: one that is named by its number, or one that is looked for by its form.
#[derive(Clone, Copy)]
pub(crate) enum Wanted {
    Number(u32),
    Form(TypeForm),
}
