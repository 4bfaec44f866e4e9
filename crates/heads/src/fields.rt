//! The fields of a head line.
ghost use Rattle.heads.specs.Fields.{after_word};
ghost use Rattle.std.specs.Option.{option_map};
ghost use Rattle.text.specs.Reading.{cut};
ghost use Rattle.text.specs.Remaining.{remaining};
ghost use Rattle.text.specs.Slots.{Lacks};
ghost use Rattle.std.specs.Prelude.{◌≡◌, MatchOption};

use text::{Fields, first_line, spells};

// The fields of a line; none where a line feed stands in it.
pub(crate) fn line_fields(line: &[u8]) -> Option<Fields<'_>>
    ensures fields_of_one_line { MatchOption result (Lacks 10 line.now → ⊥) (λ fields. Lacks 10 line.now × (remaining fields ≡ cut line.now)) }
{
    first_line(line).is_none().then_some(Fields::of(line))
}

// The fields after a first field that is the word.
pub(crate) fn after_word<'a>(word: &[u8], fields: Fields<'a>) -> Option<Fields<'a>>
    ensures fields_after_it { option_map remaining result ≡ after_word word.now (remaining fields.entry) }
{
    let (first, others) = fields.split()?;
    spells(word, first).then_some(others)
}
