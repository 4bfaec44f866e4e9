//! The words by which a text names the sections.
ghost use Rattle.rows.specs.Sections.{section_table, section_word};
ghost use Rattle.std.proofs.Common.{rules};

use super::forms::Section;
use text::Keyword;

impl Keyword for Section {
    ghost spelled = { section_word };

    ghost table = { section_table };

    ghost found = { Prim.search rules };

    // All sections, in their order.
    fn all<'a>() -> &'a [Section] {
        &[
            Section::Types,
            Section::Variables,
            Section::Methods,
            Section::Globals,
            Section::Terms,
        ]
    }

    // Each section by its bytes.
    fn spelling(self) -> &'static [u8] {
        match self {
            Section::Types => b"type",
            Section::Variables => b"var",
            Section::Methods => b"method",
            Section::Globals => b"global",
            Section::Terms => b"term",
        }
    }
}
