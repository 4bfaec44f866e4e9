//! The two head lines: the form of each, what its fields spell, and what is made of it within its limits.
ghost use Rattle.bounds.specs.Made.{BoundsMade};
ghost use Rattle.heads.specs.Arithmetics.{Made};
ghost use Rattle.heads.specs.Fields.{play_formed, play_in, settings_formed, settings_in};

use crate::fields::after_word;
use crate::head_line::HeadLine;
use crate::keywords::KindWord;
use crate::settings::{Kind, PlayNumbers, Settings};
use arithmetic::{Counter, Word};
use bounds::Bounds;
use faults::PlayFault;
use text::{Fields, keyword_of};

impl HeadLine for Settings {
    type Made = Kind;

    ghost form = { settings_formed };

    ghost read = { settings_in };

    ghost making = { Made };

    // The word of the line and a kind, and as many fields as the kind has numbers. Only this line begins with two words, so
    // they are looked up here.
    fn formed(fields: Fields) -> bool {
        after_word(b"arith", fields)
            .and_then(Fields::split)
            .is_some_and(|(word, numbers)| match keyword_of::<KindWord>(word) {
                Some(KindWord::Word) => numbers.count() == 2,
                Some(KindWord::Counter) => numbers.count() == 3,
                None => false,
            })
    }

    // The settings after the word of the line.
    fn in_fields(fields: Fields) -> Option<Settings> {
        let (word, numbers) = after_word(b"arith", fields)?.split()?;
        match keyword_of::<KindWord>(word)? {
            KindWord::Word => numbers.two().map(|(lo, hi)| Settings::Word { lo, hi }),
            KindWord::Counter => numbers
                .three()
                .map(|(top, lo, hi)| Settings::Counter { top, lo, hi }),
        }
    }

    // The arithmetic of just these settings.
    fn make(self) -> Result<Kind, PlayFault> {
        match self {
            Settings::Word { lo, hi } => Ok(Kind::Word(Word::new(lo, hi)?)),
            Settings::Counter { top, lo, hi } => Ok(Kind::Counter(Counter::new(top, lo, hi)?)),
        }
    }
}

impl HeadLine for PlayNumbers {
    type Made = Bounds;

    ghost form = { play_formed };

    ghost read = { play_in };

    ghost making = { λ numbers r. BoundsMade numbers.depth numbers.insistence numbers.steps r };

    // The word of the line and three fields.
    fn formed(fields: Fields) -> bool {
        after_word(b"play", fields).is_some_and(|numbers| numbers.count() == 3)
    }

    // The three numbers after the word of the line.
    fn in_fields(fields: Fields) -> Option<PlayNumbers> {
        after_word(b"play", fields)?.three().map(|(depth, insistence, steps)| PlayNumbers {
            depth,
            insistence,
            steps,
        })
    }

    // The bounds of play of just these numbers.
    fn make(self) -> Result<Bounds, PlayFault> {
        Bounds::new(self.depth, self.insistence, self.steps)
    }
}
