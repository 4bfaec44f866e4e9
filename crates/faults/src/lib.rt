//! Faults that a text, a library or the settings of play are refused for, with their places and numbers.
//! A number is how a fault is printed: each kind of fault tells its own, and the code tells faults apart by their enums.
#![tactic(auto)]

ghost use Rattle.faults.specs.declared.LibraryFault.TheVariants.{Text as LibraryText, Typing as LibraryTyping};
ghost use Rattle.faults.specs.declared.PlayFault.TheVariants.{Text};
ghost use Rattle.faults.specs.Numbers.{as_play, in_library, in_play, library_number, play_number, taken_in, text_number, typing_number};
ghost use Rattle.std.specs.Prelude.{◌≡◌};

/// A fault with its place: a line, or 0 where no line fits. The place is a number and no `Option`, since 0 is what is printed.
#[derive(Clone, Copy, PartialEq, Eq, Debug)]
pub struct Placed<F> {
    pub place: u32,
    pub fault: F,
}

/// What is wrong with a text.
#[derive(Clone, Copy, PartialEq, Eq, Debug)]
pub enum TextFault {
    /// The line has no listed form.
    Form,
    /// A number is badly written or outside its range.
    Number,
    /// A section or a running number is out of order.
    Order,
    /// A reference names nothing earlier.
    Reference,
    /// A limit is passed, or the rows handed in are too few.
    Limit,
    /// A type is listed twice.
    Repeat,
}

/// What is wrong with the typing of a library.
#[derive(Clone, Copy, PartialEq, Eq, Debug)]
pub enum TypingFault {
    /// The parts of a term break a typing rule.
    Parts,
    /// The type of a term isn't listed.
    Unlisted,
    /// A method or a global breaks its rule.
    Definition,
}

/// What is wrong with a library: its rows, taken as text, or their typing.
#[derive(Clone, Copy, PartialEq, Eq, Debug)]
pub enum LibraryFault {
    /// The text is at fault.
    Text(TextFault),
    /// The typing is at fault.
    Typing(TypingFault),
}

/// What is wrong with a play: its library or its settings.
#[derive(Clone, Copy, PartialEq, Eq, Debug)]
pub enum PlayFault {
    /// The text is at fault.
    Text(TextFault),
    /// The typing of the library is at fault.
    Typing(TypingFault),
    /// A bound of play is outside its limits.
    Bounds,
    /// The settings of an arithmetic are outside their limits.
    Settings,
}

impl TextFault {
    /// The number of a fault of the text.
    pub fn number(self) -> u8
        ensures number_of_the_fault { result ≡ text_number self }
    {
        match self {
            TextFault::Form => 10,
            TextFault::Number => 11,
            TextFault::Order => 12,
            TextFault::Reference => 13,
            TextFault::Limit => 14,
            TextFault::Repeat => 15,
        }
    }
}

impl TypingFault {
    /// The number of a fault of typing.
    pub fn number(self) -> u8
        ensures number_of_the_fault { result ≡ typing_number self }
    {
        match self {
            TypingFault::Parts => 16,
            TypingFault::Unlisted => 17,
            TypingFault::Definition => 18,
        }
    }
}

impl LibraryFault {
    /// The number of a fault of a library, which is the number that it has in the text or in typing.
    pub fn number(self) -> u8
        ensures number_of_the_fault { result ≡ library_number self }
    {
        match self {
            LibraryFault::Text(fault) => fault.number(),
            LibraryFault::Typing(fault) => fault.number(),
        }
    }
}

impl PlayFault {
    /// The number of a fault of play, which for a fault of the library is the number that it has there.
    pub fn number(self) -> u8
        ensures number_of_the_fault { result ≡ play_number self }
    {
        match self {
            PlayFault::Text(fault) => fault.number(),
            PlayFault::Typing(fault) => fault.number(),
            PlayFault::Bounds => 20,
            PlayFault::Settings => 22,
        }
    }
}

impl From<TextFault> for LibraryFault {
    ghost from_gives = { λ f r. r ≡ LibraryText f };

    /// A fault of the text is a fault of the library that it spells.
    fn from(text: TextFault) -> LibraryFault {
        LibraryFault::Text(text)
    }
}

impl From<TypingFault> for LibraryFault {
    ghost from_gives = { λ f r. r ≡ LibraryTyping f };

    /// A fault of typing is a fault of the library.
    fn from(typing: TypingFault) -> LibraryFault {
        LibraryFault::Typing(typing)
    }
}

impl From<TextFault> for PlayFault {
    ghost from_gives = { λ f r. r ≡ Text f };

    /// A fault of the text is a fault of play.
    fn from(text: TextFault) -> PlayFault {
        PlayFault::Text(text)
    }
}

impl From<LibraryFault> for PlayFault {
    ghost from_gives = { λ f r. r ≡ as_play f };

    /// A fault of a library keeps its kind as a fault of play.
    fn from(fault: LibraryFault) -> PlayFault {
        match fault {
            LibraryFault::Text(found) => PlayFault::Text(found),
            LibraryFault::Typing(found) => PlayFault::Typing(found),
        }
    }
}

// One impl for each pair of kinds, since one for all kinds would overlap with std's `From<T> for T`.
impl From<Placed<TextFault>> for Placed<PlayFault> {
    ghost from_gives = { λ p r. r ≡ taken_in p };

    /// Takes a fault of the text in as a fault of play, at the same place.
    fn from(placed: Placed<TextFault>) -> Placed<PlayFault> {
        Placed {
            place: placed.place,
            fault: placed.fault.into(),
        }
    }
}

impl From<Placed<TextFault>> for Placed<LibraryFault> {
    ghost from_gives = { λ p r. r ≡ in_library p };

    /// Takes a fault of the text in as a fault of a library, at the same place.
    fn from(placed: Placed<TextFault>) -> Placed<LibraryFault> {
        let Placed { place, fault } = placed;
        Placed {
            place,
            fault: LibraryFault::from(fault),
        }
    }
}

impl From<Placed<LibraryFault>> for Placed<PlayFault> {
    ghost from_gives = { λ p r. r ≡ in_play p };

    /// Takes a fault of a library in as a fault of play, at the same place.
    fn from(placed: Placed<LibraryFault>) -> Placed<PlayFault> {
        let Placed { place, fault } = placed;
        Placed {
            place,
            fault: PlayFault::from(fault),
        }
    }
}
