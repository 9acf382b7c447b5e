ghost use Rattle.std.specs.Prelude.{Some};
ghost use Rattle.jm_words.specs.FaultText.{fault_text, kind_text};

use std::fmt;

/// What is wrong with the words.
#[derive(Clone, Copy, Debug, PartialEq, Eq)]
pub enum WordsKind {
    /// There is no word.
    NoCommand,
    /// The first word is no command.
    UnknownCommand,
    /// The command has no such option.
    UnknownOption,
    /// The option stood before.
    Repeated,
    /// The option's value isn't there.
    NoValue,
    /// The value isn't of its form.
    BadValue,
    /// The command has no further argument.
    TooManyArguments,
    /// An argument or an option isn't there.
    Missing,
}

/// Why words make no command: the first fault.
#[derive(Clone, Copy, Debug, PartialEq, Eq)]
pub struct WordsFault {
    /// The number of its word, from 1, or that of all words where something is missing.
    pub at: usize,
    /// What is wrong.
    pub kind: WordsKind,
}

impl fmt::Display for WordsKind {
    ghost output = { λ kind. Some (kind_text kind) };

    fn fmt<W: fmt::Write>(&self, f: &mut fmt::Formatter<W>) -> fmt::Result {
        match self {
            WordsKind::NoCommand => write!(f, "NoCommand"),
            WordsKind::UnknownCommand => write!(f, "UnknownCommand"),
            WordsKind::UnknownOption => write!(f, "UnknownOption"),
            WordsKind::Repeated => write!(f, "Repeated"),
            WordsKind::NoValue => write!(f, "NoValue"),
            WordsKind::BadValue => write!(f, "BadValue"),
            WordsKind::TooManyArguments => write!(f, "TooManyArguments"),
            WordsKind::Missing => write!(f, "Missing"),
        }
    }
}

impl fmt::Display for WordsFault {
    ghost output = { λ fault. Some (fault_text fault) };

    fn fmt<W: fmt::Write>(&self, f: &mut fmt::Formatter<W>) -> fmt::Result {
        write!(f, "{} at {}", self.kind, self.at)
    }
}
