//! What a line on the standard error tells, read back as data.
use jm_words::{WordsFault, WordsKind};

/// What a line tells of which a hint can be given.
#[derive(Clone, Copy)]
pub enum Told {
    /// The words make no command.
    Words(WordsFault),
    /// A class has this major version, which isn't read.
    Version(u64),
    /// A module isn't found.
    NoModule,
    /// An image is compressed.
    Compressed,
    /// A file doesn't begin as an image does.
    NoImage,
}

/// What a line tells, which ends with a newline, if a hint can be given of it.
pub fn told_by(line: &str) -> Option<Told> {
    let (status, text) = line.strip_suffix('\n')?.split_once(": ")?;
    match status {
        "words" => told_words(text),
        "refused" => told_refusal(text),
        "damaged" => told_damage(text),
        _ => None,
    }
}

/// A fault of the words: its kind and its word's number.
fn told_words(text: &str) -> Option<Told> {
    let (kind, at) = text.split_once(" at ")?;
    let kind = kind_named(kind)?;
    let at = at.parse::<usize>().ok()?;
    Some(Told::Words(WordsFault { at, kind }))
}

/// The kind of a name.
fn kind_named(name: &str) -> Option<WordsKind> {
    match name {
        "NoCommand" => Some(WordsKind::NoCommand),
        "UnknownCommand" => Some(WordsKind::UnknownCommand),
        "UnknownOption" => Some(WordsKind::UnknownOption),
        "Repeated" => Some(WordsKind::Repeated),
        "NoValue" => Some(WordsKind::NoValue),
        "BadValue" => Some(WordsKind::BadValue),
        "TooManyArguments" => Some(WordsKind::TooManyArguments),
        "Missing" => Some(WordsKind::Missing),
        _ => None,
    }
}

/// A refusal: its kind, and what it carries. That of a class ends with what is wrong with it.
fn told_refusal(text: &str) -> Option<Told> {
    let (kind, carried) = text.split_once(' ')?;
    match kind {
        "NoRoot" | "Missing" => Some(Told::NoModule),
        "BadInfo" | "BadClass" => {
            let (_, major) = carried.rsplit_once(" Version ")?;
            Some(Told::Version(major.parse::<u64>().ok()?))
        }
        _ => None,
    }
}

/// A damage: its kind, and what it carries.
fn told_damage(text: &str) -> Option<Told> {
    match text.split_once(' ')? {
        ("Header", "Magic") => Some(Told::NoImage),
        ("Compressed", _) => Some(Told::Compressed),
        _ => None,
    }
}
