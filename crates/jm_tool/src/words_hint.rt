//! What to write in the place of words that make no command, by the tables of the commands.
use crate::items::{Item, items_of, option_named};
use jm_words::{
    Field, Form, Row, Verb, WordsFault, WordsKind, arguments, limits, options, verb_name,
    verb_named, verbs,
};
use std::alloc::{AllocError, Global};
use std::str;

/// The hint on a fault of the words, if there is something to say.
pub fn words_hint(
    alloc: Global,
    words: &[String],
    fault: WordsFault,
) -> Result<Option<String>, AllocError> {
    let word = word_at(words, fault.at);
    let verb = words.first().and_then(|name| verb_named(name.as_bytes()));
    let hint = match (fault.kind, verb) {
        (WordsKind::NoCommand, _) => String::from_str(alloc, "jm_tool --help lists the commands")?,
        (WordsKind::UnknownCommand, _) => unknown_command(alloc, word)?,
        (WordsKind::UnknownOption, Some(verb)) => unknown_option(alloc, verb, word)?,
        (WordsKind::TooManyArguments, Some(verb)) => too_many(alloc, verb, word)?,
        (WordsKind::Repeated, Some(verb)) => return repeated(alloc, verb, word),
        (WordsKind::NoValue, Some(verb)) => return no_value(alloc, verb, word),
        (WordsKind::BadValue, Some(verb)) => {
            let items = items_of(alloc, verb, words)?;
            return bad_value(alloc, fault.at, items.as_slice());
        }
        (WordsKind::Missing, Some(verb)) => {
            let items = items_of(alloc, verb, words)?;
            return missing(alloc, verb, items.as_slice());
        }
        (_, None) => return Ok(None),
    };
    Ok(Some(hint))
}

/// The word of a number, from 1.
fn word_at(words: &[String], at: usize) -> &str {
    match at.checked_sub(1).and_then(|place| words.get(place)) {
        Some(word) => word.as_str(),
        None => "",
    }
}

/// A name of the tables as text.
fn as_text(name: &'static [u8]) -> &'static str {
    str::from_utf8(name).unwrap_or("")
}

/// A word that names no command.
fn unknown_command(alloc: Global, word: &str) -> Result<String, AllocError> {
    let mut hint = format!(in alloc; "'{word}' is no command; the commands are")?;
    let mut mark = " ";
    for verb in verbs() {
        hint.push_str(mark)?;
        hint.push_str(as_text(verb_name(*verb)))?;
        mark = ", ";
    }
    Ok(hint)
}

/// A word that names no option of its command.
fn unknown_option(alloc: Global, verb: Verb, word: &str) -> Result<String, AllocError> {
    let name = as_text(verb_name(verb));
    let taken = joined(alloc, options(verb), ", ")?;
    format!(in alloc; "'{word}' is no option of {name}, which takes {taken}")
}

/// An argument after those that its command takes.
fn too_many(alloc: Global, verb: Verb, word: &str) -> Result<String, AllocError> {
    let name = as_text(verb_name(verb));
    let taken = joined(alloc, arguments(verb), " ")?;
    if taken.is_empty() {
        format!(in alloc; "'{word}' is one too many; {name} takes no argument")
    } else {
        format!(in alloc; "'{word}' is one too many; {name} takes {taken}")
    }
}

/// An option that stood before.
fn repeated(alloc: Global, verb: Verb, word: &str) -> Result<Option<String>, AllocError> {
    let Some(row) = option_named(verb, word) else {
        return Ok(None);
    };
    let name = as_text(verb_name(verb));
    let taken = as_text(row.0);
    let hint = format!(in alloc; "'{word}' is one too many; {name} takes {taken} once")?;
    Ok(Some(hint))
}

/// An option whose value isn't there.
fn no_value(alloc: Global, verb: Verb, word: &str) -> Result<Option<String>, AllocError> {
    let Some(row) = option_named(verb, word) else {
        return Ok(None);
    };
    let form = form_text(alloc, row)?;
    Ok(Some(format!(in alloc; "'{word}' needs a value, {form}")?))
}

/// The argument, or the value, in a word that isn't of its form.
fn bad_value(alloc: Global, at: usize, items: &[Item<'_>]) -> Result<Option<String>, AllocError> {
    let Some(item) = items.iter().find(|item| item.at == at) else {
        return Ok(None);
    };
    let name = as_text(item.row.0);
    let hint = match item.text {
        Some(text) if item.row.1.is_flag() => {
            format!(in alloc; "{name} takes no value; write it without '={text}'")?
        }
        Some(text) => {
            let form = form_text(alloc, item.row)?;
            format!(in alloc; "{name} must be {form}, and is '{text}'")?
        }
        None => format!(in alloc; "{name} needs --from-image")?,
    };
    Ok(Some(hint))
}

/// The options of which one isn't there, or else the first argument or required option of a command
/// that isn't.
fn missing(alloc: Global, verb: Verb, items: &[Item<'_>]) -> Result<Option<String>, AllocError> {
    let name = as_text(verb_name(verb));
    let alternatives = options_with_modules(alloc, verb)?;
    if !alternatives.is_empty() && !items.iter().any(|item| has_modules(item.row.2)) {
        let taken = joined(alloc, alternatives.as_slice(), " or ")?;
        return Ok(Some(format!(in alloc; "{name} needs {taken}")?));
    }
    let argument = first_missing(arguments(verb), items);
    let Some(row) = argument.or(first_missing(options(verb), items)) else {
        return Ok(None);
    };
    let taken = as_text(row.0);
    let form = form_text(alloc, row)?;
    Ok(Some(format!(in alloc; "{name} needs {taken}, {form}")?))
}

/// The first row that must be there and isn't.
fn first_missing(rows: &[Row], items: &[Item<'_>]) -> Option<Row> {
    for row in rows {
        if is_required(row.2) && !items.iter().any(|item| item.row.2 == row.2) {
            return Some(*row);
        }
    }
    None
}

/// Whether a command that takes a field must have it.
fn is_required(field: Field) -> bool {
    matches!(
        field,
        Field::File
            | Field::Name
            | Field::Folder
            | Field::Roots
            | Field::Output
            | Field::Modules
            | Field::Classes
            | Field::Seed
    )
}

/// Whether a field says where modules are.
fn has_modules(field: Field) -> bool {
    matches!(field, Field::Directories | Field::FromImage)
}

/// The options of a command that say where modules are, one of which must stand.
fn options_with_modules(alloc: Global, verb: Verb) -> Result<Vec<Row>, AllocError> {
    let mut rows = Vec::new(alloc);
    for row in options(verb) {
        if has_modules(row.2) {
            rows.push(*row)?;
        }
    }
    Ok(rows)
}

/// The names of rows, with a text between them.
fn joined(alloc: Global, rows: &[Row], between: &str) -> Result<String, AllocError> {
    let mut text = String::new(alloc);
    for row in rows {
        if !text.is_empty() {
            text.push_str(between)?;
        }
        text.push_str(as_text(row.0))?;
    }
    Ok(text)
}

/// What the text of a row must be.
fn form_text(alloc: Global, row: Row) -> Result<String, AllocError> {
    let text = match row.1 {
        Form::Flag => "no value",
        Form::Path => "the path of a file",
        Form::Folder => "the path of a directory other than /",
        Form::Folders => "paths of directories with colons between them, none empty or /",
        Form::Name => "the name of an entry, as /java.base/java/lang/Object.class",
        Form::InnerPath => "a path of the image's trees, as /modules/java.base",
        Form::Names => "names of modules with commas between them, none empty",
        Form::Number => {
            let (least, greatest) = limits(row.2);
            return format!(in alloc; "a number from {least} to {greatest}, without leading zeros");
        }
        Form::Order => "little or big",
        Form::Patterns => {
            "patterns with commas between them, none empty, with regex: or @ first, or \\ last"
        }
    };
    String::from_str(alloc, text)
}
