ghost use Rattle.std.specs.Prelude.{◌≡◌, Some, Err, map, option_map, string_bytes};
ghost use Rattle.jm_bytes.specs.Results.{IfAnswered};
ghost use Rattle.jm_bytes.specs.declared.faults.Or.TheVariants.{Fault};
ghost use Rattle.jm_words.specs.Reading.{after_argument, after_role, after_text};
ghost use Rattle.jm_words.specs.Roles.{option_named, option_role, role_of};
ghost use Rattle.jm_words.specs.Rows.{row_of};
ghost use Rattle.jm_words.specs.Rule.{draft_given};

use crate::drafts::{Draft, has};
use crate::errors::{WordsFault, WordsKind};
use crate::given::{Given, Value, given_of};
use crate::tables::{Row, Verb, arguments, options};
use crate::values::parted;
use jm_bytes::Or;
use std::alloc::Global;
use std::marker::Model;

/// What stands after some words.
#[derive(Drop)]
struct Progress {
    draft: Draft,
    /// The arguments still to come.
    left: &'static [Row],
    /// The option whose value is the next word.
    pending: Option<Row>,
}

impl Model for Progress {
    ghost use Rattle.std.specs.Prelude.{map, option_map};
    ghost use Rattle.jm_words.specs.Reading.{Standing};
    ghost use Rattle.jm_words.specs.Rows.{row_of};

    ghost Value = { Standing };

    ghost view = { λ a. record {
      draft = a.draft;
      left = map row_of a.left.now;
      pending = option_map row_of a.pending;
    } };
}

/// The number of a word, and that of the last one.
#[derive(Clone, Copy)]
struct Position {
    at: usize,
    last: usize,
}

/// What the words behind a command give, or their first fault.
pub fn draft_of(alloc: Global, verb: Verb, words: &[String]) -> Result<Draft, Or<WordsFault>>
    ensures { IfAnswered
        (λ r. r ≡ draft_given verb (map string_bytes words.now)) result }
{
    let rows = options(verb);
    let mut progress = Progress {
        draft: Draft::new(alloc),
        left: arguments(verb),
        pending: None,
    };
    for i in 0..words.len() {
        let position = Position {
            at: i + 2,
            last: words.len() + 1,
        };
        progress = after_word(alloc, rows, position, words[i].as_str(), progress)?;
    }
    Ok(progress.draft)
}

/// One word: the value that an option waits for, or an option or an argument.
fn after_word(
    alloc: Global,
    rows: &[Row],
    position: Position,
    word: &str,
    progress: Progress,
) -> Result<Progress, Or<WordsFault>>
    ensures { IfAnswered (λ r. r
        ≡ after_role position.at position.last progress
        (role_of (map row_of rows.now) progress.pending word.now)) result }
{
    if let Some(row) = progress.pending {
        return after_text(alloc, position.at, given_of(alloc, row, word)?, progress);
    }
    if !word.as_bytes().starts_with(b"--") {
        return after_argument(alloc, position.at, word, progress);
    }
    let (name, value) = parted(word);
    match option_named(name.as_bytes(), rows) {
        Some(row) => after_option(alloc, position, row, value, progress),
        None => fault_at(position.at, WordsKind::UnknownOption),
    }
}

/// An option that the command has, with what stands behind its `=`; without it, it has no value, or
/// the next word is its value.
fn after_option(
    alloc: Global,
    position: Position,
    row: Row,
    value: Option<&str>,
    progress: Progress,
) -> Result<Progress, Or<WordsFault>>
    ensures { IfAnswered (λ r. r ≡ after_role position.at position.last progress
        (option_role (Some (row_of row)) (option_map (λ text. text.now) value.entry))) result }
{
    let Position { at, last } = position;
    let mut progress = progress;
    if has(progress.draft.values.as_slice(), row.2) {
        return fault_at(at, WordsKind::Repeated);
    }
    if let Some(text) = value {
        return after_text(alloc, at, given_of(alloc, row, text)?, progress);
    }
    if row.1.is_flag() {
        let given = Given {
            field: row.2,
            value: Value::Flag,
        };
        return after_text(alloc, at, Some(given), progress);
    }
    if at == last {
        return fault_at(at, WordsKind::NoValue);
    }
    progress.pending = Some(row);
    Ok(progress)
}

/// A word that is an argument.
fn after_argument(
    alloc: Global,
    at: usize,
    word: &str,
    progress: Progress,
) -> Result<Progress, Or<WordsFault>>
    ensures { IfAnswered (λ r. r ≡ after_argument at word.now progress.left progress) result }
{
    let mut progress = progress;
    match progress.left.split_first() {
        Some((row, left)) => {
            progress.left = left;
            after_text(alloc, at, given_of(alloc, *row, word)?, progress)
        }
        None => fault_at(at, WordsKind::TooManyArguments),
    }
}

/// What a word's text gives is put, if the text is of its form.
fn after_text(
    alloc: Global,
    at: usize,
    given: Option<Given>,
    progress: Progress,
) -> Result<Progress, Or<WordsFault>>
    ensures { IfAnswered (λ r. r ≡ after_text at given progress) result }
{
    let mut progress = progress;
    match given {
        Some(given) => {
            progress.draft.put(alloc, at, given)?;
            progress.pending = None;
            Ok(progress)
        }
        None => fault_at(at, WordsKind::BadValue),
    }
}

/// The option of a name.
fn option_named(name: &[u8], rows: &[Row]) -> Option<Row>
    ensures { option_map row_of result ≡ option_named name.now (map row_of rows.now) }
{
    for row in rows {
        if row.0 == name {
            return Some(*row);
        }
    }
    None
}

fn fault_at(at: usize, kind: WordsKind) -> Result<Progress, Or<WordsFault>>
    ensures { result ≡ Err (Fault (record { at = at; kind = kind })) }
{
    Err(Or::Fault(WordsFault { at, kind }))
}
