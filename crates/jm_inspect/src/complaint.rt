ghost use Rattle.std.specs.Prelude.{◌≡◌, ◌∷◌, ◌++◌, [], codes, IfOk, IsOk, string_bytes};
ghost use Rattle.std.specs.Fmt.{decimal};
ghost use Rattle.jm_names.specs.Shown.{shown, shown_text};
ghost use Rattle.jm_inspect.specs.Steps.{status_of};
ghost use Rattle.jm_inspect.specs.Texts.{line_of};

use crate::status::Status;
use itoa::Buffer;
use jm_bytes::{NoMemory, Text, copy_of, extend};
use jm_form::Damage;
use jm_names::{extend_shown, extend_shown_text};
use jm_texts::Refusal;
use jm_words::WordsFault;
use std::alloc::{AllocError, Global};

/// What a run ends with in place of its output; it has a line that says so.
#[derive(Drop)]
pub enum Complaint {
    /// The words make no command.
    Words(WordsFault),
    /// The image has this first damage.
    Damaged(Damage),
    /// This path, or this name in UTF-8, isn't there.
    NotThere(Text),
    /// The command refuses its input.
    Refused(Refusal),
    /// The node of the folder that `ls` was asked for has a bad content at this place.
    BadNode(usize),
    /// No entry has this name of a root of the two trees.
    NoNode(Text),
    /// The content of the node of this name has its first bad word at this place.
    BadNodeAt {
        /// The name.
        name: Text,
        /// The place.
        at: usize,
    },
    /// `ls` was asked for what is no folder.
    NotFolder,
    /// The line of a session of this number, counted from 1, is too long.
    LongLine(u64),
    /// A session has too many lines.
    TooManyLines,
}

impl Complaint {
    /// The status that a run with this complaint ends with.
    pub fn status(&self) -> Status
        ensures { result ≡ status_of self.now }
    {
        match self {
            Complaint::Words(_) => Status::Words,
            Complaint::Damaged(_) | Complaint::BadNode(_) => Status::Damaged,
            Complaint::NoNode(_) | Complaint::BadNodeAt { .. } => Status::Damaged,
            Complaint::NotThere(_) => Status::NotThere,
            Complaint::Refused(_) | Complaint::NotFolder => Status::Refused,
            Complaint::LongLine(_) | Complaint::TooManyLines => Status::Session,
        }
    }

    /// Its line, with the newline that ends it.
    pub fn line(&self, alloc: Global) -> Result<Vec<u8>, NoMemory>
        ensures { IfOk result (λ line. line.items ≡ line_of self.now) }
    {
        match self {
            Complaint::Words(fault) => bytes_of(format!(in alloc; "words: {fault}\n")),
            Complaint::Damaged(damage) => bytes_of(format!(in alloc; "damaged: {damage}\n")),
            Complaint::NotThere(text) => not_there_line(alloc, text.as_slice()),
            Complaint::Refused(refusal) => {
                let text = refusal.text(alloc)?;
                line_with(alloc, b"refused: ", text.as_slice())
            }
            Complaint::BadNode(at) => bytes_of(format!(in alloc; "damaged: BadNode {at}\n")),
            Complaint::NoNode(name) => no_node_line(alloc, name.as_slice()),
            Complaint::BadNodeAt { name, at } => bad_node_line(alloc, *at, name.as_slice()),
            Complaint::NotFolder => line_with(alloc, b"refused: ", b"NotFolder"),
            Complaint::LongLine(number) => {
                bytes_of(format!(in alloc; "session: LongLine {number}\n"))
            }
            Complaint::TooManyLines => line_with(alloc, b"session: ", b"TooManyLines 1000001"),
        }
    }
}

/// The bytes of a text for which memory was found.
fn bytes_of(text: Result<String, AllocError>) -> Result<Vec<u8>, NoMemory>
    ensures bytes { IfOk result (λ bytes. IfOk text (λ text. bytes.items ≡ string_bytes text)) }
    ensures ok { IsOk result → IsOk text }
{
    match text {
        Ok(text) => Ok(text.into_bytes()),
        Err(_) => Err(NoMemory),
    }
}

/// The line on a path, or on a name in UTF-8, that isn't there.
fn not_there_line(alloc: Global, text: &[u8]) -> Result<Vec<u8>, NoMemory>
    ensures { IfOk result (λ line. line.items
        ≡ codes "not there: " ++ shown_text text.now ++ 10 ∷ []) }
{
    let mut line = copy_of(alloc, b"not there: ")?;
    extend_shown_text(&mut line, text)?;
    extend(&mut line, b"\n")?;
    Ok(line)
}

/// The line on a node that isn't there.
fn no_node_line(alloc: Global, name: &[u8]) -> Result<Vec<u8>, NoMemory>
    ensures { IfOk result (λ line. line.items
        ≡ codes "damaged: NoNode " ++ shown name.now ++ 10 ∷ []) }
{
    let mut line = copy_of(alloc, b"damaged: NoNode ")?;
    extend_shown(alloc, &mut line, name)?;
    extend(&mut line, b"\n")?;
    Ok(line)
}

/// The line on the node of this name whose content has its first bad word at a place.
fn bad_node_line(alloc: Global, at: usize, name: &[u8]) -> Result<Vec<u8>, NoMemory>
    ensures { IfOk result (λ line. line.items
        ≡ codes "damaged: BadNode " ++ decimal at ++ 32 ∷ shown name.now ++ 10 ∷ []) }
{
    let mut line = copy_of(alloc, b"damaged: BadNode ")?;
    let mut place = Buffer::new();
    extend(&mut line, place.format(at).as_bytes())?;
    extend(&mut line, b" ")?;
    extend_shown(alloc, &mut line, name)?;
    extend(&mut line, b"\n")?;
    Ok(line)
}

/// A line of a word and a text.
fn line_with(alloc: Global, word: &[u8], text: &[u8]) -> Result<Vec<u8>, NoMemory>
    ensures { IfOk result (λ line. line.items ≡ word.now ++ text.now ++ 10 ∷ []) }
{
    let Ok(mut line) = Vec::from_slice(alloc, word) else {
        return Err(NoMemory);
    };
    extend(&mut line, text)?;
    extend(&mut line, b"\n")?;
    Ok(line)
}
