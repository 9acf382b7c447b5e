//! The texts of replies.
ghost use Rattle.std.specs.Prelude.{◌≡◌, ◌≤◌, ◌++◌, true, false, length, Ok, IfOk, OnOk};
ghost use Rattle.jm_names.specs.Shown.{shown};
ghost use Rattle.jm_reader.specs.Walk.{IsLater};
ghost use Rattle.jm_jrt.specs.Reply as reply;
ghost use Rattle.jm_jrt.specs.Lists.{child_line};
ghost use Rattle.jm_jrt.specs.Views.{count_of};

use crate::child_list::{Child, ChildList};
use crate::jrt_error::JrtError;
use itoa::Buffer;
use jm_bytes::{Meter, NoMemory, extend};
use jm_names::extend_shown;
use std::alloc::Global;
use std::sync::ledger::Ledger;

/// A text of these bytes and a newline.
pub fn line(alloc: Global, bytes: &[u8]) -> Result<Vec<u8>, NoMemory>
    ensures { IfOk result (λ text. text.items ≡ reply.line bytes.now) }
{
    let mut text = Vec::new(alloc);
    extend(&mut text, bytes)?;
    extend(&mut text, b"\n")?;
    Ok(text)
}

/// A word with its space, a number and a newline.
pub fn numbered(alloc: Global, word: &[u8], number: usize) -> Result<Vec<u8>, NoMemory>
    ensures { IfOk result (λ text. text.items ≡ reply.numbered word.now number) }
{
    let mut text = Vec::new(alloc);
    let mut digits = Buffer::new();
    extend(&mut text, word)?;
    extend(&mut text, digits.format(number).as_bytes())?;
    extend(&mut text, b"\n")?;
    Ok(text)
}

/// Puts a word with its space, or a path, and a name as it is shown, and a newline at the end.
fn extend_named(alloc: Global, text: &mut Vec<u8>, word: &[u8], name: &[u8]) -> Result<(), NoMemory>
    ensures { OnOk result (text.new.items ≡ text.old.items ++ reply.named word.now name.now) }
{
    extend(text, word)?;
    extend_shown(alloc, text, name)?;
    extend(text, b"\n")
}

/// A name as it is shown.
fn shown(alloc: Global, name: &[u8]) -> Result<Vec<u8>, NoMemory>
    ensures { IfOk result (λ text. text.items ≡ shown name.now) }
{
    let mut text = Vec::new(alloc);
    extend_shown(alloc, &mut text, name)?;
    Ok(text)
}

/// The reply of a refusal.
pub fn error_reply(alloc: Global, error: JrtError) -> Result<Vec<u8>, NoMemory>
    ensures { IfOk result (λ text. text.items ≡ reply.error_reply error) }
{
    match error {
        JrtError::NotThere => line(alloc, b"error NotThere"),
        JrtError::BadNode(at) => numbered(alloc, b"error BadNode ", at),
        JrtError::NotFolder => line(alloc, b"error NotFolder"),
    }
}

/// The line of a name as it is shown behind a word.
pub fn named(alloc: Global, word: &[u8], name: &[u8]) -> Result<Vec<u8>, NoMemory>
    ensures { IfOk result (λ text. text.items ≡ reply.named word.now name.now) }
{
    let mut text = Vec::new(alloc);
    extend_named(alloc, &mut text, word, name)?;
    Ok(text)
}

/// Puts the line of a child of the folder at a path, which is given as it is shown, at the end.
fn extend_child(
    alloc: Global,
    text: &mut Vec<u8>,
    path: &[u8],
    child: &Child,
) -> Result<(), NoMemory>
    ensures { OnOk result (text.new.items ≡ text.old.items ++ child_line path.now child.now) }
{
    match child {
        Child::Entry(name) => {
            let word: &[u8] = if name.is_node() { b"" } else { b"/modules" };
            let name = name.to_text(alloc)?;
            extend_named(alloc, text, word, name.as_slice())
        }
        Child::Owner { empty, module } => {
            extend(text, path)?;
            extend(text, b"/")?;
            extend_shown(alloc, text, module)?;
            if *empty {
                extend(text, b" empty")?;
            }
            extend(text, b"\n")
        }
    }
}

/// Puts the lines of the children that a list still has at the end of a text: what `ls` of the
/// folder at this path says (this project's rule). Afterwards the list has none left. A child that
/// is a node is said by its name, a resource by its path below `/modules`, and an owner by the path
/// and its module, with ` empty` where the package is empty there.
///
/// After want of memory some of the lines stand.
pub fn extend_children<R: Ledger>(
    alloc: Global,
    text: &mut Vec<u8>,
    path: &[u8],
    list: &mut ChildList,
    reads: &mut Meter<R>,
) -> Result<(), NoMemory>
    requires { reads.old.bytes ≡ list.old.bytes }
    ensures lines { OnOk result (text.new.items
        ≡ text.old.items ++ reply.held_lines path.now list.old.rest) }
    ensures reads { IsLater reads.old reads.new }
{
    let shown_path = shown(alloc, path)?;
    while let Some(child) = list.step(reads) {
        extend_child(alloc, text, shown_path.as_slice(), &child)?;
    }
    Ok(())
}

/// Puts the lines of the next children of a list at the end of a text, as `extend_children` does,
/// until the text has `limit` bytes or more, which it answers by true, or the list has no child
/// left: false.
pub fn extend_next_children<R: Ledger>(
    alloc: Global,
    text: &mut Vec<u8>,
    path: &[u8],
    list: &mut ChildList,
    limit: usize,
    reads: &mut Meter<R>,
) -> Result<bool, NoMemory>
    requires { reads.old.bytes ≡ list.old.bytes }
    ensures lines { OnOk result (text.new.items ++ reply.held_lines path.now list.new.rest
        ≡ text.old.items ++ reply.held_lines path.now list.old.rest) }
    ensures full { result ≡ Ok true → limit ≤ length text.new.items }
    ensures end { result ≡ Ok false → count_of list.new.rest ≡ 0 }
    ensures bytes { list.new.bytes ≡ list.old.bytes }
    ensures reads { IsLater reads.old reads.new }
{
    let shown_path = shown(alloc, path)?;
    while text.len() < limit {
        match list.step(reads) {
            Some(child) => extend_child(alloc, text, shown_path.as_slice(), &child)?,
            None => return Ok(false),
        }
    }
    Ok(true)
}
