//! The reply to a line of a session.
ghost use Rattle.std.specs.Prelude.{◌≡◌, ◌++◌, codes, IfOk};
ghost use Rattle.jm_bytes.specs.Metered.{CostsAtMost, RisesAtMost};
ghost use Rattle.jm_form.specs.Validity.{look};
ghost use Rattle.jm_reader.specs.Walk.{IsLater};
ghost use Rattle.jm_jrt.specs.Framed.{IsFramed};
ghost use Rattle.jm_jrt.specs.Reply as reply;
ghost use Rattle.jm_jrt.specs.Stat as answers;

use crate::node::Node;
use crate::replies::{self, error_reply, extend_children, line, named, numbered};
use crate::trees::{children, owner, stat};
use jm_bytes::{Meter, NoMemory, Steps, Text, extend};
use jm_names::{cut_at_first, to_modified};
use jm_reader::find;
use jm_valid::Image;
use std::alloc::Global;
use std::sync::ledger::Ledger;

/// The reply of `find` with the name of an entry.
fn answer_find<H: Ledger, R: Ledger>(
    alloc: Global,
    image: &Image,
    name: &[u8],
    hashes: &mut Steps<H>,
    reads: &mut Meter<R>,
) -> Result<Vec<u8>, NoMemory>
    requires { reads.old.bytes ≡ image.now }
    ensures reply { IfOk result (λ text. text.items ≡ reply.find_reply (look image.now name.now)) }
    ensures hashes { RisesAtMost hashes.old hashes.new 2 }
    ensures reads { CostsAtMost reads.old reads.new (reply.find_bytes image.now name.now) }
{
    match find(image, name, hashes, reads) {
        None => line(alloc, b"none"),
        Some(found) => {
            let mut text = numbered(alloc, b"found ", found.bytes.len())?;
            extend(&mut text, found.bytes)?;
            extend(&mut text, b"\n")?;
            Ok(text)
        }
    }
}

/// The reply of `stat` with a path.
#[tactic(auto, using(crate::proofs::ListLaws::item_reply_of))]
fn answer_stat<H: Ledger, R: Ledger>(
    alloc: Global,
    image: &Image,
    path: &[u8],
    hashes: &mut Steps<H>,
    reads: &mut Meter<R>,
) -> Result<Vec<u8>, NoMemory>
    requires { reads.old.bytes ≡ image.now }
    ensures reply { IfOk result (λ text. text.items
        ≡ reply.stat_reply (answers.stat image.now path.now)) }
    ensures hashes { RisesAtMost hashes.old hashes.new 4 }
    ensures reads { IsLater reads.old reads.new }
{
    match stat(image, path, hashes, reads) {
        Err(error) => error_reply(alloc, error),
        Ok(Node::Folder(list)) => numbered(alloc, b"folder ", list.len()),
        Ok(Node::File(bytes)) => numbered(alloc, b"file ", bytes.len()),
        Ok(Node::Link(module)) => named(alloc, b"link /modules/", module),
    }
}

/// The reply of `ls` with a path.
fn answer_ls<H: Ledger, R: Ledger>(
    alloc: Global,
    image: &Image,
    path: &[u8],
    hashes: &mut Steps<H>,
    reads: &mut Meter<R>,
) -> Result<Vec<u8>, NoMemory>
    requires { reads.old.bytes ≡ image.now }
    ensures reply { IfOk result (λ text. text.items
        ≡ reply.ls_reply path.now (answers.held (answers.stat image.now path.now))) }
    ensures hashes { RisesAtMost hashes.old hashes.new 4 }
    ensures reads { IsLater reads.old reads.new }
{
    let mut list = match children(image, path, hashes, reads) {
        Err(error) => return error_reply(alloc, error),
        Ok(list) => list,
    };
    let mut text = numbered(alloc, b"folder ", list.len())?;
    extend_children(alloc, &mut text, path, &mut list, reads)?;
    Ok(text)
}

/// The path of the package of this name.
fn package_path(alloc: Global, name: &[u8]) -> Result<Vec<u8>, NoMemory>
    ensures { IfOk result (λ path. path.items ≡ codes "/packages/" ++ name.now) }
{
    let mut path = Vec::new(alloc);
    extend(&mut path, b"/packages/")?;
    extend(&mut path, name)?;
    Ok(path)
}

/// The reply of `owner` with the name of a package.
fn answer_owner<H: Ledger, R: Ledger>(
    alloc: Global,
    image: &Image,
    name: &[u8],
    hashes: &mut Steps<H>,
    reads: &mut Meter<R>,
) -> Result<Vec<u8>, NoMemory>
    requires { reads.old.bytes ≡ image.now }
    ensures reply { IfOk result (λ text. text.items
        ≡ reply.owner_reply (answers.owner image.now (codes "/packages/" ++ name.now))) }
    ensures hashes { RisesAtMost hashes.old hashes.new 2 }
    ensures reads { IsLater reads.old reads.new }
{
    let path = package_path(alloc, name)?;
    match owner(image, path.as_slice(), hashes, reads) {
        Err(error) => error_reply(alloc, error),
        Ok(None) => line(alloc, b"none"),
        Ok(Some(module)) => named(alloc, b"owner ", module),
    }
}

/// The reply to a line of a session.
fn reply_to<H: Ledger, R: Ledger>(
    alloc: Global,
    image: &Image,
    line: &[u8],
    hashes: &mut Steps<H>,
    reads: &mut Meter<R>,
) -> Result<Vec<u8>, NoMemory>
    requires { reads.old.bytes ≡ image.now }
    ensures reply { IfOk result (λ text. text.items ≡ reply.reply image.now line.now) }
    ensures hashes { RisesAtMost hashes.old hashes.new 4 }
    ensures reads { reply.IsWithin (reply.line_bytes image.now line.now) reads.old reads.new }
{
    let Some((verb, argument)) = cut_at_first(b' ', line) else {
        return replies::line(alloc, b"error Request");
    };
    let argument = to_modified(alloc, argument)?;
    let argument = argument.as_slice();
    if verb == b"find".as_slice() {
        return answer_find(alloc, image, argument, hashes, reads);
    }
    if verb == b"stat".as_slice() {
        return answer_stat(alloc, image, argument, hashes, reads);
    }
    if verb == b"ls".as_slice() {
        return answer_ls(alloc, image, argument, hashes, reads);
    }
    if verb == b"owner".as_slice() {
        return answer_owner(alloc, image, argument, hashes, reads);
    }
    replies::line(alloc, b"error Request")
}

/// The reply to a line of a session, which is given without its newline (this project's rule). It
/// tells a program where it ends: it is one line, after which come, for `find`, that many bytes as
/// it says, and for `ls` that many lines.
///
/// It costs at most four hashes. To `find NAME` it costs at most two hashes, and at most the bytes
/// of the name as an image stores it, 76 more and those of the content.
#[tactic(auto, using(crate::proofs::FramedLaws::framed_by))]
pub fn answer<H: Ledger, R: Ledger>(
    alloc: Global,
    image: &Image,
    line: &[u8],
    hashes: &mut Steps<H>,
    reads: &mut Meter<R>,
) -> Result<Text, NoMemory>
    requires { reads.old.bytes ≡ image.now }
    ensures reply { IfOk result (λ text. text ≡ reply.reply image.now line.now) }
    ensures framed { IfOk result (λ text. IsFramed line.now text) }
    ensures hashes { RisesAtMost hashes.old hashes.new 4 }
    ensures reads { reply.IsWithin (reply.line_bytes image.now line.now) reads.old reads.new }
{
    let text = reply_to(alloc, image, line, hashes, reads)?;
    Ok(Text::from_vec(text))
}
