ghost use Rattle.std.specs.Prelude.{◌≡◌, ◌+◌, ◌-◌, ◌*◌, ℕ, List, length, None, Some};
ghost use Rattle.std.specs.Prelude.{IfNone, IfOk, IfSome};
ghost use Rattle.std.specs.Prelude.{false, is_some, option_map, true};
ghost use Rattle.jm_bytes.specs.Metered.{CostsAtMost, RisesAtMost};
ghost use Rattle.jm_form.specs.Entries.{content_of};
ghost use Rattle.jm_form.specs.Head.{IsFileOf};
ghost use Rattle.jm_form.specs.Places.{contents};
ghost use Rattle.jm_reader.specs.Look.{head, SoundIn};
ghost use Rattle.jm_reader.specs.Walk.{IsLater};
ghost use Rattle.jm_jrt.specs.Nodes.{IsOf, item_as, on_ok, StatCosts};
ghost use Rattle.jm_jrt.specs.Standings.{IsIn, StandingCosts, standing_as, whole};
ghost use Rattle.jm_jrt.specs.Stat as answers;
ghost use Rattle.jm_jrt.specs.Told.{IsBadWord};
ghost use Rattle.jm_jrt.specs.TreesShown.{IsItemOfTrees, IsOwnerOfTrees};
ghost use Rattle.jm_jrt.specs.Views.{held_by};

use crate::child_list::{ChildList, ToCome};
use crate::jrt_error::JrtError;
use crate::node::Node;
use crate::owners::{find_owner, first_full};
use crate::paths::{has_children, is_package, node_path};
use crate::words::{Form, check, first_bad_word};
use jm_bytes::{Meter, Steps};
use jm_form::Row;
use jm_names::{cut_at_last, is_node};
use jm_reader::{find, find_row_in};
use jm_valid::{Image, Index};
use std::sync::ledger::Ledger;

/// What stands at a path, as an index and the content of the path's node say it.
#[derive(Drop)]
enum Standing<'a> {
    /// A folder, by its children.
    Folder(ChildList<'a>),
    /// A file, by its row.
    File(Row),
    /// A link to `/modules/m`, by the module's name m.
    Link(&'a [u8]),
}

/// The row of the node whose content says what stands at a path, in each file of the index; None
/// where no node says it, as at `/` and at the path of a file. It costs at most two hashes.
pub fn node_row<H: Ledger, R: Ledger>(
    index: &Index,
    path: &[u8],
    hashes: &mut Steps<H>,
    reads: &mut Meter<R>,
) -> Option<Row>
    requires { reads.old.bytes ≡ index.now.bytes }
    ensures found { (b : List ℕ) → IsFileOf index.now.bytes index.now.length b
        → result ≡ option_map (λ found. found.0) (answers.node_sought b path.now) }
    ensures content { (b : List ℕ) → IsFileOf index.now.bytes index.now.length b
        → IfSome result (λ row. answers.node_sought b path.now
        ≡ Some (row, content_of (contents b (head b)) row)) }
    ensures none { (b : List ℕ) → IsFileOf index.now.bytes index.now.length b
        → IfNone result (answers.node_sought b path.now ≡ None) }
    ensures row { IfSome result (SoundIn index.now) }
    ensures hashes { RisesAtMost hashes.old hashes.new 2 }
    ensures reads { IsLater reads.old reads.new }
{
    find_row_in(index, node_path(path)?, hashes, reads)
}

/// What the content of the node of a name is read as.
fn form_of(name: &[u8]) -> Form
    ensures { result ≡ answers.form_of name.now }
{
    if has_children(name) {
        Form::Children
    } else {
        Form::Owners
    }
}

/// The place of the first bad word of the content of the node of a name, in each file of the index;
/// None where it has none.
pub fn node_fault<R: Ledger>(
    index: &Index,
    name: &[u8],
    content: &[u8],
    reads: &mut Meter<R>,
) -> Option<usize>
    requires { reads.old.bytes ≡ index.now.bytes }
    ensures place { (b : List ℕ) → IsFileOf index.now.bytes index.now.length b
        → result ≡ answers.node_fault b name.now content.now }
    ensures rule { (b : List ℕ) → IsFileOf index.now.bytes index.now.length b
        → IsBadWord b content.now (answers.form_of name.now) result }
    ensures reads { IsLater reads.old reads.new }
{
    let _header = index.header();
    first_bad_word(index, content, form_of(name), reads)
}

/// What stands at a path, by the content of the path's node.
fn said_by<'a, R: Ledger>(
    index: &Index<'a>,
    path: &[u8],
    content: &'a [u8],
    reads: &mut Meter<R>,
) -> Result<Standing<'a>, JrtError>
    requires { reads.old.bytes ≡ index.now.bytes }
    ensures item { (b : List ℕ) → IsFileOf index.now.bytes index.now.length b
        → answers.node_content b path.now ≡ Some content.now
        → standing_as b result ≡ answers.stat b path.now }
    ensures within { IfOk result (IsIn index.now) }
    ensures reads { StandingCosts result true (length path.now + 76) reads.old reads.new }
{
    if has_children(path) {
        check(index, content, Form::Children, reads)?;
        let left = ToCome::Words { content, next: 0 };
        return Ok(Standing::Folder(ChildList::of(index, left)));
    }
    check(index, content, Form::Owners, reads)?;
    if is_package(path) {
        let left = ToCome::Pairs { content, next: 0 };
        return Ok(Standing::Folder(ChildList::of(index, left)));
    }
    let Some((_, module)) = cut_at_last(b'/', path) else {
        return Err(JrtError::NotThere);
    };
    match find_owner(index, content, module, reads) {
        None => Err(JrtError::NotThere),
        Some(module) => Ok(Standing::Link(module)),
    }
}

/// What stands at a path where no node says it: the roots, a file, or nothing.
fn said_by_none<'a, H: Ledger, R: Ledger>(
    index: &Index<'a>,
    path: &[u8],
    hashes: &mut Steps<H>,
    reads: &mut Meter<R>,
) -> Result<Standing<'a>, JrtError>
    requires { reads.old.bytes ≡ index.now.bytes }
    ensures item { (b : List ℕ) → IsFileOf index.now.bytes index.now.length b
        → answers.node_content b path.now ≡ None
        → standing_as b result ≡ answers.stat b path.now }
    ensures within { IfOk result (IsIn index.now) }
    ensures hashes { RisesAtMost hashes.old hashes.new (4 - answers.node_hashes path.now) }
    ensures reads { StandingCosts result false (length path.now + 76) reads.old reads.new }
{
    let _header = index.header();
    if path == b"/".as_slice() {
        let modules = find_row_in(index, b"/modules", hashes, reads).is_some();
        let packages = find_row_in(index, b"/packages", hashes, reads).is_some();
        let left = ToCome::Roots { modules, packages };
        return Ok(Standing::Folder(ChildList::of(index, left)));
    }
    if !path.starts_with(b"/modules/") {
        return Err(JrtError::NotThere);
    }
    let (_, name) = path.split_at(8);
    if is_node(name) {
        return Err(JrtError::NotThere);
    }
    match find_row_in(index, name, hashes, reads) {
        None => Err(JrtError::NotThere),
        Some(row) => Ok(Standing::File(row)),
    }
}

/// What stands at a path, by the content of the path's node, if there is one.
fn said_at<'a, H: Ledger, R: Ledger>(
    index: &Index<'a>,
    path: &[u8],
    content: Option<&'a [u8]>,
    hashes: &mut Steps<H>,
    reads: &mut Meter<R>,
) -> Result<Standing<'a>, JrtError>
    requires { reads.old.bytes ≡ index.now.bytes }
    ensures item { (b : List ℕ) → IsFileOf index.now.bytes index.now.length b
        → answers.node_content b path.now ≡ option_map (λ c. c.now) content.entry
        → standing_as b result ≡ answers.stat b path.now }
    ensures within { IfOk result (IsIn index.now) }
    ensures hashes { RisesAtMost hashes.old hashes.new (4 - answers.node_hashes path.now) }
    ensures reads { StandingCosts result (is_some content.entry) (length path.now + 76)
        reads.old reads.new }
{
    match content {
        Some(content) => said_by(index, path, content, reads),
        None => said_by_none(index, path, hashes, reads),
    }
}

/// The children of the folder at a path, as an index and the content of the path's node say them;
/// `NotFolder` exactly where a file or a link stands there. It costs at most four hashes.
pub fn children_in<'a, H: Ledger, R: Ledger>(
    index: &Index<'a>,
    path: &[u8],
    content: Option<&'a [u8]>,
    hashes: &mut Steps<H>,
    reads: &mut Meter<R>,
) -> Result<ChildList<'a>, JrtError>
    requires { reads.old.bytes ≡ index.now.bytes }
    ensures rest { (b : List ℕ) → IsFileOf index.now.bytes index.now.length b
        → answers.node_content b path.now ≡ option_map (λ c. c.now) content.entry
        → held_by result ≡ answers.held (answers.stat b path.now) }
    ensures bytes { IfOk result (λ list. list.bytes ≡ index.now.bytes) }
    ensures hashes { RisesAtMost hashes.old hashes.new 4 }
    ensures reads { IsLater reads.old reads.new }
{
    match said_at(index, path, content, hashes, reads)? {
        Standing::Folder(list) => Ok(list),
        Standing::File(_) | Standing::Link(_) => Err(JrtError::NotFolder),
    }
}

/// The content of the node that says what stands at a path.
fn node_content<'a, H: Ledger, R: Ledger>(
    image: &Image<'a>,
    path: &[u8],
    hashes: &mut Steps<H>,
    reads: &mut Meter<R>,
) -> Option<&'a [u8]>
    requires { reads.old.bytes ≡ image.now }
    ensures content { option_map (λ c. c.now) result ≡ answers.node_content image.now path.now }
    ensures hashes { RisesAtMost hashes.old hashes.new (answers.node_hashes path.now) }
    ensures later { IsLater reads.old reads.new }
    ensures none { IfNone result (CostsAtMost reads.old reads.new (length path.now + 76)) }
{
    Some(find(image, node_path(path)?, hashes, reads)?.bytes)
}

/// What stands at a path of the two trees, a file by its row.
fn stands_at<'a, H: Ledger, R: Ledger>(
    image: &Image<'a>,
    path: &[u8],
    hashes: &mut Steps<H>,
    reads: &mut Meter<R>,
) -> Result<Standing<'a>, JrtError>
    requires { reads.old.bytes ≡ image.now }
    ensures item { standing_as image.now result ≡ answers.stat image.now path.now }
    ensures trees { IsItemOfTrees image.now path.now (standing_as image.now result) }
    ensures told { answers.IsToldAt image.now path.now (standing_as image.now result) }
    ensures within { IfOk result (IsIn (whole image.now)) }
    ensures hashes { RisesAtMost hashes.old hashes.new 4 }
    ensures reads { StandingCosts result false (2 * length path.now + 152) reads.old reads.new }
{
    let (index, header) = (image.index(), image.header());
    prove!(header.locations <= u32::MAX);
    prove!(header.strings <= u32::MAX);
    let content = node_content(image, path, hashes, reads);
    said_at(&index, path, content, hashes, reads)
}

/// What stands at a path of the two trees (JEP 220); never `NotFolder`.
///
/// It costs at most four hashes, and for a file at most twice the path's bytes, 152 more and those
/// of the file.
pub fn stat<'a, H: Ledger, R: Ledger>(
    image: &Image<'a>,
    path: &[u8],
    hashes: &mut Steps<H>,
    reads: &mut Meter<R>,
) -> Result<Node<'a>, JrtError>
    requires { reads.old.bytes ≡ image.now }
    ensures item { item_as result ≡ answers.stat image.now path.now }
    ensures trees { IsItemOfTrees image.now path.now (item_as result) }
    ensures bytes { IfOk result (λ node. IsOf image.now node) }
    ensures hashes { RisesAtMost hashes.old hashes.new 4 }
    ensures cost { StatCosts result path.now reads.old reads.new }
{
    match stands_at(image, path, hashes, reads)? {
        Standing::Folder(list) => Ok(Node::Folder(list)),
        Standing::File(row) => Ok(Node::File(jm_reader::content(image, &row, reads))),
        Standing::Link(module) => Ok(Node::Link(module)),
    }
}

/// The children of the folder at a path; `NotFolder` exactly where a file or a link stands there.
/// It costs at most four hashes.
pub fn children<'a, H: Ledger, R: Ledger>(
    image: &Image<'a>,
    path: &[u8],
    hashes: &mut Steps<H>,
    reads: &mut Meter<R>,
) -> Result<ChildList<'a>, JrtError>
    requires { reads.old.bytes ≡ image.now }
    ensures rest { held_by result ≡ answers.held (answers.stat image.now path.now) }
    ensures bytes { IfOk result (λ list. list.bytes ≡ image.now) }
    ensures hashes { RisesAtMost hashes.old hashes.new 4 }
    ensures reads { IsLater reads.old reads.new }
{
    match stat(image, path, hashes, reads)? {
        Node::Folder(list) => Ok(list),
        Node::File(_) | Node::Link(_) => Err(JrtError::NotFolder),
    }
}

/// The first owner, of the package at a path such as `/packages/java.lang`, for which it isn't
/// empty; None exactly where it is empty for all. Another path is `NotThere`. It costs at most two
/// hashes.
pub fn owner<'a, H: Ledger, R: Ledger>(
    image: &Image<'a>,
    path: &[u8],
    hashes: &mut Steps<H>,
    reads: &mut Meter<R>,
) -> Result<Option<&'a [u8]>, JrtError>
    requires { reads.old.bytes ≡ image.now }
    ensures owner { on_ok (λ name. option_map (λ n. n.now) name) result
        ≡ answers.owner image.now path.now }
    ensures trees { IsOwnerOfTrees image.now path.now
        (on_ok (λ name. option_map (λ n. n.now) name) result) }
    ensures told { answers.IsOwnerToldAt image.now path.now
        (on_ok (λ name. option_map (λ n. n.now) name) result) }
    ensures hashes { RisesAtMost hashes.old hashes.new 2 }
    ensures reads { IsLater reads.old reads.new }
{
    let (index, header) = (image.index(), image.header());
    prove!(header.locations <= u32::MAX);
    prove!(header.strings <= u32::MAX);
    if !is_package(path) {
        return Err(JrtError::NotThere);
    }
    let Some(found) = find(image, path, hashes, reads) else {
        return Err(JrtError::NotThere);
    };
    check(&index, found.bytes, Form::Owners, reads)?;
    Ok(first_full(&index, found.bytes, reads))
}
