//! The command `verify --nodes`: the contents of the nodes are judged, each when it is read.
ghost use Rattle.std.specs.Prelude.{◌≡◌, ◌∷◌, ◌≤◌, ◌+◌, [], ℕ, List, IfOk, IsErrOf, IsOk};
ghost use Rattle.std.specs.Prelude.{IsUtf8, map, true};
ghost use Rattle.jm_bytes.specs.Checks.{first_fault};
ghost use Rattle.jm_extract.specs.Filed.{sizes};
ghost use Rattle.jm_filed.specs.Filed.{IsFiled};
ghost use Rattle.jm_filed.specs.Taken.{nodes};
ghost use Rattle.jm_form.specs.Head.{IsFileOf};
ghost use Rattle.jm_outside.specs.Outcome.{CountsFaults};
ghost use Rattle.jm_outside.specs.Shelves.{shelf_at};
ghost use Rattle.jm_reader.specs.Walk.{IsLater};
ghost use Rattle.jm_inspect.specs.FileParts.{IsOpenFront};
ghost use Rattle.jm_inspect.specs.Ledgers.{IsLedger};
ghost use Rattle.jm_inspect.specs.NodeSteps.{IsOfDamage, JudgesRead};
ghost use Rattle.jm_inspect.specs.Steps.{WorkDoes};
ghost use Rattle.jm_inspect.specs.Taken.{TakesOfFront, work_length};
ghost use Rattle.jm_inspect.specs.VerifyText.{bad_node, no_node, nodes_complaint};
ghost use Rattle.jm_inspect.specs.World.{sink_at};

use crate::blanks::Blanks;
use crate::cat_file::find_counted;
use crate::complaint::Complaint;
use crate::front::OpenFront;
use crate::info::put_verified;
use crate::stop::Stop;
use jm_bytes::{Meter, NoMemory, Text};
use jm_filed::{FiledImage, TakenEntry, nodes, read_extent};
use jm_jrt::node_fault;
use jm_outside::{Shelf, ShelfError, Sink};
use jm_valid::Index;
use jm_words::ImageWork;
use std::alloc::Global;
use std::marker::Brand;
use std::sync::ledger::{Blank, Ledger};

/// The complaint that no entry has the name of a root.
fn missing_root(
    alloc: Global,
    image: &OpenFront,
    name: &[u8],
) -> Result<Option<Complaint>, NoMemory>
    ensures found { (b : List ℕ) → IsFileOf image.now.front.bytes image.now.front.length b
        → IfOk result (λ found. found ≡ no_node b name.now) }
    ensures damage { IfOk result IsOfDamage }
{
    match find_counted::<Brand, Brand>(image, name, Blanks::new()) {
        Some(_) => Ok(None),
        None => Ok(Some(Complaint::NoNode(Text::copy_of(alloc, name)?))),
    }
}

/// The complaint of a node with this content, if that has a bad word.
fn judge_content<R: Ledger>(
    alloc: Global,
    index: &Index,
    node: &TakenEntry,
    content: &[u8],
    reads: &mut Meter<R>,
) -> Result<Option<Complaint>, NoMemory>
    requires { reads.old.bytes ≡ index.now.bytes }
    ensures found { (b : List ℕ) → IsFileOf index.now.bytes index.now.length b
        → IfOk result (λ found. found ≡ bad_node b (node.entry.now.name, content.now)) }
    ensures damage { IfOk result IsOfDamage }
    ensures reads { IsLater reads.old reads.new }
{
    let name = node.name.view().to_text(alloc)?;
    match node_fault(index, name.as_slice(), content, reads) {
        None => Ok(None),
        Some(at) => Ok(Some(Complaint::BadNodeAt { name, at })),
    }
}

/// The image whose nodes are judged.
#[derive(Clone, Copy)]
struct Judging<'i, 'a> {
    alloc: Global,
    image: FiledImage<'i, 'a>,
}

/// The complaint of a node, by its content, which is read into a text that is used again.
fn judge_node<S: Shelf, R: Ledger>(
    judging: Judging,
    node: &TakenEntry,
    text: &mut Text,
    shelf: &mut S,
    reads: &mut Meter<R>,
) -> Result<Option<Complaint>, ShelfError>
    requires path { IsUtf8 judging.image.path.now }
    requires metered { reads.old.bytes ≡ judging.image.index.now.bytes }
    ensures files { S.files shelf.new ≡ S.files shelf.old }
    ensures judged { IfOk result (JudgesRead judging.entry.image.index.now (S.files shelf.old)
        judging.entry.image.path.now (node.entry.now ∷ [])) }
    ensures handed { S.handed shelf.new ≤ S.handed shelf.old + node.entry.now.content.size }
    ensures faults { CountsFaults (S.faults shelf.old) (S.faults shelf.new) (IsOk result)
        (IsErrOf result ShelfError.Failed) }
    ensures reads { IsLater reads.old reads.new }
{
    let Judging { alloc, image } = judging;
    read_extent(alloc, image.path, node.content, text, shelf)?;
    Ok(judge_content(alloc, image.index, node, text.as_slice(), reads)?)
}

/// The complaint of the first of some nodes that has a bad word. No content after it is read.
fn judge_nodes<S: Shelf, R: Ledger>(
    judging: Judging,
    entries: &[TakenEntry],
    shelf: &mut S,
    reads: &mut Meter<R>,
) -> Result<Option<Complaint>, ShelfError>
    requires path { IsUtf8 judging.image.path.now }
    requires metered { reads.old.bytes ≡ judging.image.index.now.bytes }
    ensures files { S.files shelf.new ≡ S.files shelf.old }
    ensures judged { IfOk result (JudgesRead judging.entry.image.index.now (S.files shelf.old)
        judging.entry.image.path.now entries.now) }
    ensures handed { S.handed shelf.new ≤ S.handed shelf.old + sizes entries.now }
    ensures faults { CountsFaults (S.faults shelf.old) (S.faults shelf.new) (IsOk result)
        (IsErrOf result ShelfError.Failed) }
{
    let mut text = Text::new(judging.alloc);
    for node in entries {
        if let Some(given) = judge_node(judging, node, &mut text, shelf, reads)? {
            return Ok(Some(given));
        }
    }
    Ok(None)
}

/// The complaint of the first node of an image, by rising name, that has a bad word, with a meter
/// of its own.
fn judge_image<S: Shelf, R: Ledger>(
    alloc: Global,
    image: &OpenFront,
    shelf: &mut S,
    reads: Blank,
) -> Result<Option<Complaint>, ShelfError>
    requires there { IsOpenFront (S.files shelf.old) image.now.path image.now.front }
    requires reads { IsLedger reads.name reads.parts R.name R.parts }
    ensures files { S.files shelf.new ≡ S.files shelf.old }
    ensures judged { IfOk result (λ found. (b : List ℕ)
        × IsFiled image.now.front (S.files shelf.old) image.now.path b
        × (first_fault (map (bad_node b) (nodes b)) ≡ found)) }
    ensures damage { IfOk result IsOfDamage }
    ensures takes { TakesOfFront image.now.front (work_length (ImageWork.Verify true))
        (S.handed shelf.old) (S.handed shelf.new) }
    ensures faults { CountsFaults (S.faults shelf.old) (S.faults shelf.new) (IsOk result)
        (IsErrOf result ShelfError.Failed) }
{
    let mut reads = Meter::<R>::new(image.bytes(), reads);
    let entries = nodes(alloc, image.as_index(), &mut reads)?;
    let image = image.as_filed();
    let judging = Judging { alloc, image };
    judge_nodes(judging, entries.as_slice(), shelf, &mut reads)
}

/// The complaint of the nodes of an image: of a root that is missing, or of a node with a bad word.
fn judge<S: Shelf>(
    alloc: Global,
    image: &OpenFront,
    shelf: &mut S,
) -> Result<Option<Complaint>, ShelfError>
    requires { IsOpenFront (S.files shelf.old) image.now.path image.now.front }
    ensures files { S.files shelf.new ≡ S.files shelf.old }
    ensures judged { IfOk result (λ found. (b : List ℕ)
        × IsFiled image.now.front (S.files shelf.old) image.now.path b
        × (nodes_complaint b ≡ found)) }
    ensures damage { IfOk result IsOfDamage }
    ensures takes { TakesOfFront image.now.front (work_length (ImageWork.Verify true))
        (S.handed shelf.old) (S.handed shelf.new) }
    ensures faults { CountsFaults (S.faults shelf.old) (S.faults shelf.new) (IsOk result)
        (IsErrOf result ShelfError.Failed) }
{
    if let Some(given) = missing_root(alloc, image, b"/modules")? {
        return Ok(Some(given));
    }
    if let Some(given) = missing_root(alloc, image, b"/packages")? {
        return Ok(Some(given));
    }
    judge_image::<S, Brand>(alloc, image, shelf, Blank::new(1))
}

/// `verify --nodes`: puts how many entries there are, where the roots of the two trees are there
/// and no content of a node has a bad word. The source of the run isn't lent to it.
pub fn put_judged<S: Shelf, O: Sink>(
    alloc: Global,
    image: &OpenFront,
    shelf: &mut S,
    out: &mut O,
) -> Result<(), Stop>
    requires { IsOpenFront (S.files shelf.old) image.now.path image.now.front }
    ensures comes { WorkDoes (ImageWork.Verify true) image.now.path result
        (shelf_at S.Shelf shelf.old) (shelf_at S.Shelf shelf.new)
        (sink_at O.Sink out.old) (sink_at O.Sink out.new) }
    ensures takes { TakesOfFront image.now.front (work_length (ImageWork.Verify true))
        (S.handed shelf.old) (S.handed shelf.new) }
{
    match judge(alloc, image, shelf)? {
        Some(given) => Err(Stop::Complaint(given)),
        None => put_verified(alloc, image, out),
    }
}
