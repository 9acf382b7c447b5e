//! The resources that the files of chosen modules are, copied from an open image.
ghost use Rattle.std.specs.Prelude.{◌≡◌, ◌≢◌, ◌∷◌, ◌++◌, [], None, All, AllPairs, IfOk, OnOk};
ghost use Rattle.std.specs.Prelude.{IfSome, length, map};
ghost use Rattle.jm_bytes.specs.Results.{IfAnswered};
ghost use Rattle.jm_filed.specs.Filed.{IsWithin, content_at};
ghost use Rattle.jm_pool.specs.Pairs.{bytes_of, names_of};
ghost use Rattle.jm_reader.specs.Walk.{IsLater};
ghost use Rattle.jm_relink.specs.Choosing.{chosen_in, IsDescribedIn};
ghost use Rattle.jm_relink.specs.Gathering.{ArePlaces, AreModules, GathersAll, gathered, StandIn};

use crate::choosing::{ChosenFile, chosen_files};
use crate::contents::content_in;
use crate::fault::GatherFault;
use crate::modules::ImageModules;
use jm_bytes::{List, Meter, NoMemory, Or, Text};
use jm_filed::Extent;
use jm_pool::Pool;
use jm_valid::Image;
use std::alloc::Global;
use std::sync::ledger::Ledger;

/// The content of a chosen file. A descriptor isn't read again.
fn content_of<R: Ledger>(
    alloc: Global,
    image: &Image,
    content: Extent,
    described: Option<Text>,
    reads: &mut Meter<R>,
) -> Result<Text, NoMemory>
    requires described { IfSome described (λ text. text ≡ content_at image.now content) }
    requires within { IsWithin (length image.now) content }
    requires metered { reads.old.bytes ≡ image.now }
    ensures content { IfOk result (λ text. text ≡ content_at image.now content) }
    ensures reads { IsLater reads.old reads.new }
{
    match described {
        Some(text) => Ok(text),
        None => content_in(alloc, image, content, reads),
    }
}

/// Puts a file of an image at the end.
fn put_file<R: Ledger>(
    alloc: Global,
    pool: &mut Pool,
    image: &Image,
    file: ChosenFile,
    reads: &mut Meter<R>,
) -> Result<(), NoMemory>
    requires new { bytes_of file.name pool.old ≡ None }
    requires described { IsDescribedIn image.now file }
    requires within { IsWithin (length image.now) file.content }
    requires metered { reads.old.bytes ≡ image.now }
    ensures put { OnOk result (pool.new ≡ pool.old ++ chosen_in image.now file ∷ []) }
    ensures reads { IsLater reads.old reads.new }
{
    let ChosenFile {
        name,
        content,
        described,
    } = file;
    let bytes = content_of(alloc, image, content, described, reads)?;
    pool.push(name, bytes)
}

/// The files of an image as a pool.
fn pooled<R: Ledger>(
    alloc: Global,
    image: &Image,
    files: List<ChosenFile>,
    reads: &mut Meter<R>,
) -> Result<Pool, NoMemory>
    requires differ { AllPairs (λ name other. name ≢ other)
        (names_of (map (chosen_in image.now) files)) }
    requires described { All (IsDescribedIn image.now) files }
    requires within { All (λ f. IsWithin (length image.now) f.content) files }
    requires metered { reads.old.bytes ≡ image.now }
    ensures pool { IfOk result (λ pool. pool ≡ map (chosen_in image.now) files) }
    ensures reads { IsLater reads.old reads.new }
{
    let mut pool = Pool::new(alloc);
    for file in files.into_vec() {
        put_file(alloc, &mut pool, image, file, reads)?;
    }
    Ok(pool)
}

/// The resources that the files of the modules at these places are, in the order of the places and
/// of each module's files. Each content is copied once.
pub fn gather<R: Ledger>(
    alloc: Global,
    image: &Image,
    modules: &ImageModules,
    chosen: &[usize],
    reads: &mut Meter<R>,
) -> Result<Pool, Or<GatherFault>>
    requires modules { AreModules modules.now }
    requires stand { StandIn image.now modules.now }
    requires places { ArePlaces modules.now chosen.now }
    requires metered { reads.old.bytes ≡ image.now }
    ensures gathers { IfAnswered (GathersAll (gathered image.now modules.now chosen.now)) result }
    ensures reads { IsLater reads.old reads.new }
{
    let files = chosen_files(alloc, modules, chosen)?;
    Ok(pooled(alloc, image, files, reads)?)
}
