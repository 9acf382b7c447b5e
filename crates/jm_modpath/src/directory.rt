//! The modules that the folders of a directory show.
ghost use Rattle.std.specs.Prelude.{◌≡◌, ◌≢◌, ◌≤◌, ◌+◌, [], All, Contains, IsTrue, IsUtf8, length};
ghost use Rattle.std.specs.Prelude.{IfOk, IsOk, IsErrOf};
ghost use Rattle.std.specs.Prelude.{None, Ok, Err, true, false};
ghost use Rattle.jm_modinfo.specs.Constants.{is_legal};
ghost use Rattle.jm_modinfo.specs.Descriptions.{info_for, info_in};
ghost use Rattle.jm_outside.specs.Files.{Rising, file, names_below};
ghost use Rattle.jm_outside.specs.Outcome.{CountsFaults, Shows};
ghost use Rattle.jm_modpath.specs.Finding.{AfterStep, Comes, HasTexts, Lacks, directory_due};
ghost use Rattle.jm_modpath.specs.Finding.{folder_due, folders_among, folders_due, info_due};
ghost use Rattle.jm_modpath.specs.Finding.{refused_at};
ghost use Rattle.jm_modpath.specs.Listed.{IsInside, info_size, infos_size};
ghost use Rattle.jm_modpath.specs.declared.refusal.PathRefusal.TheVariants.{TwoModules};
ghost use Rattle.jm_modpath.specs.Modules.{bytes_at, info_path, inside};
ghost use Rattle.jm_modpath.specs.Modules.{is_named, module_with, name_of};

use crate::folders::{folders_among, names_within};
use crate::found::FoundModules;
use crate::names::inside;
use crate::packages::class_packages;
use crate::refusal::{PathRefusal, PathStop};
use crate::visible::VisibleModule;
use jm_bytes::{List, NoMemory, Or, Text};
use jm_closure::Candidate;
use jm_modinfo::{Descriptor, describe_bytes};
use jm_outside::Shelf;
use std::alloc::Global;

/// A descriptor, with the bytes that say it.
#[derive(Drop)]
struct Described {
    descriptor: Descriptor,
    bytes: Text,
}

/// The descriptor of the bytes of the file at a path, as a class of this release of Java SE.
fn info_at(alloc: Global, release: u32, path: Text, bytes: Text) -> Result<Described, PathStop>
    ensures due { Comes ⊥ (refused_at path bytes (info_for release bytes)) result }
    ensures legal { IfOk result (λ info. is_legal info.descriptor.name ≡ true) }
    ensures said { IfOk result (λ info. info_in info.bytes ≡ Ok info.descriptor) }
    ensures lacks { Lacks (λ path. ⊥) result }
    ensures inside { ¬ IsErrOf result PathStop.Outside }
{
    match describe_bytes(alloc, release, bytes.as_slice()) {
        Ok(descriptor) => Ok(Described { descriptor, bytes }),
        Err(Or::Fault(fault)) => Err(PathStop::Refused(PathRefusal::BadInfo { path, fault })),
        Err(Or::Memory) => Err(PathStop::Memory),
    }
}

/// The descriptor that the file of a folder says, as a class of this release of Java SE.
fn read_info<S: Shelf>(
    alloc: Global,
    release: u32,
    folder: &[u8],
    shelf: &mut S,
) -> Result<Described, PathStop>
    requires { IsUtf8 folder.now }
    ensures files { S.files shelf.new ≡ S.files shelf.old }
    ensures told { Shows (S.files shelf.old) (λ files.
        Comes (file files (info_path folder.now) ≡ None)
        (info_due release folder.now (bytes_at files (info_path folder.now))) result) }
    ensures legal { IfOk result (λ info. is_legal info.descriptor.name ≡ true) }
    ensures said { IfOk result (λ info. info_in info.bytes ≡ Ok info.descriptor) }
    ensures lacks { Lacks (λ path. path ≡ info_path folder.now) result }
    ensures takes { Shows (S.files shelf.old) (λ files. S.handed shelf.new
        ≤ S.handed shelf.old + length (bytes_at files (info_path folder.now))) }
    ensures whole { AfterStep (IsTrue (S.whole shelf.new)) result }
    ensures faults { CountsFaults (S.faults shelf.old) (S.faults shelf.new) (IsOk result)
        (IsErrOf result PathStop.Outside) }
{
    let path = inside(alloc, folder, b"module-info.class")?;
    match shelf.read(alloc, path.as_slice()) {
        Ok(Some(bytes)) => info_at(alloc, release, path, bytes),
        Ok(None) => Err(PathStop::NotThere(path)),
        Err(error) => Err(PathStop::from(error)),
    }
}

/// The module of a folder, from its descriptor and the names within it.
fn module_with(
    alloc: Global,
    folder: Text,
    info: Described,
    files: List<Text>,
) -> Result<VisibleModule, NoMemory>
    ensures { IfOk result (λ m. m ≡ module_with folder info.descriptor info.bytes files) }
{
    let Described { descriptor, bytes } = info;
    let packages = class_packages(alloc, descriptor.name.as_slice(), files.as_slice())?;
    Ok(VisibleModule {
        folder,
        info: bytes,
        files,
        candidate: Candidate {
            descriptor,
            packages,
        },
    })
}

/// The refusal of a directory with a second module of this name.
fn two_modules(alloc: Global, directory: &[u8], name: &[u8]) -> PathStop
    ensures due { Comes {A = VisibleModule} ⊥ (Err (TwoModules directory.now name.now))
        (Err result) }
    ensures lacks { Lacks {A = VisibleModule} (λ path. ⊥) (Err result) }
    ensures inside { result ≢ PathStop.Outside }
{
    match (Text::copy_of(alloc, directory), Text::copy_of(alloc, name)) {
        (Ok(dir), Ok(name)) => PathStop::Refused(PathRefusal::TwoModules { dir, name }),
        _ => PathStop::Memory,
    }
}

/// A directory, the names of the files below it, and the release of Java SE of its classes.
#[derive(Clone, Copy)]
struct Listing<'a> {
    release: u32,
    directory: &'a [u8],
    names: &'a [Text],
}

/// The module that a folder of a listed directory shows.
fn visible_module<S: Shelf>(
    alloc: Global,
    listing: Listing,
    folder: &[u8],
    earlier: &FoundModules,
    shelf: &mut S,
) -> Result<VisibleModule, PathStop>
    requires directory { IsUtf8 listing.directory.now }
    requires rising { Rising listing.names.now }
    requires texts { All IsUtf8 listing.names.now }
    requires listed { Contains (folders_among listing.names.now) folder.now }
    requires told { Shows (S.files shelf.old) (λ files.
        listing.names.now ≡ names_below listing.directory.now files) }
    ensures files { S.files shelf.new ≡ S.files shelf.old }
    ensures told { Shows (S.files shelf.old) (λ files.
        Comes ⊥ (folder_due listing.entry.release files listing.entry.directory.now earlier.now
        folder.now) result) }
    ensures new { IfOk result (λ m. is_named earlier.now (name_of m) ≡ false) }
    ensures texts { IfOk result HasTexts }
    ensures folder { IfOk result (λ m. m.folder ≡ inside listing.entry.directory.now folder.now) }
    ensures lacks { Lacks (λ path. path ≡ info_path (inside listing.entry.directory.now folder.now))
        result }
    ensures takes { Shows (S.files shelf.old) (λ files. S.handed shelf.new
        ≤ S.handed shelf.old + info_size files listing.entry.directory.now folder.now) }
    ensures whole { AfterStep (IsTrue (S.whole shelf.new)) result }
    ensures faults { CountsFaults (S.faults shelf.old) (S.faults shelf.new) (IsOk result)
        (IsErrOf result PathStop.Outside) }
{
    let path = inside(alloc, listing.directory, folder)?;
    let info = read_info(alloc, listing.release, path.as_slice(), shelf)?;
    let name = info.descriptor.name.as_slice();
    if earlier.has(name) {
        return Err(two_modules(alloc, listing.directory, name));
    }
    let files = names_within(alloc, listing.names, folder)?;
    Ok(module_with(alloc, path, info, files)?)
}

/// The modules of a listed directory.
fn found_among<S: Shelf>(
    alloc: Global,
    listing: Listing,
    shelf: &mut S,
) -> Result<FoundModules, PathStop>
    requires directory { IsUtf8 listing.directory.now }
    requires rising { Rising listing.names.now }
    requires texts { All IsUtf8 listing.names.now }
    requires told { Shows (S.files shelf.old) (λ files.
        listing.names.now ≡ names_below listing.directory.now files) }
    ensures files { S.files shelf.new ≡ S.files shelf.old }
    ensures told { Shows (S.files shelf.old) (λ files.
        Comes ⊥ (folders_due listing.entry.release files listing.entry.directory.now []
        (folders_among listing.entry.names.now)) result) }
    ensures below { IfOk result (All (λ m. IsInside listing.entry.directory.now m.folder)) }
    ensures lacks { Lacks (IsInside listing.entry.directory.now) result }
    ensures takes { Shows (S.files shelf.old) (λ files. S.handed shelf.new
        ≤ S.handed shelf.old + infos_size files listing.entry.directory.now) }
    ensures whole { IsTrue (S.whole shelf.old) → AfterStep (IsTrue (S.whole shelf.new)) result }
    ensures faults { CountsFaults (S.faults shelf.old) (S.faults shelf.new) (IsOk result)
        (IsErrOf result PathStop.Outside) }
{
    let folders = folders_among(alloc, listing.names)?;
    let mut found = FoundModules::new(alloc);
    for folder in folders.as_slice() {
        let module = visible_module(alloc, listing, folder.as_slice(), &found, shelf)?;
        found = found.with(alloc, module)?;
    }
    Ok(found)
}

/// The modules of a directory, by classes of this release of Java SE.
pub fn found_in<S: Shelf>(
    alloc: Global,
    release: u32,
    directory: &[u8],
    shelf: &mut S,
) -> Result<FoundModules, PathStop>
    requires { IsUtf8 directory.now }
    ensures files { S.files shelf.new ≡ S.files shelf.old }
    ensures told { Shows (S.files shelf.old) (λ files.
        Comes ⊥ (directory_due release files directory.now) result) }
    ensures below { IfOk result (All (λ m. IsInside directory.now m.folder)) }
    ensures lacks { Lacks (IsInside directory.now) result }
    ensures takes { Shows (S.files shelf.old) (λ files. S.handed shelf.new
        ≤ S.handed shelf.old + infos_size files directory.now) }
    ensures whole { AfterStep (IsTrue (S.whole shelf.new)) result }
    ensures faults { CountsFaults (S.faults shelf.old) (S.faults shelf.new) (IsOk result)
        (IsErrOf result PathStop.Outside) }
{
    let names = shelf.names(alloc, directory)?;
    let listing = Listing {
        release,
        directory,
        names: names.as_slice(),
    };
    found_among(alloc, listing, shelf)
}
