//! What the descriptors of modules say.
ghost use Rattle.std.specs.Prelude.{◌≡◌, ℕ, List, [], All, IfOk, length, map};
ghost use Rattle.jm_bytes.specs.Results.{IfAnswered};
ghost use Rattle.jm_modinfo.specs.Descriptions.{info_for};
ghost use Rattle.jm_relink.specs.Entries.{AreInfosIn, HasInfoAt};
ghost use Rattle.jm_relink.specs.Files.{info_entry};
ghost use Rattle.jm_relink.specs.Groups.{group_in};
ghost use Rattle.jm_relink.specs.Judging.{descriptor_due, groups_due, mapped, seen_in, seen_due};

use crate::entries::ModuleEntries;
use crate::fault::RelinkFault;
use crate::modules::ImageFile;
use crate::names::file_name;
use crate::packages::class_packages;
use jm_bytes::{List, NoMemory, Or, Text};
use jm_closure::Candidate;
use jm_modinfo::{Descriptor, describe_bytes};
use std::alloc::Global;

/// A module of an image, with its files.
#[derive(Debug, Drop)]
pub struct SeenModule<'a> {
    /// What its descriptor says, and its class packages.
    pub candidate: Candidate,
    /// Its files.
    pub files: List<ImageFile<'a>>,
}

/// The name of the entry that makes a module.
fn info_entry(alloc: Global, module: &[u8]) -> Result<Text, NoMemory>
    ensures { IfOk result (λ name. name ≡ info_entry «module».now) }
{
    file_name(alloc, module, b"module-info.class")
}

/// The descriptor that a module's entry says, as a class of this release of Java SE, if it is one
/// of this module.
fn descriptor(
    alloc: Global,
    release: u32,
    module: &[u8],
    bytes: &[u8],
) -> Result<Descriptor, Or<RelinkFault>>
    ensures { IfAnswered (λ r. descriptor_due «module».now (info_for release bytes.now) ≡ r)
        result }
{
    match describe_bytes(alloc, release, bytes) {
        Ok(descriptor) => {
            if descriptor.name.as_slice() == module {
                Ok(descriptor)
            } else {
                let name = info_entry(alloc, module)?;
                Err(Or::Fault(RelinkFault::Foreign(name)))
            }
        }
        Err(Or::Fault(fault)) => {
            let name = info_entry(alloc, module)?;
            Err(Or::Fault(RelinkFault::BadInfo { name, fault }))
        }
        Err(Or::Memory) => Err(Or::Memory),
    }
}

/// A module, from the content of its `module-info.class`, as a class of this release of Java SE.
fn seen<'a>(
    alloc: Global,
    release: u32,
    module: ModuleEntries<'a>,
    info: &[u8],
) -> Result<SeenModule<'a>, Or<RelinkFault>>
    ensures seen { (b : List ℕ) → IfAnswered (λ r.
        seen_due (group_in b «module».entry) (info_for release info.now) ≡ mapped (seen_in b) r)
        result }
    ensures files { IfOk result (λ seen. seen.files ≡ «module».entry.files) }
{
    let descriptor = descriptor(alloc, release, module.module.as_slice(), info)?;
    let packages = class_packages(alloc, module.files.as_slice())?;
    Ok(SeenModule {
        candidate: Candidate {
            descriptor,
            packages,
        },
        files: module.files,
    })
}

/// Modules, from the content of each one's `module-info.class`, as classes of this release of Java
/// SE.
pub fn seen_modules<'a>(
    alloc: Global,
    release: u32,
    modules: List<ModuleEntries<'a>>,
    infos: &[Text],
) -> Result<List<SeenModule<'a>>, Or<RelinkFault>>
    requires { length infos.now ≡ length modules }
    ensures seen { (b : List ℕ) → All (HasInfoAt b) modules.entry
        → AreInfosIn b modules.entry infos.now → IfAnswered (λ r.
        groups_due release [] (map (group_in b) modules.entry) ≡ mapped (map (seen_in b)) r)
        result }
    ensures files { IfOk result (λ seen.
        map (λ m. m.files) seen ≡ map (λ m. m.files) modules.entry) }
{
    let mut done = List::new(alloc);
    for module in modules.into_vec() {
        let info = &infos[done.len()];
        done.push(seen(alloc, release, module, info.as_slice())?)?;
    }
    Ok(done)
}
