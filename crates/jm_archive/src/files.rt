//! The files of an archive.
ghost use Rattle.std.specs.Prelude.{◌≡◌, ◌≢◌, ◌<◌, IfOk, All, AllPairs, length, map};
ghost use Rattle.std.specs.Str.{IsUtf8};
ghost use Rattle.jm_archive.specs.Cuts.{candidate_of, candidates, file_of};
ghost use Rattle.jm_archive.specs.ComputedFiles.{files_of};
ghost use Rattle.jm_archive.specs.Files.{AreFiles};

use crate::choice::best_of_each;
use crate::cuts::{Cut, cut_of};
use crate::kinds::ArchiveKind;
use jm_bytes::{List, NoMemory, Text};
use jm_names::sorted_by_name;
use std::alloc::Global;

/// A file of an archive.
#[derive(Debug, Drop)]
pub struct ArchiveFile {
    /// Its path in the module.
    pub path: Text,
    /// The place of its entry in the directory's list.
    pub place: usize,
}

/// The files of an archive whose entries have these names, which differ, in the directory's order:
/// rising by path, each with the place of its entry (JAR File Specification, JEP 220 and JEP 238).
/// A name that ends in a slash is a folder and no file. Time n log n.
pub fn archive_files(
    alloc: Global,
    names: &[Text],
    kind: ArchiveKind,
) -> Result<List<ArchiveFile>, NoMemory>
    requires { AllPairs (λ name later. name ≢ later) names.now }
    ensures files { IfOk result (AreFiles kind names.now) }
    ensures computed { IfOk result (λ files. files ≡ files_of kind names.now) }
    ensures within { IfOk result (All (λ file. file.place < length names.now)) }
    ensures texts { All IsUtf8 names.now → IfOk result (All (λ file. IsUtf8 file.path)) }
{
    // Says that the release has 32 bits, by which the digits of a version tell it.
    let _release = kind.release();
    let cuts = sorted_by_name(cuts_of(alloc, kind, names)?);
    let best = best_of_each(alloc, cuts.as_slice())?;
    files_of(alloc, best.as_slice())
}

/// The cuts of the names that can be a file's, in their order.
fn cuts_of<'a>(
    alloc: Global,
    kind: ArchiveKind,
    names: &'a [Text],
) -> Result<List<Cut<'a>>, NoMemory>
    ensures { IfOk result (λ cuts. map candidate_of cuts ≡ candidates kind names.now) }
{
    let mut cuts = List::new(alloc);
    for (place, name) in names.iter().enumerate() {
        if let Some(cut) = cut_of(kind, place, name.as_slice()) {
            cuts.push(cut)?;
        }
    }
    Ok(cuts)
}

/// The files of cuts, in their order.
fn files_of(alloc: Global, cuts: &[Cut<'_>]) -> Result<List<ArchiveFile>, NoMemory>
    ensures { IfOk result (λ files. files ≡ map file_of cuts.now) }
{
    let mut files = List::with_capacity(alloc, cuts.len())?;
    for cut in cuts {
        let path = Text::copy_of(alloc, cut.path)?;
        files.push(ArchiveFile {
            path,
            place: cut.place,
        })?;
    }
    Ok(files)
}
