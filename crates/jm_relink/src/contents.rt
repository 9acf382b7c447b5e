//! Contents that are copied from an open image.
ghost use Rattle.std.specs.Prelude.{◌≡◌, All, IfOk, length, map};
ghost use Rattle.jm_filed.specs.Filed.{IsWithin, content_at};
ghost use Rattle.jm_reader.specs.Walk.{IsLater};
ghost use Rattle.jm_relink.specs.Entries.{AreInfosIn, EntriesWithin};

use crate::entries::ModuleEntries;
use jm_bytes::{List, Meter, NoMemory, Text};
use jm_filed::Extent;
use jm_valid::Image;
use std::alloc::Global;
use std::sync::ledger::Ledger;

/// A copy of a content of an image. It costs its bytes.
pub fn content_in<R: Ledger>(
    alloc: Global,
    image: &Image,
    content: Extent,
    reads: &mut Meter<R>,
) -> Result<Text, NoMemory>
    requires within { IsWithin (length image.now) content }
    requires metered { reads.old.bytes ≡ image.now }
    ensures content { IfOk result (λ text. text ≡ content_at image.now content) }
    ensures reads { IsLater reads.old reads.new }
{
    let at = content.at as usize;
    Text::copy_of(alloc, image.buf().part(at, content.size as usize, reads))
}

/// Copies of the contents of the modules' descriptors.
pub fn infos_in<R: Ledger>(
    alloc: Global,
    image: &Image,
    modules: &[ModuleEntries],
    reads: &mut Meter<R>,
) -> Result<List<Text>, NoMemory>
    requires within { All (EntriesWithin (length image.now)) modules.now }
    requires metered { reads.old.bytes ≡ image.now }
    ensures infos { IfOk result (AreInfosIn image.now modules.now) }
    ensures reads { IsLater reads.old reads.new }
{
    let mut infos = List::new(alloc);
    for module in modules {
        infos.push(content_in(alloc, image, module.info, reads)?)?;
    }
    Ok(infos)
}
