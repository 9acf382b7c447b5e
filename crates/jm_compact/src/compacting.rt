ghost use Rattle.std.specs.Prelude.{◌≡◌, Some, IfOk};
ghost use Rattle.jm_class.specs.Classes.{ReadsAs};
ghost use Rattle.jm_class.specs.Views.{plain};
ghost use Rattle.jm_poolmap.specs.Live.{TellsLive};
ghost use Rattle.jm_poolmap.specs.Sites.{sites_of};
ghost use Rattle.jm_compact.specs.Compact.{compact_with, compact_text};
ghost use Rattle.jm_compact.specs.Compacts.{CompactsFor};

use crate::numbers::Numbers;
use crate::pool::put_pool;
use crate::sites::put_renumbered;
use jm_bytes::{NoMemory, Or, Text, extend};
use jm_class::{Class, ClassFault, DEFAULT_RELEASE, read_for};
use jm_classout::put16;
use jm_poolmap::{PoolMap, after_pool, pool_map};
use std::alloc::Global;

/// The text of a class without the constants that aren't live.
fn put_class(alloc: Global, bytes: &[u8], class: &Class, known: &PoolMap) -> Result<Text, NoMemory>
    requires reads { ReadsAs bytes.now (plain class.now) }
    requires sites { sites_of (plain class.now) ≡ Some known.now.sites }
    requires live { TellsLive (plain class.now) known.now.live }
    ensures { IfOk result (λ text.
        text ≡ compact_with known.now.live known.now.sites (plain class.now)) }
{
    let flags = known.live.as_slice();
    let numbers = Numbers::new(alloc, flags)?;
    let mut text = Vec::with_capacity(alloc, bytes.len())?;
    let (front, _) = bytes.split_at(8);
    extend(&mut text, front)?;
    put16(&mut text, numbers.count())?;
    put_pool(&mut text, class.pool.as_slice(), flags, &numbers)?;
    let after = after_pool(bytes, class);
    let sites = known.sites.as_slice();
    put_renumbered(&mut text, sites, after.place(), after.rest(), &numbers)?;
    Ok(Text::from_vec(text))
}

/// The text of a class without the constants that aren't live, or as it is.
fn text_of(alloc: Global, bytes: &[u8], class: &Class) -> Result<Text, NoMemory>
    requires reads { ReadsAs bytes.now (plain class.now) }
    ensures { IfOk result (λ text. text ≡ compact_text (plain class.now)) }
{
    match pool_map(alloc, bytes, class)? {
        Some(known) => put_class(alloc, bytes, class, &known),
        None => Text::copy_of(alloc, bytes),
    }
}

/// A class file of a release without the constants that nothing names, the others numbered anew in
/// their order. It says the same as before, and is never longer. A class with an attribute or an
/// instruction that isn't known stays as it is. A fault is the one that `read_for` finds.
pub fn compact_for(alloc: Global, release: u32, bytes: &[u8]) -> Result<Text, Or<ClassFault>>
    ensures { CompactsFor release bytes.now result }
{
    let class = read_for(alloc, release, bytes)?;
    let text = text_of(alloc, bytes, &class)?;
    Ok(text)
}

/// A class file of release 21 without the constants that nothing names, as `compact_for` leaves it.
pub fn compact(alloc: Global, bytes: &[u8]) -> Result<Text, Or<ClassFault>>
    ensures { CompactsFor 21 bytes.now result }
{
    compact_for(alloc, DEFAULT_RELEASE, bytes)
}
