ghost use Rattle.std.specs.Prelude.{◌≡◌, ◌+◌, ◌∷◌, [], ◌≤◌, IsUtf8, OnOk, OnErr, IsOk, IsErrOf};
ghost use Rattle.jm_outside.specs.Outcome.{CountsFaults};
ghost use Rattle.jm_outside.specs.Made.{MadeAll, MadePart};
ghost use Rattle.jm_gen.specs.Draws.{drawn};
ghost use Rattle.jm_gen.specs.Generated.{class_file, generated, info_file, module_files};

use crate::classes::class_bytes;
use crate::draws::Draws;
use crate::infos::info;
use crate::names::{class_path, path_in};
use jm_bytes::extend;
use jm_outside::{Shelf, ShelfError, make_file};
use std::alloc::Global;

/// Where the files of a module are made.
#[derive(Clone, Copy)]
struct Place<'a> {
    /// The folder that all modules are made in.
    dir: &'a [u8],
    /// The number of the module.
    number: u32,
}

/// Makes the descriptor of a module.
fn make_info<S: Shelf>(
    alloc: Global,
    shelf: &mut S,
    place: Place,
    draw: u64,
) -> Result<(), ShelfError>
    requires text { IsUtf8 place.dir.now }
    ensures ok { OnOk result
        (MadeAll (info_file place.entry.dir.now place.entry.number draw ∷ [])
        (S.files shelf.old) (S.files shelf.new)) }
    ensures err { OnErr result
        (MadePart (info_file place.entry.dir.now place.entry.number draw ∷ [])
        (S.files shelf.old) (S.files shelf.new)) }
    ensures handed { S.handed shelf.new ≡ S.handed shelf.old }
    ensures faults { CountsFaults (S.faults shelf.old) (S.faults shelf.new) (IsOk result)
        (IsErrOf result ShelfError.Failed) }
{
    let bytes = info(alloc, place.number, draw)?;
    let path = path_in(alloc, place.dir, place.number, b"module-info.class")?;
    make_file(alloc, shelf, path.as_slice(), bytes.as_slice())
}

/// Makes a class of a module.
fn make_class<S: Shelf>(
    alloc: Global,
    shelf: &mut S,
    place: Place,
    class: u32,
    value: u64,
) -> Result<(), ShelfError>
    requires text { IsUtf8 place.dir.now }
    ensures ok { OnOk result
        (MadeAll (class_file place.entry.dir.now place.entry.number class value ∷ [])
        (S.files shelf.old) (S.files shelf.new)) }
    ensures err { OnErr result
        (MadePart (class_file place.entry.dir.now place.entry.number class value ∷ [])
        (S.files shelf.old) (S.files shelf.new)) }
    ensures handed { S.handed shelf.new ≡ S.handed shelf.old }
    ensures faults { CountsFaults (S.faults shelf.old) (S.faults shelf.new) (IsOk result)
        (IsErrOf result ShelfError.Failed) }
{
    let bytes = class_bytes(alloc, place.number, class, value)?;
    let mut rest = class_path(alloc, place.number, class)?;
    extend(&mut rest, b".class")?;
    let path = path_in(alloc, place.dir, place.number, rest.as_slice())?;
    make_file(alloc, shelf, path.as_slice(), bytes.as_slice())
}

/// Makes the files of a module: its descriptor, and then its classes. It takes one draw, and one
/// more for each class.
fn make_module<S: Shelf>(
    alloc: Global,
    shelf: &mut S,
    place: Place,
    classes: u32,
    draws: &mut Draws,
) -> Result<(), ShelfError>
    requires text { IsUtf8 place.dir.now }
    ensures ok { OnOk result
        (MadeAll (module_files place.entry.dir.now classes draws.old place.entry.number 0)
        (S.files shelf.old) (S.files shelf.new)) }
    ensures err { OnErr result
        (MadePart (module_files place.entry.dir.now classes draws.old place.entry.number 0)
        (S.files shelf.old) (S.files shelf.new)) }
    ensures draws { OnOk result (draws.new ≡ drawn draws.old (classes + 1)) }
    ensures handed { S.handed shelf.new ≡ S.handed shelf.old }
    ensures faults { CountsFaults (S.faults shelf.old) (S.faults shelf.new) (IsOk result)
        (IsErrOf result ShelfError.Failed) }
{
    make_info(alloc, shelf, place, draws.draw())?;
    for class in 0..classes {
        make_class(alloc, shelf, place, class, draws.draw())?;
    }
    Ok(())
}

/// Makes the files of that many modules of that many classes below a folder, from a seed: for each
/// module its descriptor, which needs earlier modules, and then its classes, each with a number of
/// its own. They are the same at each run.
///
/// After a refusal some of them stand, the last one whole or a front of it; other files are as
/// before. No byte of a file is handed out.
pub fn generate<S: Shelf>(
    alloc: Global,
    shelf: &mut S,
    dir: &[u8],
    modules: u32,
    classes: u32,
    seed: u64,
) -> Result<(), ShelfError>
    requires text { IsUtf8 dir.now }
    requires modules { (1 ≤ modules) × (modules ≤ 256) }
    requires classes { (1 ≤ classes) × (classes ≤ 1024) }
    ensures ok { OnOk result (MadeAll (generated dir.now modules classes seed)
        (S.files shelf.old) (S.files shelf.new)) }
    ensures err { OnErr result (MadePart (generated dir.now modules classes seed)
        (S.files shelf.old) (S.files shelf.new)) }
    ensures handed { S.handed shelf.new ≡ S.handed shelf.old }
    ensures faults { CountsFaults (S.faults shelf.old) (S.faults shelf.new) (IsOk result)
        (IsErrOf result ShelfError.Failed) }
{
    let mut draws = Draws::new(seed);
    for number in 0..modules {
        make_module(alloc, shelf, Place { dir, number }, classes, &mut draws)?;
    }
    Ok(())
}
