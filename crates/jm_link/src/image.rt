//! The image of the resources, planned and written.
ghost use Rattle.std.specs.Prelude.{◌≡◌, ℕ, List, Some, IsUtf8, IsOk, IsTrue, OnOk, OnErr, IsErrOf};
ghost use Rattle.jm_form.specs.Layout.{layout};
ghost use Rattle.jm_outside.specs.Holds.{Holds, HoldsPart};
ghost use Rattle.jm_outside.specs.Outcome.{CountsFaults};
ghost use Rattle.jm_outside.specs.Shelves.{shelf_at};
ghost use Rattle.jm_pool.specs.Pairs.{names_of};
ghost use Rattle.jm_writer.specs.Drafts.{IsDraft};
ghost use Rattle.jm_modset.specs.Shown.{AreFit};
ghost use Rattle.jm_link.specs.Steps.{AfterStep};
ghost use Rattle.jm_link.specs.Written.{WritesImage};

use crate::linking::{LinkStop, Summary};
use jm_bytes::Order;
use jm_outside::{Shelf, ShelfError};
use jm_pool::Pool;
use jm_writer::{Draft, plan, write};
use std::alloc::Global;

/// Writes a planned image, and ends the making of files after it. After a refusal the file may
/// hold all of the image.
fn write_whole<S: Shelf>(
    alloc: Global,
    draft: &Draft,
    pool: &Pool,
    shelf: &mut S,
    path: &[u8],
) -> Result<(), ShelfError>
    requires draft { IsDraft draft.now.order pool.now draft.now }
    requires path { IsUtf8 path.now }
    ensures ok { OnOk result ((image : List ℕ) × (layout draft.now.order pool.now ≡ Some image)
        × Holds (S.files shelf.old) path.now image (S.files shelf.new)) }
    ensures err { OnErr result ((image : List ℕ) × (layout draft.now.order pool.now ≡ Some image)
        × HoldsPart (S.files shelf.old) path.now image (S.files shelf.new)) }
    ensures whole { OnOk result (IsTrue (S.whole shelf.new)) }
    ensures durable { OnOk result (IsTrue (S.durable shelf.new)) }
    ensures handed { S.handed shelf.new ≡ S.handed shelf.old }
    ensures faults { CountsFaults (S.faults shelf.old) (S.faults shelf.new) (IsOk result)
        (IsErrOf result ShelfError.Failed) }
{
    write(alloc, draft, pool, shelf, path)?;
    shelf.finish(alloc)
}

/// An image that is planned, with the number of its modules.
#[derive(Drop)]
struct Planned {
    draft: Draft,
    modules: usize,
}

/// Writes a planned image.
fn write_planned<S: Shelf>(
    alloc: Global,
    planned: &Planned,
    pool: &Pool,
    shelf: &mut S,
    path: &[u8],
) -> Result<Summary, LinkStop>
    requires draft { IsDraft planned.now.draft.order pool.now planned.now.draft }
    requires path { IsUtf8 path.now }
    ensures writes { WritesImage planned.now.draft.order planned.now.modules pool.now path.now
        result (shelf_at S.Shelf shelf.old) (shelf_at S.Shelf shelf.new) }
    ensures whole { AfterStep (IsTrue (S.whole shelf.new)) result }
    ensures handed { S.handed shelf.new ≡ S.handed shelf.old }
{
    write_whole(alloc, &planned.draft, pool, shelf, path)?;
    Ok(Summary {
        modules: planned.modules,
        resources: pool.len(),
        length: planned.draft.length,
        slots: planned.draft.slots,
    })
}

/// Writes the image of the resources of that many modules, in a byte order, to the file at a path.
/// All of it but the bytes of the resources is made before the file is touched.
pub fn write_image<S: Shelf>(
    alloc: Global,
    order: Order,
    modules: usize,
    pool: &Pool,
    output: &[u8],
    shelf: &mut S,
) -> Result<Summary, LinkStop>
    requires fit { AreFit (names_of pool.now) }
    requires output { IsUtf8 output.now }
    ensures writes { WritesImage order modules pool.now output.now result
        (shelf_at S.Shelf shelf.old) (shelf_at S.Shelf shelf.new) }
    ensures whole { IsTrue (S.whole shelf.old) → AfterStep (IsTrue (S.whole shelf.new)) result }
    ensures handed { S.handed shelf.new ≡ S.handed shelf.old }
{
    let draft = plan(alloc, order, pool)?;
    let planned = Planned { draft, modules };
    write_planned(alloc, &planned, pool, shelf, output)
}
