ghost use Rattle.std.specs.Prelude.{◌<◌};
ghost use Rattle.jm_bytes.specs.Results.{IfAnswered};
ghost use Rattle.jm_plugins.specs.Plugins.{Applies, Makes};

use crate::classes::{Remaking, remake_classes};
use crate::exclusion::drop_matched;
use crate::order::{keep_order, order_matched};
use crate::packages::list_packages;
use crate::system_modules::drop_system_modules;
use jm_bytes::{Or, Text};
use jm_class::{ClassFault, DEFAULT_RELEASE};
use jm_halves::{Gate, Workers};
use jm_pool::Pool;
use jm_words::Plugin;
use std::alloc::Global;
use std::thread::Threads;

/// A class whose bytes don't read as one of the release: plug-ins can't act on it.
#[derive(Debug, Drop)]
pub struct BadClass {
    /// Its name in the pool.
    pub name: Text,
    /// The first fault of its bytes.
    pub fault: ClassFault,
}

/// What one plug-in makes of a pool, where classes are those of a release.
fn act<R: Threads + Sync, G: Gate + Sync>(
    workers: &Workers<R, G>,
    release: u32,
    pool: Pool,
    plugin: &Plugin,
) -> Result<Pool, Or<BadClass>>
    ensures { IfAnswered (Makes release plugin.now pool) result }
{
    match plugin {
        Plugin::Exclude(patterns) => Ok(drop_matched(workers, pool, patterns.as_slice())?),
        Plugin::Order(patterns) => Ok(order_matched(workers, pool, patterns.as_slice())?),
        Plugin::KeepOrder(names) => Ok(keep_order(workers, pool, names.as_slice())?),
        Plugin::Strip => remake_classes(workers, release, pool, Remaking::Strip),
        Plugin::Compact => remake_classes(workers, release, pool, Remaking::Compact),
        Plugin::Packages => list_packages(workers, release, pool),
        Plugin::DropSystemModules => Ok(drop_system_modules(workers, pool)?),
    }
}

/// Lets the plug-ins act on a pool, from the first to the last, each on all jobs. The answer
/// depends neither on the number of jobs nor on the gate. A refusal spends the pool: `BadClass`
/// comes of the first plug-in that meets a class that doesn't read as one of the release, and of
/// the least place of such a class in the pool that it has then; want of memory at an earlier place
/// is answered instead. A class that no plug-in takes is of any release.
pub fn apply_for<R: Threads + Sync, G: Gate + Sync>(
    workers: &Workers<R, G>,
    release: u32,
    pool: Pool,
    list: &[Plugin],
) -> Result<Pool, Or<BadClass>>
    ensures { IfAnswered (Applies release list.now pool) result }
{
    let mut pool = pool;
    for number in 0..list.len() {
        pool = act(workers, release, pool, &list[number])?;
    }
    Ok(pool)
}

/// Lets the plug-ins act on a pool whose classes are those of release 21, as `apply_for` does.
pub fn apply<R: Threads + Sync, G: Gate + Sync>(
    rt: &R,
    alloc: Global,
    jobs: u32,
    pool: Pool,
    list: &[Plugin],
    gate: &G,
) -> Result<Pool, Or<BadClass>>
    requires { 0 < jobs }
    ensures { IfAnswered (Applies 21 list.now pool) result }
{
    let workers = Workers {
        rt,
        alloc,
        jobs,
        gate,
    };
    apply_for(&workers, DEFAULT_RELEASE, pool, list)
}
