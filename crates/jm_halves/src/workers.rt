ghost use Rattle.std.specs.Prelude.{◌<◌, Contains, IfOk};
ghost use Rattle.std.specs.Fn.{FnReturnsAt};
ghost use Rattle.std.specs.List.{AllZip};
ghost use Rattle.jm_halves.specs.First.{IsFirstIn};

use crate::gate::Gate;
use crate::map::map_halves;
use crate::search::first_some;
use jm_bytes::{List, NoMemory};
use std::alloc::Global;
use std::thread::Threads;

/// The jobs that work a list or a range of places in pieces, and what they work with.
#[derive(Drop)]
pub struct Workers<'a, R, G> {
    pub rt: &'a R,
    /// Where answers take their memory.
    pub alloc: Global,
    /// How many pieces are worked at one time.
    pub jobs: u32,
    /// What each piece passes before its work.
    pub gate: &'a G,
    pub ghost some: { 0 < jobs },
}

impl<R: Threads + Sync, G: Gate + Sync> Workers<'_, R, G> {
    /// Does what the function `first_some` does, by these workers.
    pub fn first_some<D: Send + Drop, F: Fn(usize) -> Option<D> + Sync>(
        &self,
        n: usize,
        f: &F,
    ) -> Option<(usize, D)>
        requires callable { (i : _) → i < n → F.pre f.now i }
        ensures { IsFirstIn (F.post f.now) 0 n result }
    {
        first_some(self.rt, self.jobs, n, f, self.gate)
    }

    /// Does what the function `map_halves` does, by these workers.
    pub fn map<T: Sync, U: Send + Drop, F: Fn(&T) -> U + Sync>(
        &self,
        items: &[T],
        f: &F,
    ) -> Result<List<U>, NoMemory>
        requires callable { (x : _) → Contains items.now x.now → F.pre f.now x }
        ensures { IfOk result (λ v. AllZip (FnReturnsAt F.Fn f.now) items.now v) }
    {
        map_halves(self.rt, self.alloc, self.jobs, items, f, self.gate)
    }
}
