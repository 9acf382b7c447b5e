ghost use Rattle.std.specs.Prelude.{◌<◌, ◌≤◌};
ghost use Rattle.std.specs.Thread.{IsSend, IsSync};
ghost use Rattle.jm_halves.specs.First.{IsFirstIn};
ghost use Rattle.jm_halves.specs.ComputedPieces.{piece_start};

use crate::gate::Gate;
use crate::run::Run;
use std::thread::{Threads, join};

/// The least place below `n` for which `f` gives a value, with that value, or none where there is
/// no such place, searched in pieces as the crate's page says. A piece is searched up to its first
/// value. The answer depends on `f` alone, and neither on the number of jobs nor on what the gate
/// does. It takes no memory of its own.
pub fn first_some<
    R: Threads + Sync,
    D: Send + Drop,
    F: Fn(usize) -> Option<D> + Sync,
    G: Gate + Sync,
>(rt: &R, jobs: u32, n: usize, f: &F, gate: &G) -> Option<(usize, D)>
    requires jobs { 0 < jobs }
    requires callable { (i : _) → i < n → F.pre f.now i }
    ensures { IsFirstIn (F.post f.now) 0 n result }
{
    first_in_run(rt, Run::whole(jobs, n)?, n, f, gate)
}

/// The least place with a value among the places of a run, whose halves are searched at one time.
#[cycle(search)]
fn first_in_run<
    R: Threads + Sync,
    D: Send + Drop,
    F: Fn(usize) -> Option<D> + Sync,
    G: Gate + Sync,
>(rt: &R, run: Run, n: usize, f: &F, gate: &G) -> Option<(usize, D)>
    requires { (i : _) → i < n → F.pre f.now i }
    ensures { IsFirstIn (F.post f.now)
        (piece_start n run.pieces run.from) (piece_start n run.pieces run.to) result }
{
    let Some((left, right)) = run.halves() else {
        gate.enter(run.from);
        let (start, end) = run.bounds(n);
        return first_between(start, end, f);
    };
    let front = move || -> Option<(usize, D)>
        requires shared { IsSync R.row × IsSync F.row × IsSync G.row }
        requires sent { IsSend D.row }
        requires callable { (i : _) → i < n → F.pre f.now i }
        ensures { IsFirstIn (F.post f.entry.now)
            (piece_start n left.pieces left.from) (piece_start n left.pieces left.to) result }
    { first_in_run(rt, left, n, f, gate) };
    let back = move || -> Option<(usize, D)>
        requires shared { IsSync R.row × IsSync F.row × IsSync G.row }
        requires sent { IsSend D.row }
        requires callable { (i : _) → i < n → F.pre f.now i }
        ensures { IsFirstIn (F.post f.entry.now)
            (piece_start n right.pieces right.from) (piece_start n right.pieces right.to) result }
    { first_in_run(rt, right, n, f, gate) };
    let (front, back) = join(rt, front, back);
    front.or(back)
}

/// The least place from `start` on and below `end` for which `f` gives a value, with that value, or
/// none where there is no such place: the search of one piece, which needs no runtime.
pub fn first_between<D, F: Fn(usize) -> Option<D>>(
    start: usize,
    end: usize,
    f: &F,
) -> Option<(usize, D)>
    requires order { start ≤ end }
    requires callable { (i : _) → start ≤ i → i < end → F.pre f.now i }
    ensures { IsFirstIn (F.post f.now) start end result }
{
    for i in start..end {
        if let Some(found) = f(i) {
            return Some((i, found));
        }
    }
    None
}
