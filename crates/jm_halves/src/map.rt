ghost use Rattle.std.specs.Prelude.{◌≡◌, ◌++◌, ◌<◌, Contains, IfOk, IsOkAnd};
ghost use Rattle.std.specs.Fn.{FnReturnsAt};
ghost use Rattle.std.specs.List.{AllZip};
ghost use Rattle.std.specs.Thread.{IsSend, IsSync};
ghost use Rattle.jm_halves.specs.ComputedPieces.{pieces_between};

use crate::gate::Gate;
use crate::run::Run;
use jm_bytes::{List, NoMemory};
use std::alloc::{AllocError, Global};
use std::thread::{Threads, join};

/// The answers of `f` to the items, in the order of the items, worked in pieces as the crate's page
/// says. They depend on `f` alone, and neither on the number of jobs nor on what the gate does.
///
/// It answers `NoMemory` where no memory was found for the answers; those already made are let go.
pub fn map_halves<
    R: Threads + Sync,
    T: Sync,
    U: Send + Drop,
    F: Fn(&T) -> U + Sync,
    G: Gate + Sync,
>(rt: &R, alloc: Global, jobs: u32, items: &[T], f: &F, gate: &G) -> Result<List<U>, NoMemory>
    requires jobs { 0 < jobs }
    requires callable { (x : _) → Contains items.now x.now → F.pre f.now x }
    ensures { IfOk result (λ v. AllZip (FnReturnsAt F.Fn f.now) items.now v) }
{
    let Some(run) = Run::whole(jobs, items.len()) else {
        return Ok(List::new(alloc));
    };
    Ok(List::from_vec(map_run(rt, alloc, run, items, f, gate)?))
}

/// The answers to the items of a run of pieces, whose halves are worked at one time.
#[cycle(map)]
fn map_run<R: Threads + Sync, T: Sync, U: Send + Drop, F: Fn(&T) -> U + Sync, G: Gate + Sync>(
    rt: &R,
    alloc: Global,
    run: Run,
    items: &[T],
    f: &F,
    gate: &G,
) -> Result<Vec<U>, AllocError>
    requires { (x : _) → Contains items.now x.now → F.pre f.now x }
    ensures { IfOk result (λ v. AllZip (FnReturnsAt F.Fn f.now)
        (pieces_between items.now run.pieces run.from run.to) v.items) }
{
    let Some((left, right)) = run.halves() else {
        gate.enter(run.from);
        let (start, end) = run.bounds(items.len());
        return map_slice(alloc, &items[start..end], f);
    };
    let front = move || -> Result<Vec<U>, AllocError>
        requires shared { IsSync R.row × IsSync T.row × IsSync F.row × IsSync G.row }
        requires sent { IsSend U.row }
        requires callable { (x : _) → Contains items.now x.now → F.pre f.now x }
        ensures { IfOk result (λ v. AllZip (FnReturnsAt F.Fn f.entry.now)
            (pieces_between items.entry.now left.pieces left.from left.to) v.items) }
    { map_run(rt, alloc, left, items, f, gate) };
    let back = move || -> Result<Vec<U>, AllocError>
        requires shared { IsSync R.row × IsSync T.row × IsSync F.row × IsSync G.row }
        requires sent { IsSend U.row }
        requires callable { (x : _) → Contains items.now x.now → F.pre f.now x }
        ensures { IfOk result (λ v. AllZip (FnReturnsAt F.Fn f.entry.now)
            (pieces_between items.entry.now right.pieces right.from right.to) v.items) }
    { map_run(rt, alloc, right, items, f, gate) };
    let (front, back) = join(rt, front, back);
    answers_of_both(front, back)
}

/// The answers to all items of a slice, in order.
fn map_slice<T, U: Drop, F: Fn(&T) -> U>(
    alloc: Global,
    items: &[T],
    f: &F,
) -> Result<Vec<U>, AllocError>
    requires { (x : _) → Contains items.now x.now → F.pre f.now x }
    ensures { IfOk result (λ v. AllZip (FnReturnsAt F.Fn f.now) items.now v.items) }
{
    let mut answers = Vec::with_capacity(alloc, items.len())?;
    for item in items {
        answers.push(f(item))?;
    }
    Ok(answers)
}

/// The answers of two runs as one list.
fn answers_of_both<U: Drop>(
    front: Result<Vec<U>, AllocError>,
    back: Result<Vec<U>, AllocError>,
) -> Result<Vec<U>, AllocError>
    ensures { IfOk result (λ all. IsOkAnd front (λ a. IsOkAnd back
        (λ b. all.items ≡ a.items ++ b.items))) }
{
    let mut all = front?;
    let mut rest = back?;
    all.append(&mut rest)?;
    Ok(all)
}
