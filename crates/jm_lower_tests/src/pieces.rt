ghost use Rattle.std.specs.Prelude.{◌≡◌, ◌*◌, ◌<◌, IfOk, IfSome, IfNone, length, map, slice_index};
ghost use Rattle.std.specs.Prelude.{ℕ};

use crate::meeting::{Meeting, sees};
use jm_bytes::{List, NoMemory};
use jm_halves::{Gate, NoGate, first_some, map_halves};
use std::alloc::Global;
use std::sync::atomic::{AtomicBool, AtomicUsize, Ordering};
use std::test::Fail;
use std::thread::Threads;

#[test]
fn both_pieces_meet(rt: HostRuntime) -> Result<(), Fail> {
    let (gate, work) = (Meeting::new(), Meeting::new());
    let answers = map_halves(
        &rt,
        rt.alloc(),
        2,
        &[0usize, 1],
        &|item| work.meet(*item),
        &gate,
    )?;
    assert_eq!(rt; answers.len(), 2);
    assert!(rt; gate.is_met(), "the pieces of the map met at the gate");
    assert!(rt; work.is_met(), "the pieces of the map met at their items");

    let (gate, work) = (Meeting::new(), Meeting::new());
    let look = |place| -> Option<usize> {
        work.meet(place);
        None
    };
    assert_eq!(rt; first_some(&rt, 2, 2, &look, &gate), None);
    assert!(rt; gate.is_met(), "the pieces of the search met at the gate");
    assert!(rt;
        work.is_met(),
        "the pieces of the search met at their places"
    );
    Ok(())
}

fn square(number: &u32) -> u64
    ensures { result ≡ number.now * number.now }
{
    u64::from(*number) * u64::from(*number)
}

/// The squares of numbers.
fn squares<R: Threads + Sync, G: Gate + Sync>(
    rt: &R,
    alloc: Global,
    jobs: u32,
    numbers: &[u32],
    gate: &G,
) -> Result<List<u64>, NoMemory>
    requires { 0 < jobs }
    ensures { IfOk result (λ v. v ≡ map (λ n. n * n) numbers.now) }
{
    map_halves(rt, alloc, jobs, numbers, &|number| square(number), gate)
}

fn above_zero(numbers: &[u32], place: usize) -> Option<u32>
    requires { place < length numbers.now }
    ensures some { IfSome result
        (λ number. (number ≡ slice_index numbers.now place) × (0 < number)) }
    ensures none { IfNone result (slice_index numbers.now place ≡ 0) }
{
    if numbers[place] > 0 {
        Some(numbers[place])
    } else {
        None
    }
}

/// The first number above 0, with its place.
fn first_above_zero<R: Threads + Sync, G: Gate + Sync>(
    rt: &R,
    jobs: u32,
    numbers: &[u32],
    gate: &G,
) -> Option<(usize, u32)>
    requires { 0 < jobs }
    ensures inside { IfSome result (λ r. r.0 < length numbers.now) }
    ensures value { IfSome result (λ r. (r.1 ≡ slice_index numbers.now r.0) × (0 < r.1)) }
    ensures first { IfSome result (λ r. (i : ℕ) → i < r.0 → slice_index numbers.now i ≡ 0) }
    ensures none { IfNone result
        ((i : ℕ) → i < length numbers.now → slice_index numbers.now i ≡ 0) }
{
    first_some(
        rt,
        jobs,
        numbers.len(),
        &|place| above_zero(numbers, place),
        gate,
    )
}

#[test]
fn halves_in_order(rt: HostRuntime) -> Result<(), Fail> {
    for jobs in [1, 2, 64] {
        let answers = squares(&rt, rt.alloc(), jobs, &[1, 2, 3], &NoGate)?;
        assert_eq!(rt;
            answers.as_slice(),
            [1, 4, 9].as_slice(),
            "with {jobs} jobs"
        );
        let found = first_above_zero(&rt, jobs, &[0, 0, 0, 7, 0, 0, 0, 0, 0, 5], &NoGate);
        assert_eq!(rt; found, Some((3, 7)), "with {jobs} jobs");
        let found = first_above_zero(&rt, jobs, &[0, 0, 0], &NoGate);
        assert_eq!(rt; found, None, "with {jobs} jobs");
    }
    Ok(())
}

/// Five items of work, with a gate that counts its entries. One piece waits in it until the items
/// that it awaits are done.
#[derive(Drop)]
struct Watch<'a> {
    done: [AtomicBool; 5],
    first_entries: AtomicUsize,
    second_entries: AtomicUsize,
    other_entries: AtomicUsize,
    waiting: usize,
    awaited: &'a [usize],
    missed: AtomicBool,
}

impl<'a> Watch<'a> {
    fn new(waiting: usize, awaited: &'a [usize]) -> Watch<'a> {
        Watch {
            done: [
                AtomicBool::new(false),
                AtomicBool::new(false),
                AtomicBool::new(false),
                AtomicBool::new(false),
                AtomicBool::new(false),
            ],
            first_entries: AtomicUsize::new(0),
            second_entries: AtomicUsize::new(0),
            other_entries: AtomicUsize::new(0),
            waiting,
            awaited,
            missed: AtomicBool::new(false),
        }
    }

    fn work(&self, item: usize) -> usize {
        if let Some(done) = self.done.get(item) {
            done.store(true, Ordering::SeqCst);
        }
        item
    }

    /// The entries of piece 0, of piece 1 and of any others.
    fn entered(&self) -> [usize; 3] {
        let first = self.first_entries.load(Ordering::SeqCst);
        let second = self.second_entries.load(Ordering::SeqCst);
        let others = self.other_entries.load(Ordering::SeqCst);
        [first, second, others]
    }
}

impl<'a> Gate for Watch<'a> {
    fn enter(&self, piece: usize) {
        let entries = match piece {
            0 => &self.first_entries,
            1 => &self.second_entries,
            _ => &self.other_entries,
        };
        entries.fetch_add(1, Ordering::SeqCst);
        if piece != self.waiting {
            return;
        }
        for item in self.awaited {
            if !self.done.get(*item).is_some_and(sees) {
                self.missed.store(true, Ordering::SeqCst);
                return;
            }
        }
    }
}

#[test]
fn gate_once(rt: HostRuntime) -> Result<(), Fail> {
    for (waiting, awaited) in [(1, [0, 1].as_slice()), (0, [2, 3, 4].as_slice())] {
        let watch = Watch::new(waiting, awaited);
        let work = |item: &usize| watch.work(*item);
        let answers = map_halves(&rt, rt.alloc(), 2, &[0, 1, 2, 3, 4], &work, &watch)?;
        assert_eq!(rt; answers.as_slice(), [0, 1, 2, 3, 4].as_slice());
        assert_eq!(rt; watch.entered(), [1, 1, 0]);
        let missed = watch.missed.load(Ordering::SeqCst);
        assert!(rt; !missed, "the piece other than {waiting} holds {awaited:?}");
    }

    let watch = Watch::new(0, &[]);
    let work = |item: &usize| watch.work(*item);
    let answers = map_halves(&rt, rt.alloc(), 2, &[], &work, &watch)?;
    assert_eq!(rt; answers.len(), 0);
    assert_eq!(rt;
        first_some(&rt, 2, 0, &|place| Some(watch.work(place)), &watch),
        None
    );
    assert_eq!(rt; watch.entered(), [0, 0, 0], "over no item");

    assert_eq!(rt;
        first_some(&rt, 1, 5, &|place| Some(watch.work(place)), &watch),
        Some((0, 0))
    );
    assert_eq!(rt; watch.entered(), [1, 0, 0], "with one job");
    Ok(())
}
