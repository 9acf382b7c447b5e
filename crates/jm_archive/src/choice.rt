//! Of the cuts of each path, the one of the greatest version.
ghost use Rattle.std.specs.Prelude.{◌≡◌, IfOk, IsFalse, AllPairs, map};
ghost use Rattle.jm_bytes.specs.ByteOrder.{is_before};
ghost use Rattle.jm_archive.specs.Cuts.{AreBest, candidate_of};

use crate::cuts::Cut;
use jm_bytes::{List, NoMemory};
use jm_names::HasName;
use std::alloc::Global;
use std::cmp::Ordering;

impl<'a> HasName for Cut<'a> {
    ghost use Rattle.jm_archive.specs.Cuts.{named_of};

    ghost pair = { named_of };

    fn name(&self) -> &[u8] {
        self.path
    }

    fn order(&self, other: &Cut<'a>) -> Ordering {
        self.path.cmp(other.path)
    }
}

/// Of cuts whose paths never fall, the one of the greatest version of each path.
pub fn best_of_each<'a>(alloc: Global, cuts: &[Cut<'a>]) -> Result<List<Cut<'a>>, NoMemory>
    requires { AllPairs (λ cut later. IsFalse (is_before later.path.now cut.path.now)) cuts.now }
    ensures { IfOk result (λ best. AreBest (map candidate_of cuts.now) (map candidate_of best)) }
{
    let mut best = List::new(alloc);
    let Some((first, later)) = cuts.split_first() else {
        return Ok(best);
    };
    let mut last = *first;
    for cut in later {
        if cut.path != last.path {
            best.push(last)?;
            last = *cut;
        } else if last.version < cut.version {
            last = *cut;
        }
    }
    best.push(last)?;
    Ok(best)
}
