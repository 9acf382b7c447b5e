ghost use Rattle.std.specs.Prelude.{◌≡◌, ◌+◌, ◌<◌, ◌≤◌, ◌↔◌, IsNone, IfSome, IfNone, min};
ghost use Rattle.jm_halves.specs.ComputedPieces.{piece_start};

/// A run of neighbouring pieces: those from `from` up to and without `to`, of all `pieces` pieces.
#[derive(Clone, Copy)]
pub struct Run {
    pub from: usize,
    pub to: usize,
    pub pieces: usize,
    pub ghost some: { from < to },
    pub ghost within: { to ≤ pieces },
}

impl Run {
    /// All pieces of so many places for so many jobs: the lesser number of the two. None where
    /// there is no place.
    pub fn whole(jobs: u32, places: usize) -> Option<Run>
        requires { 0 < jobs }
        ensures pieces { IfSome result (λ run. run.pieces ≡ min jobs places) }
        ensures all { IfSome result (λ run. (run.from ≡ 0) × (run.to ≡ run.pieces)) }
        ensures none { IsNone result ↔ (places ≡ 0) }
    {
        let pieces = (jobs as usize).min(places);
        if pieces == 0 {
            return None;
        }
        Some(Run {
            from: 0,
            to: pieces,
            pieces,
        })
    }

    /// The first and the second half of the run, or none where it is one piece.
    pub fn halves(self) -> Option<(Run, Run)>
        ensures start { IfSome result (λ halves. halves.0.from ≡ self.from) }
        ensures meet { IfSome result (λ halves. halves.0.to ≡ halves.1.from) }
        ensures end { IfSome result (λ halves. halves.1.to ≡ self.to) }
        ensures first { IfSome result (λ halves. halves.0.pieces ≡ self.pieces) }
        ensures second { IfSome result (λ halves. halves.1.pieces ≡ self.pieces) }
        ensures none { IfNone result (self.from + 1 ≡ self.to) }
    {
        let middle = self.from + (self.to - self.from) / 2;
        if middle == self.from {
            return None;
        }
        let first = Run {
            from: self.from,
            to: middle,
            pieces: self.pieces,
        };
        let second = Run {
            from: middle,
            to: self.to,
            pieces: self.pieces,
        };
        Some((first, second))
    }

    /// The first place of the run and the place behind its last one, of so many places in all.
    pub fn bounds(self, places: usize) -> (usize, usize)
        ensures start { result.0 ≡ piece_start places self.pieces self.from }
        ensures end { result.1 ≡ piece_start places self.pieces self.to }
        ensures order { result.0 ≤ result.1 }
        ensures within { result.1 ≤ places }
    {
        let start = start_of(self.from, self.pieces, places);
        let end = start_of(self.to, self.pieces, places);
        (start, end)
    }
}

/// The first place of a piece, of so many pieces and places in all. For the number of the pieces
/// it is the place behind the last one.
fn start_of(piece: usize, pieces: usize, places: usize) -> usize
    requires some { 0 < pieces }
    requires within { piece ≤ pieces }
    ensures start { result ≡ piece_start places pieces piece }
    ensures within { result ≤ places }
{
    (piece as u128 * places as u128 / pieces as u128) as usize
}
