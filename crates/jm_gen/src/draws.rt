ghost use Rattle.std.specs.Prelude.{◌≡◌};
ghost use Rattle.jm_gen.specs.Draws.{draw};

use std::marker::Model;

/// Numbers that are drawn one after another; the first is made of a seed.
#[derive(Drop)]
pub struct Draws {
    last: u64,
}

impl Model for Draws {
    ghost use Rattle.std.specs.Prelude.{ℕ};

    ghost Value = { ℕ };

    ghost view = { λ a. a.last };
}

impl Draws {
    /// The draws that follow a seed.
    pub fn new(seed: u64) -> Draws
        ensures { result ≡ seed }
    {
        Draws { last: seed }
    }

    /// The next number.
    pub fn draw(&mut self) -> u64
        ensures drawn { result ≡ draw self.old }
        ensures next { self.new ≡ draw self.old }
    {
        let next = self
            .last
            .wrapping_mul(6_364_136_223_846_793_005)
            .wrapping_add(1_442_695_040_888_963_407);
        self.last = next;
        next
    }
}
