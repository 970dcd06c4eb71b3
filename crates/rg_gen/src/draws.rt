// The generator of numbers: a linear congruence of 64 bits, of which a draw shows the upper 31.
ghost use Rattle.std.specs.Prelude.{◌≡◌, ◌<◌, ◌^◌};
ghost use Rattle.rg_gen.specs.Draws.{next_state, drawn};

/// The state of the generator of numbers.
#[derive(Clone, Copy, Debug)]
pub struct Draws {
    pub state: u64,
}

impl Draws {
    /// Draws a number of 31 bits.
    pub fn draw(&mut self) -> u64
        ensures state { self.new.state ≡ next_state self.old.state }
        ensures drawn { result ≡ drawn (next_state self.old.state) }
    {
        self.state = self
            .state
            .wrapping_mul(6_364_136_223_846_793_005)
            .wrapping_add(1_442_695_040_888_963_407);
        self.state / (1 << 33)
    }
}
