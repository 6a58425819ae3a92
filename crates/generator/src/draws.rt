//! Numbers that are drawn from a seed, by splitmix64.

ghost use Rattle.std.specs.Prelude.{◌≡◌, ◌+◌, ◌<◌, ◌^◌, ℕ};
ghost use Rattle.generator.specs.Draws.{mixed, draw, state_after};

/// How far one draw moves the state.
const STEP: u64 = 0x9e37_79b9_7f4a_7c15;

/// The draws of a seed, from some draw on.
#[derive(Drop)]
pub struct Draws {
    pub state: u64,
}

impl Draws {
    pub fn new(seed: u64) -> Draws
        ensures { result.state ≡ state_after seed 0 }
    {
        Draws { state: seed }
    }

    /// The next draw.
    pub fn next(&mut self) -> u64
        ensures draw { (seed before : ℕ) → self.old.state ≡ state_after seed before → result ≡ draw seed before }
        ensures state { (seed before : ℕ) → self.old.state ≡ state_after seed before →
            self.new.state ≡ state_after seed (before + 1) }
    {
        self.state = self.state.wrapping_add(STEP);
        mixed(self.state)
    }
}

fn mixed(state: u64) -> u64
    ensures { result ≡ mixed state }
{
    let half = (state ^ (state >> 30)).wrapping_mul(0xbf58_476d_1ce4_e5b9);
    let whole = (half ^ (half >> 27)).wrapping_mul(0x94d0_49bb_1331_11eb);
    whole ^ (whole >> 31)
}
