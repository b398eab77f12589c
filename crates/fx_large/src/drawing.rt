//! Numbers that are drawn one after another.

ghost use Rattle.std.specs.Prelude.{◌≡◌, ◌<◌};
ghost use Rattle.fx_large.specs.Draws.{drawn, next_state};

/// Draws numbers of 16 bits, one after another: a linear congruential generator modulo 2^32, of which each draw takes a
/// step and then gives the upper bits of the state.
#[derive(Clone, Copy)]
pub struct Draws {
    /// The state: that of a fresh generator is its number.
    pub state: u32,
}

impl Draws {
    /// The next draw.
    pub fn draw(&mut self) -> u16
        ensures state { self.new.state ≡ next_state self.old.state }
        ensures value { result ≡ drawn (next_state self.old.state) }
    {
        let next = 1_664_525 * u64::from(self.state) + 1_013_904_223;
        self.state = (next % (1 << 32)) as u32;
        (self.state >> 16) as u16
    }
}
