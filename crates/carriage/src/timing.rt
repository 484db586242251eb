// Phases and rounds: round i has the phases 2i − 1 and 2i.
ghost use Rattle.std.specs.Prelude.{◌≡◌, ◌+◌, ◌*◌, ◌==◌, nat_le};

// A phase, seen from the round of a triple.
#[derive(Clone, Copy, Debug)]
pub struct Timing {
    pub phase: u16,
    pub round: u16,
}

impl Timing {
    // The phase is the round's first.
    pub fn is_first(self) -> bool
        ensures { result ≡ (self.phase + 1 == 2 * self.round) }
    {
        self.phase as u32 + 1 == 2 * self.round as u32
    }

    // The phase is the round's first or a later one.
    pub fn has_begun(self) -> bool
        ensures { result ≡ nat_le (2 * self.round) (self.phase + 1) }
    {
        2 * self.round as u32 <= self.phase as u32 + 1
    }

    // The phase is the round's second or a later one.
    pub fn is_past_first(self) -> bool
        ensures { result ≡ nat_le (2 * self.round) self.phase }
    {
        self.phase as u32 >= 2 * self.round as u32
    }
}
