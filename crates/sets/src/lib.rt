// Sets of controllers: each controller below 16 is one bit of a `u16`, so that sets are joined and counted
// by single machine instructions. A number of 16 or more is in no set.
#![tactic(auto)]

ghost use Rattle.std.specs.Prelude.{◌≡◌, ℕ, true, false, not, ◌&&◌, ◌||◌, ◌==◌, nat_lt};
ghost use Rattle.sets.specs.Sets.{has, size};

#[derive(Clone, Copy, Debug, PartialEq, Eq)]
pub struct ControllerSet {
    bits: u16,
}

impl ControllerSet {
    pub fn empty() -> ControllerSet
        ensures { (k : ℕ) → has result k ≡ false }
    {
        ControllerSet { bits: 0 }
    }

    // Every controller below `n`.
    pub fn below(n: u16) -> ControllerSet
        ensures { (k : ℕ) → has result k ≡ (nat_lt k n && nat_lt k 16) }
    {
        if n >= 16 {
            return ControllerSet { bits: 0xffff };
        }
        ControllerSet { bits: (1 << n) - 1 }
    }

    pub fn contains(self, q: u16) -> bool
        ensures { result ≡ has self q }
    {
        q < 16 && (self.bits >> q) & 1 == 1
    }

    // The set and the controller `q`; no number of 16 or more is added.
    pub fn with(self, q: u16) -> ControllerSet
        ensures { (k : ℕ) → has result k ≡ ((nat_lt q 16 && k == q) || has self k) }
    {
        if q >= 16 {
            return self;
        }
        ControllerSet {
            bits: self.bits | (1 << q),
        }
    }

    pub fn union(self, other: ControllerSet) -> ControllerSet
        ensures { (k : ℕ) → has result k ≡ (has self k || has other k) }
    {
        ControllerSet {
            bits: self.bits | other.bits,
        }
    }

    pub fn intersection(self, other: ControllerSet) -> ControllerSet
        ensures { (k : ℕ) → has result k ≡ (has self k && has other k) }
    {
        ControllerSet {
            bits: self.bits & other.bits,
        }
    }

    // The members of this set that `other` lacks.
    pub fn without(self, other: ControllerSet) -> ControllerSet
        ensures { (k : ℕ) → has result k ≡ (has self k && not (has other k)) }
    {
        ControllerSet {
            bits: self.bits ^ (self.bits & other.bits),
        }
    }

    // The members of this set that pass a test.
    pub fn filter<F: Fn(u16) -> bool>(self, passes: F) -> ControllerSet
        requires { (q : ℕ) → has self q ≡ true → F.pre passes q }
        ensures member { (q : ℕ) → has self q ≡ true → F.post passes q (has result q) }
        ensures other { (q : ℕ) → has self q ≡ false → has result q ≡ false }
    {
        let mut kept = ControllerSet::empty();
        // a loop over all numbers that a set may hold: nothing lists its members
        for q in 0..16u16 {
            if self.contains(q) && passes(q) {
                kept = kept.with(q);
            }
        }
        kept
    }

    // How many controllers are in the set.
    pub fn len(self) -> u16
        ensures { result ≡ size self }
    {
        self.bits.count_ones() as u16
    }

    pub fn is_empty(self) -> bool
        ensures { result ≡ (size self == 0) }
    {
        self.len() == 0
    }
}
