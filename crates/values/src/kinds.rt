// A kind of value says which values are the same and which block a value charges, if any.
ghost use Rattle.std.specs.Prelude.{◌≡◌, ℕ, ◌<◌, Bool, true, Some, Option};

pub trait Kind {
    // Two values count as one.
    ghost same: { Self → Self → Bool };

    // The block that a closed shot with this verdict charges.
    ghost charge: { Self → Option ℕ };

    fn is_same(&self, other: &Self) -> bool
        ensures { result ≡ same self.now other.now };

    fn charged_block(&self) -> Option<u16>
        ensures { result ≡ charge self.now };

    ghost reflexive: { (x : Self) → same x x ≡ true };

    ghost symmetric: { (x y : Self) → same x y ≡ true → same y x ≡ true };

    ghost transitive: { (x y z : Self) → same x y ≡ true → same y z ≡ true → same x z ≡ true };

    ghost charges_alike: { (x y : Self) → same x y ≡ true → charge x ≡ charge y };

    ghost small: { (x : Self) (b : ℕ) → charge x ≡ Some b → b < 64 };
}
