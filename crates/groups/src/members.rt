// A group of controllers: how many there are, how many may be marked, and which are.
ghost use Rattle.std.specs.Prelude.{◌≡◌, ℕ, ◌*◌, ◌<◌, ◌≤◌, true, false, ◌||◌, IfOk, ◌==◌};
ghost use Rattle.std.specs.Result.{result_err};
ghost use Rattle.sets.specs.Sets.{has, size};

use faults::{GroupFault, ValueFault};
use sets::ControllerSet;

// The controllers that the laboratory writes the frames of.
#[derive(Clone, Copy, Debug)]
pub struct Marks {
    set: ControllerSet,
}

impl Marks {
    ghost use Rattle.groups.specs.Groups.{marks_fit, mark_fault};

    pub fn none() -> Marks
        ensures { (k : ℕ) → has result.set k ≡ false }
    {
        Marks {
            set: ControllerSet::empty(),
        }
    }

    // One more mark; a controller's number is at most 15.
    pub fn with(self, number: u16) -> Result<Marks, ValueFault>
        ensures refusal { result_err result ≡ mark_fault number }
        ensures value { IfOk result (λ m. (k : ℕ) → has m.set k ≡ (k == number || has self.set k)) }
    {
        if number > 15 {
            return Err(ValueFault::Mark);
        }
        Ok(Marks {
            set: self.set.with(number),
        })
    }

    pub fn contains(self, q: u16) -> bool
        ensures { result ≡ has self.set q }
    {
        self.set.contains(q)
    }

    // Every mark is below `n`, and there are at most `t`.
    fn fits(self, n: u16, t: u16) -> bool
        ensures { result ≡ marks_fit n t self }
    {
        let outside = self.set.without(ControllerSet::below(n));
        outside.is_empty() && self.set.len() <= t
    }
}

// n controllers of which at most t are marked, with n > 3t. No other group can be made.
#[derive(Clone, Copy, Debug)]
pub struct Group {
    n: u16,
    t: u16,
    marks: Marks,
    ghost some: { 1 ≤ n },
    ghost few: { n ≤ 16 },
    ghost tolerant: { 3 * t < n },
    ghost inside: { (k : ℕ) → has marks.set k ≡ true → k < n },
    ghost tolerated: { size marks.set ≤ t },
}

impl Group {
    ghost use Rattle.groups.specs.Groups.{marked, correct, group_fault, Lowest};

    pub fn new(n: u16, t: u16, marks: Marks) -> Result<Group, GroupFault>
        ensures refusal { result_err result ≡ group_fault n t marks }
        ensures value { IfOk result (λ g. (g.n ≡ n) × (g.t ≡ t) × (g.marks ≡ marks)) }
    {
        if n < 1 || n > 16 {
            return Err(GroupFault::Size);
        }
        if 3 * (t as u32) >= n as u32 {
            return Err(GroupFault::Tolerance);
        }
        if !marks.fits(n, t) {
            return Err(GroupFault::Marks);
        }
        Ok(Group { n, t, marks })
    }

    pub fn n(&self) -> u16
        ensures { result ≡ self.now.n }
    {
        self.n
    }

    pub fn t(&self) -> u16
        ensures { result ≡ self.now.t }
    {
        self.t
    }

    pub fn is_marked(&self, q: u16) -> bool
        ensures { result ≡ marked self.now q }
    {
        self.marks.contains(q)
    }

    // Whether `q` is a controller of the group that is not marked.
    pub fn is_correct(&self, q: u16) -> bool
        ensures { result ≡ correct self.now q }
    {
        q < self.n && !self.marks.contains(q)
    }

    // All controllers that are not marked.
    pub fn correct_ones(&self) -> ControllerSet
        ensures { (k : ℕ) → has result k ≡ correct self.now k }
    {
        ControllerSet::below(self.n).without(self.marks.set)
    }

    // The correct controller with the smallest number.
    pub fn lowest_correct(&self) -> u16
        ensures { Lowest self.now result }
    {
        (0..self.n).find(|q| self.is_correct(*q)).unwrap()
    }
}
