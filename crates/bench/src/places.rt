// The extracted sets of all controllers: which places of the list each of them has extracted.
ghost use Rattle.std.specs.Prelude.{◌≡◌, ℕ, ◌<◌, false, ◌&&◌, ◌||◌, if◌then◌else◌, ◌==◌};
ghost use Rattle.agreement.specs.Extraction.{first_sets, verdict_of};
ghost use Rattle.bench.specs.Tables.{holds, in_set, Placed};

use agreement::Verdict;
use std::array;

// The places that one controller has extracted.
#[derive(Clone, Copy)]
pub struct PlaceSet {
    pub(crate) places: [bool; 4],
}

impl PlaceSet {
    pub(crate) fn empty() -> PlaceSet
        ensures { (v : ℕ) → holds result v ≡ false }
    {
        PlaceSet { places: [false; 4] }
    }

    pub(crate) fn contains(&self, v: u16) -> bool
        ensures { result ≡ holds self.now v }
    {
        self.places.get(v as usize).is_some_and(|held| *held)
    }

    pub(crate) fn insert(&mut self, v: u16)
        requires { v < 4 }
        ensures { (w : ℕ) → holds self.new w ≡ (w == v || holds self.old w) }
    {
        self.places[v as usize] = true;
    }

    // The places of both.
    fn union(&self, other: &PlaceSet) -> PlaceSet
        ensures { (v : ℕ) → holds result v ≡ (holds self.now v || holds other.now v) }
    {
        PlaceSet {
            places: array::from_fn(|v| self.places[v] || other.places[v]),
        }
    }

    // The one place below `len`, or sender faulty if there is none or several.
    fn verdict(&self, len: u16) -> Verdict
        ensures { result ≡ verdict_of len (holds self.now) }
    {
        let mut held = (0..len).filter(|v| self.contains(*v));
        match (held.next(), held.next()) {
            (Some(place), None) => Verdict::Place(place),
            _ => Verdict::SenderFaulty,
        }
    }
}

// The places of each of sixteen controllers.
#[derive(Clone, Copy)]
pub struct Extracted {
    pub(crate) rows: [PlaceSet; 16],
}

impl Extracted {
    pub(crate) fn empty() -> Extracted
        ensures { (q v : ℕ) → in_set result q v ≡ false }
    {
        Extracted {
            rows: [PlaceSet::empty(); 16],
        }
    }

    // The sender's own value, if there is one, and nothing else.
    pub(crate) fn first(sender: u16, place: Option<u16>) -> Extracted
        requires { Placed sender place }
        ensures { (q v : ℕ) → in_set result q v ≡ first_sets sender place q v }
    {
        let mut sets = Extracted::empty();
        if let Some(v) = place {
            sets.rows[sender as usize].insert(v);
        }
        sets
    }

    pub(crate) fn contains(&self, q: u16, v: u16) -> bool
        ensures { result ≡ in_set self.now q v }
    {
        self.rows.get(q as usize).is_some_and(|row| row.contains(v))
    }

    // Puts a set in the place of controller q's.
    pub(crate) fn set(&mut self, q: u16, row: PlaceSet)
        requires { q < 16 }
        ensures { (p v : ℕ) → in_set self.new p v ≡ (if p == q then holds row v else in_set self.old p v) }
    {
        self.rows[q as usize] = row;
    }

    // Adds to every set what `other` has for it.
    pub(crate) fn add(&mut self, other: &Extracted)
        ensures { (q v : ℕ) → in_set self.new q v ≡ (in_set self.old q v || in_set other.now q v) }
    {
        self.rows = array::from_fn(|q| self.rows[q].union(&other.rows[q]));
    }

    // The one place in q's set, or sender faulty if there is none or several.
    pub(crate) fn verdict(&self, q: u16, len: u16) -> Verdict
        ensures { result ≡ verdict_of len (in_set self.now q) }
    {
        match self.rows.get(q as usize) {
            Some(row) => row.verdict(len),
            None => Verdict::SenderFaulty,
        }
    }
}
