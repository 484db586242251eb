// What correct controllers extract after a round, by what they hold. None of it asks who is marked.
ghost use Rattle.std.specs.Prelude.{◌≡◌, ℕ, ◌<◌};
ghost use Rattle.agreement.specs.Extraction.{vouched, origins, extracts, is_new_to};
ghost use Rattle.bench.specs.Tables.{holds, in_set};

use crate::places::{Extracted, PlaceSet};
use carriage::{Carriage, Triple};

// A round that was just turned on this carriage, in a shot of this sender, and what controllers had extracted before.
#[derive(Drop)]
pub(crate) struct Round<'a, C> {
    pub(crate) carriage: &'a C,
    pub(crate) sender: u16,
    pub(crate) before: &'a Extracted,
    pub(crate) number: u16,
    ghost short: { number < 65535 },
}

impl<C: Carriage> Round<'_, C> {
    // Whether q has accepted the triple. Only a correct controller has accepted anything, and only triples in range.
    fn has_accepted(&self, q: u16, x: Triple) -> bool
        ensures { result ≡ (C.Carriage.model self.now.carriage.now).accepted q x }
    {
        self.carriage.held(q, x).unwrap_or(false)
    }

    // Whether q has accepted a triple of origin p with this place, in this round or an earlier one.
    fn has_vouched(&self, q: u16, v: u16, p: u16) -> bool
        ensures { result ≡ vouched (C.Carriage.model self.now.carriage.now) q v self.now.number p }
    {
        (1..self.number + 1).any(|round| {
            let x = Triple {
                origin: p,
                place: v,
                round,
            };
            self.has_accepted(q, x)
        })
    }

    // From how many different origins q has accepted such a triple.
    fn origin_count(&self, q: u16, v: u16) -> usize
        ensures { result ≡ origins (C.Carriage.model self.now.carriage.now) q v self.now.number }
    {
        let n = self.carriage.group().n();
        (0..n).filter(|p| self.has_vouched(q, v, *p)).count()
    }

    // Whether q extracts place v after this round: it holds the sender's own triple, and enough origins vouch.
    fn extracts(&self, q: u16, v: u16) -> bool
        ensures { result ≡ extracts (C.Carriage.model self.now.carriage.now) q v self.now.sender self.now.number }
    {
        let own = Triple {
            origin: self.sender,
            place: v,
            round: 1,
        };
        self.has_accepted(q, own) && self.number as usize <= self.origin_count(q, v)
    }

    // Whether q extracts v now and had not before.
    fn is_new(&self, q: u16, v: u16) -> bool
        ensures { result ≡ is_new_to (C.Carriage.model self.now.carriage.now) self.now.sender (in_set self.now.before.now) self.now.number q v }
    {
        !self.before.contains(q, v) && self.extracts(q, v)
    }

    // What q extracts now and had not before.
    fn new_row(&self, q: u16) -> PlaceSet
        ensures { (v : ℕ) → holds result v ≡ is_new_to (C.Carriage.model self.now.carriage.now) self.now.sender (in_set self.now.before.now) self.now.number q v }
    {
        let mut row = PlaceSet::empty();
        // a loop, since each place that is found is written
        for v in 0..self.carriage.list_len() {
            if self.is_new(q, v) {
                row.insert(v);
            }
        }
        row
    }

    // All that controllers extract now and had not before.
    pub(crate) fn new_places(&self) -> Extracted
        ensures { (q v : ℕ) → in_set result q v ≡ is_new_to (C.Carriage.model self.now.carriage.now) self.now.sender (in_set self.now.before.now) self.now.number q v }
    {
        let mut news = Extracted::empty();
        // a loop, since each row is written
        for q in 0..self.carriage.group().n() {
            news.set(q, self.new_row(q));
        }
        news
    }
}
