// What a bench offers on its carriage. The carriage cannot refuse these offers. They change it, so they stand in loops; a
// struct for (carriage, news, round) would be no plainer, since each of its methods would owe that news and round stay.
ghost use Rattle.std.specs.Prelude.{◌+◌, ◌≤◌};
ghost use Rattle.agreement.specs.Extraction.{place_offers, group_offers};
ghost use Rattle.agreement.specs.Steps.{Offered};
ghost use Rattle.bench.specs.Inner.{Startable, Started, Offerable, next_offers};
ghost use Rattle.bench.specs.Tables.{in_set};

use crate::places::Extracted;
use carriage::{Carriage, Triple};

// Starts the carriage; the sender's value, if there is one, is offered for round 1.
pub(crate) fn start_shot<C: Carriage>(carriage: &mut C, sender: u16, place: Option<u16>)
    requires { Startable (C.Carriage.model carriage.old) sender place }
    ensures { Started C.Carriage sender place carriage.old carriage.new }
{
    carriage.start();
    if let Some(v) = place {
        let x = Triple {
            origin: sender,
            place: v,
            round: 1,
        };
        carriage.offer(x).unwrap();
    }
}

// Offers the new places of controller q, in their order.
fn offer_places<C: Carriage>(carriage: &mut C, news: &Extracted, round: u16, q: u16, len: u16)
    requires { Offerable (C.Carriage.model carriage.old) (in_set news.now) round }
    ensures { Offered C.Carriage carriage.old (place_offers (in_set news.now) round q len) carriage.new }
{
    for v in 0..len {
        if news.contains(q, v) {
            let x = Triple {
                origin: q,
                place: v,
                round,
            };
            carriage.offer(x).unwrap();
        }
    }
}

// Offers the new places of the controllers below n, in their order.
fn offer_group<C: Carriage>(carriage: &mut C, news: &Extracted, round: u16, len: u16, n: u16)
    requires { Offerable (C.Carriage.model carriage.old) (in_set news.now) round }
    ensures { Offered C.Carriage carriage.old (group_offers (in_set news.now) round len n) carriage.new }
{
    for q in 0..n {
        offer_places(carriage, news, round, q, len);
    }
}

// After a round that is not the last one, offers all that is new for the next.
pub(crate) fn offer_next<C: Carriage>(carriage: &mut C, news: &Extracted, round: u16)
    requires { round ≤ (C.Carriage.model carriage.old).group.t → Offerable (C.Carriage.model carriage.old) (in_set news.now) (round + 1) }
    ensures { Offered C.Carriage carriage.old (next_offers (C.Carriage.model carriage.old) (in_set news.now) round) carriage.new }
{
    let group = carriage.group();
    if round <= group.t() {
        let len = carriage.list_len();
        offer_group(carriage, news, round + 1, len, group.n());
    }
}
