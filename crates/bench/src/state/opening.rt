// Opening a bench, and the law that it then keeps.
ghost use Rattle.agreement.specs.Law.{AllAgree, opened};
ghost use Rattle.agreement.specs.Refusals.{open_fault};
ghost use Rattle.agreement.specs.Views.{rules_of};
ghost use Rattle.agreement.specs.declared.bench_faults.BenchFault.TheVariants.{List};
ghost use Rattle.bench.specs.Views.{view_of};
ghost use Rattle.std.specs.Option.{option_map};
ghost use Rattle.std.specs.Prelude.{◌≡◌, IfOk, Some, None, MatchResult};
ghost use Rattle.std.specs.Result.{result_err};

use super::Bench;
use super::checks::check_length;
use crate::places::Extracted;
use crate::shots::{Progress, Shot};
use crate::tallies::Registers;
use agreement::BenchFault;
use carriage::Carriage;
use faults::ListFault;
use lists::check_list;
use values::Kind;

// A carriage that no bench was opened over, and why not.
#[derive(Drop)]
pub struct Unopened<C> {
    pub carriage: C,
    pub fault: BenchFault,
}

impl<C: Drop> From<Unopened<C>> for BenchFault {
    ghost from_gives = { λ u r. r ≡ u.fault };

    fn from(u: Unopened<C>) -> BenchFault {
        u.fault
    }
}

// The list is as long as the carriage says, and then a value list.
fn check_open<C: Carriage, K: Kind>(carriage: &C, list: &[K]) -> Result<(), ListFault>
    ensures { result_err result ≡ open_fault (C.Carriage.model carriage.now) (rules_of K.Kind.same K.Kind.charge list.now) }
{
    check_length(carriage, list)?;
    check_list(list)
}

impl<C: Carriage> Bench<C> {
    // A bench with no shot, empty sets and all tallies 0, over this carriage and list. Whatever calls of begin, inject,
    // turn and close then come, taken or refused, its correct controllers agree: that is the clause `law`.
    pub fn open<K: Kind>(carriage: C, list: &[K]) -> Result<Bench<C>, Unopened<C>>
        ensures refusal { MatchResult result (λ _. open_fault (C.Carriage.model carriage) (rules_of K.Kind.same K.Kind.charge list.now) ≡ None) (λ u. (Some u.fault ≡ option_map List (open_fault (C.Carriage.model carriage) (rules_of K.Kind.same K.Kind.charge list.now))) × (u.carriage ≡ carriage)) }
        ensures view { IfOk result (λ b. view_of b ≡ opened carriage) }
        ensures law { IfOk result (λ b. AllAgree C.Carriage (rules_of K.Kind.same K.Kind.charge list.now) (view_of b)) }
    {
        // Not `map_err` and `?`: the carriage goes into the refusal only where there is one.
        if let Err(e) = check_open(&carriage, list) {
            let fault = BenchFault::from(e);
            return Err(Unopened { carriage, fault });
        }
        Ok(Bench {
            carriage,
            progress: Progress {
                shot: Shot::Closed(0),
                closed: 0,
            },
            extracted: Extracted::empty(),
            registers: Registers::empty(),
        })
    }
}
