// Benches over the two carriages. Besides the law of agreement their contracts say that the carriage goes by its own rules
// through every run of the bench, and that the same calls always have the same answers.
#![tactic(auto)]

ghost use Rattle.agreement.specs.Law.{AllAgree};
ghost use Rattle.agreement.specs.Repeats.{AllRepeat};
ghost use Rattle.agreement.specs.Views.{rules_of};
ghost use Rattle.agreement.specs.declared.bench_faults.BenchFault.TheVariants.{List};
ghost use Rattle.bench.specs.Views.{view_of};
ghost use Rattle.benches.specs.Opened.{MadeFor, EchoProtocol, SealProtocol};
ghost use Rattle.echo.specs.Echoes.{echo_account, state_of as echo_state};
ghost use Rattle.seal.specs.Seals.{seal_account, state_of as seal_state};
ghost use Rattle.std.specs.Option.{option_map};
ghost use Rattle.std.specs.Prelude.{◌≡◌, length, IfOk, Ok, OnOk};
ghost use Rattle.std.specs.Result.{result_err};
ghost use Rattle.lists.specs.Lists.{list_fault};

use agreement::BenchFault;
use bench::Bench;
use carriage::Carriage;
use echo::Echo;
use faults::ListFault;
use groups::Group;
use lists::check_list;
use seal::Seal;
use values::Kind;

// A bench over the carriage that `make` makes for this group and this list.
fn open_over<C, K: Kind, F>(make: F, group: Group, list: &[K]) -> Result<Bench<C>, BenchFault>
where
    C: Carriage + Drop,
    F: FnOnce(Group, u16) -> Result<C, ListFault>,
    requires callable { F.IsAlwaysCallable make }
    requires makes { (r : _) → F.post make group (length list.now) r → MadeFor C.Carriage (length list.now) r }
    ensures refusal { result_err result ≡ option_map List (list_fault K.Kind.same list.now) }
    ensures law { IfOk result (λ b. AllAgree C.Carriage (rules_of K.Kind.same K.Kind.charge list.now) (view_of b)) }
    ensures made { IfOk result (λ b. F.post make group (length list.now) (Ok (view_of b).carriage)) }
{
    check_list(list)?;
    let carriage = make(group, list.len() as u16)?;
    Ok(Bench::open(carriage, list)?)
}

// A bench over the echo carriage, made for this group and this list.
pub fn open_echo<K: Kind>(group: Group, list: &[K]) -> Result<Bench<Echo>, BenchFault>
    ensures refusal { result_err result ≡ option_map List (list_fault K.Kind.same list.now) }
    ensures law { IfOk result (λ b. AllAgree echo_account (rules_of K.Kind.same K.Kind.charge list.now) (view_of b)) }
    ensures protocol { IfOk result (λ b. EchoProtocol (rules_of K.Kind.same K.Kind.charge list.now) group (length list.now) (view_of b)) }
    ensures repeats { OnOk result (AllRepeat echo_account (rules_of K.Kind.same K.Kind.charge list.now) echo_state) }
{
    open_over(Echo::new, group, list)
}

// A bench over the seal carriage, made for this group and this list.
pub fn open_seal<K: Kind>(group: Group, list: &[K]) -> Result<Bench<Seal>, BenchFault>
    ensures refusal { result_err result ≡ option_map List (list_fault K.Kind.same list.now) }
    ensures law { IfOk result (λ b. AllAgree seal_account (rules_of K.Kind.same K.Kind.charge list.now) (view_of b)) }
    ensures protocol { IfOk result (λ b. SealProtocol (rules_of K.Kind.same K.Kind.charge list.now) group (length list.now) (view_of b)) }
    ensures repeats { OnOk result (AllRepeat seal_account (rules_of K.Kind.same K.Kind.charge list.now) seal_state) }
{
    open_over(Seal::new, group, list)
}
