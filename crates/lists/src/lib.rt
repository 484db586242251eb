// Value lists: 1 to 4 values of one kind, no two of them the same. A value's place is its index, from 0.
#![tactic(auto)]

ghost use Rattle.std.specs.Prelude.{◌≡◌, OnOk};
ghost use Rattle.std.specs.Result.{result_err};
ghost use Rattle.lists.specs.Lists.{place_of, FirstPlace, distinct, Apart, length_fault, list_fault};

use faults::ListFault;
use values::Kind;

// The first place that holds a value the same as `wanted`.
pub fn place<K: Kind>(values: &[K], wanted: &K) -> Option<usize>
    ensures is { result ≡ place_of K.Kind.same wanted.now values.now }
    ensures first { FirstPlace K.Kind.same wanted.now values.now result }
{
    values.iter().position(|v| v.is_same(wanted))
}

// Refuses a length that no value list has.
pub fn check_length(len: usize) -> Result<(), ListFault>
    ensures { result_err result ≡ length_fault len }
{
    if len < 1 || len > 4 {
        return Err(ListFault::Length);
    }
    Ok(())
}

// No value of the list is the same as a later one.
fn all_distinct<K: Kind>(values: &[K]) -> bool
    ensures { result ≡ distinct K.Kind.same values.now }
{
    match values {
        [] => true,
        [first, later @ ..] => place(later, first).is_none() && all_distinct(later),
    }
}

// Refuses what is no value list: first by its length, then for two values that are the same.
pub fn check_list<K: Kind>(values: &[K]) -> Result<(), ListFault>
    ensures refusal { result_err result ≡ list_fault K.Kind.same values.now }
    ensures apart { OnOk result (Apart K.Kind.same values.now) }
{
    check_length(values.len())?;
    if !all_distinct(values) {
        return Err(ListFault::Repeated);
    }
    Ok(())
}
