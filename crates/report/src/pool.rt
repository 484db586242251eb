// The blocks that are out of the pool.
ghost use Rattle.agreement.specs.Refusals.{tally_answer};
ghost use Rattle.agreement.specs.Views.{model_of};
ghost use Rattle.bench.specs.Views.{view_of};
ghost use Rattle.groups.specs.Groups.{Lowest};
ghost use Rattle.report.specs.Pool.{full, out_at};
ghost use Rattle.std.specs.Prelude.{◌≡◌, ℕ, IfOk};

use bench::Bench;
use carriage::Carriage;
use std::alloc::{AllocError, Global};

fn is_out<C: Carriage>(bench: &Bench<C>, q: u16, block: u16) -> bool
    ensures { result ≡ full (tally_answer C.Carriage (view_of bench.now) q block) }
{
    bench.tally(q, block) == Ok(3)
}

// The blocks that are out of the pool at the lowest correct controller, rising.
pub(crate) fn out_blocks<C: Carriage>(
    bench: &Bench<C>,
    heap: Global,
) -> Result<Vec<u16>, AllocError>
    ensures { IfOk result (λ v. (q : ℕ) × Lowest (model_of C.Carriage (view_of bench.now)).group q × (v.items ≡ out_at C.Carriage (view_of bench.now) q)) }
{
    let lowest = bench.group().lowest_correct();
    (0..64)
        .filter(|block| is_out(bench, lowest, *block))
        .collect(heap)
}
