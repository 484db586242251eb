// Charging: what a close does to the registers.
ghost use Rattle.std.specs.Prelude.{◌≡◌, ℕ, ◌<◌, ◌≤◌, ◌&&◌, length, if◌then◌else◌, nat_eq};
ghost use Rattle.agreement.specs.Extraction.{verdict_of};
ghost use Rattle.agreement.specs.Steps.{block_of, charges, raised};
ghost use Rattle.agreement.specs.Views.{rules_of};
ghost use Rattle.bench.specs.Tables.{in_set, tally_of};
ghost use Rattle.groups.specs.Groups.{correct};

use crate::places::Extracted;
use crate::tallies::Registers;
use agreement::Verdict;
use groups::Group;
use values::{Block, Kind};

// The block that a verdict charges: that of the value at its place.
fn block_of<K: Kind>(list: &[K], verdict: Verdict) -> Option<Block>
    ensures { result ≡ block_of (rules_of K.Kind.same K.Kind.charge list.now) verdict }
{
    match verdict {
        Verdict::Place(p) => list
            .get(p as usize)
            .and_then(|value| value.charged_block())
            .and_then(|block| Block::new(block).ok()),
        Verdict::SenderFaulty => None,
    }
}

// Controller q charges the block of its verdict in its own register.
fn charge_one<K: Kind>(registers: &mut Registers, q: u16, list: &[K], verdict: Verdict)
    requires { q < 16 }
    ensures { (p b : ℕ) → tally_of registers.new p b ≡ (if nat_eq p q && charges (rules_of K.Kind.same K.Kind.charge list.now) verdict b then raised (tally_of registers.old p b) else tally_of registers.old p b) }
{
    if let Some(block) = block_of(list, verdict) {
        registers.charge(q, block);
    }
}

// Every correct controller charges by its own verdict.
pub(crate) fn charge_all<K: Kind>(
    registers: &mut Registers,
    group: &Group,
    extracted: &Extracted,
    list: &[K],
)
    requires { length list.now ≤ 4 }
    ensures { (q b : ℕ) → tally_of registers.new q b ≡ (if correct group.now q && charges (rules_of K.Kind.same K.Kind.charge list.now) (verdict_of (length list.now) (in_set extracted.now q)) b then raised (tally_of registers.old q b) else tally_of registers.old q b) }
{
    let len = list.len() as u16;
    let n = group.n();
    // a loop, since each charge writes a register
    for q in 0..n {
        if group.is_correct(q) {
            let verdict = extracted.verdict(q, len);
            charge_one(registers, q, list, verdict);
        }
    }
}
