// Pulse reports: a block and the pulses that its erase took, 1 to 8; 8 means that the erase was given up.
ghost use Rattle.std.proofs.Common.{rules};
ghost use Rattle.std.specs.Prelude.{◌≡◌, ◌<◌, ◌≤◌, IfOk};
ghost use Rattle.std.specs.Result.{result_err};
ghost use Rattle.values.specs.Ranges.{pulse_fault};

use crate::blocks::Block;
use crate::kinds::Kind;
use faults::ValueFault;

// The block is kept as its number, as that of a notice is.
#[derive(Clone, Copy, Debug, PartialEq, Eq)]
pub struct PulseReport {
    block: u8,
    pulses: u8,
    ghost blocks: { block < 64 },
    ghost some: { 1 ≤ pulses },
    ghost few: { pulses ≤ 8 },
}

impl PulseReport {
    pub fn new(block: u16, pulses: u16) -> Result<PulseReport, ValueFault>
        ensures refusal { result_err result ≡ pulse_fault block pulses }
        ensures value { IfOk result (λ v. (v.block ≡ block) × (v.pulses ≡ pulses)) }
    {
        let block = Block::new(block)?;
        if pulses < 1 || pulses > 8 {
            return Err(ValueFault::Pulses);
        }
        Ok(PulseReport {
            block: block.number() as u8,
            pulses: pulses as u8,
        })
    }

    pub fn block(&self) -> u16
        ensures { result ≡ self.now.block }
    {
        self.block as u16
    }

    pub fn pulses(&self) -> u16
        ensures { result ≡ self.now.pulses }
    {
        self.pulses as u16
    }
}

// The same when both numbers agree; 8 pulses charge the block, fewer charge none.
impl Kind for PulseReport {
    ghost use Rattle.values.specs.Pulses.{same_pulses, pulse_charge};

    ghost same = { same_pulses };

    ghost charge = { pulse_charge };

    ghost reflexive = { Prim.search rules };

    ghost symmetric = { Prim.search rules };

    ghost transitive = { Prim.search rules };

    ghost charges_alike = { Prim.search rules };

    ghost small = { Prim.search rules };

    fn is_same(&self, other: &PulseReport) -> bool {
        self == other
    }

    fn charged_block(&self) -> Option<u16> {
        (self.pulses == 8).then_some(self.block())
    }
}
