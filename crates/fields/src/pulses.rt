// Pulse reports in a text: block and pulses.
ghost use Rattle.fields.specs.Values.{pulse_shows, pulse_reads, PulseFits};
ghost use Rattle.fields.specs.declared.kinds.ValueKind.TheVariants.{Pulses};
ghost use Rattle.fields.specs.Back.{pulse_back, pulse_forth, pulse_unbroken, pulse_brief};
ghost use Rattle.std.proofs.Common.{rules};

use crate::kinds::{ValueKind, Written};
use cuts::{number, number_field};
use std::alloc::{AllocError, Global};
use text_faults::LineFault;
use values::PulseReport;

impl Written for PulseReport {
    ghost kind = { Pulses };

    ghost shows = { pulse_shows };

    ghost reads = { pulse_reads };

    ghost fits = { PulseFits };

    ghost back = { pulse_back };

    ghost forth = { λ v h. pulse_forth v };

    ghost unbroken = { λ v h. pulse_unbroken v };

    ghost brief = { λ v h. pulse_brief v };

    ghost undashed = { Prim.search rules };

    fn kind() -> ValueKind {
        ValueKind::Pulses
    }

    #[tactic(auto, using(crate::specs::Back::pulse_made, crate::specs::Back::pulse_ok))]
    fn read(s: &[u8]) -> Result<PulseReport, LineFault> {
        let (block, rest) = number_field(s).ok_or(LineFault::Form)?;
        let pulses = number(rest).ok_or(LineFault::Form)?;
        Ok(PulseReport::new(block, pulses)?)
    }

    fn written(&self, heap: Global) -> Result<String, AllocError> {
        let block = self.block();
        let pulses = self.pulses();
        format!(in heap; "{block},{pulses}")
    }
}
