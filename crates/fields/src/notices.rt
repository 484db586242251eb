// Notices in a text: letter, block and tick.
ghost use Rattle.fields.specs.Values.{notice_shows, notice_reads, NoticeFits};
ghost use Rattle.fields.specs.declared.kinds.ValueKind.TheVariants.{Notices};
ghost use Rattle.fields.specs.Back.{notice_back, notice_forth, notice_unbroken, notice_brief};
ghost use Rattle.std.proofs.Common.{rules};

use crate::kinds::{ValueKind, Written};
use cuts::{letter_field, number, number_field};
use std::alloc::{AllocError, Global};
use text_faults::LineFault;
use values::{Notice, Outcome};

impl Written for Notice {
    ghost kind = { Notices };

    ghost shows = { notice_shows };

    ghost reads = { notice_reads };

    ghost fits = { NoticeFits };

    ghost back = { notice_back };

    ghost forth = { notice_forth };

    ghost unbroken = { notice_unbroken };

    ghost brief = { notice_brief };

    ghost undashed = { Prim.search rules };

    fn kind() -> ValueKind {
        ValueKind::Notices
    }

    #[tactic(auto, using(crate::specs::Back::notice_made, crate::specs::Back::notice_ok))]
    fn read(s: &[u8]) -> Result<Notice, LineFault> {
        let (letter, rest) = letter_field(s).ok_or(LineFault::Form)?;
        let outcome = Outcome::try_from(letter).map_err(|_| LineFault::Form)?;
        let (block, rest) = number_field(rest).ok_or(LineFault::Form)?;
        let tick = number(rest).ok_or(LineFault::Form)?;
        Ok(Notice::new(outcome, block, tick)?)
    }

    fn written(&self, heap: Global) -> Result<String, AllocError> {
        let letter = self.letter();
        let block = self.block();
        let tick = self.tick();
        format!(in heap; "{letter},{block},{tick}")
    }
}
