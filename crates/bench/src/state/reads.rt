// The calls that read a bench.
ghost use Rattle.agreement.specs.Extraction.{Tells};
ghost use Rattle.agreement.specs.Refusals.{verdict_answer, tally_answer};
ghost use Rattle.bench.specs.Views.{view_of, sender_of};
ghost use Rattle.std.specs.Prelude.{◌≡◌, IfOk};

use super::Bench;
use crate::shots::Shot;
use agreement::{Act, BenchFault, Verdict};
use carriage::Carriage;
use groups::Group;
use values::Block;

impl<C: Carriage> Bench<C> {
    // What the correct controller q holds the running shot to have told, once all its phases are had.
    pub fn verdict(&self, q: u16) -> Result<Verdict, BenchFault>
        ensures is { result ≡ verdict_answer C.Carriage (view_of self.now) q }
        ensures tells { IfOk result (λ d. Tells (C.Carriage.model (view_of self.now).carriage).len ((view_of self.now).extracted q) d) }
    {
        self.check_moment(Act::Verdict)?;
        self.check_reader(q)?;
        Ok(self.extracted.verdict(q, self.carriage.list_len()))
    }

    // The tally of a block in the register of the correct controller q.
    pub fn tally(&self, q: u16, block: u16) -> Result<u16, BenchFault>
        ensures { result ≡ tally_answer C.Carriage (view_of self.now) q block }
    {
        let block = Block::new(block)?;
        self.check_reader(q)?;
        Ok(self.registers.tally(q, block))
    }

    // The sender of the running shot.
    pub fn sender(&self) -> Option<u16>
        ensures { result ≡ sender_of (view_of self.now) }
    {
        match self.progress.shot {
            Shot::Running(sender) => Some(sender),
            Shot::Closed(_) => None,
        }
    }

    // How many shots are closed.
    pub fn closed(&self) -> u16
        ensures { result ≡ (view_of self.now).closed }
    {
        self.progress.closed
    }

    pub fn phase(&self) -> u16
        ensures { result ≡ (C.Carriage.model (view_of self.now).carriage).phase }
    {
        self.carriage.phase()
    }

    pub fn group(&self) -> Group
        ensures { result ≡ (C.Carriage.model (view_of self.now).carriage).group }
    {
        self.carriage.group()
    }

    // The carriage, to be read: who holds what, and whatever else it tells.
    pub fn carriage(&self) -> &C
        ensures { result.now ≡ (view_of self.now).carriage }
    {
        &self.carriage
    }

    // Ends the bench and hands its carriage back.
    pub fn into_carriage(self) -> C
        ensures { result ≡ (view_of self).carriage }
    {
        self.carriage
    }
}
