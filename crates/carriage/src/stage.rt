// What every carriage keeps beside its table of cells, and the checks that it makes by it.
ghost use Rattle.carriage.specs.Model.{end_phase, frame_cause, offer_cause, range_cause, read_answer, turn_cause};
ghost use Rattle.lists.specs.Lists.{length_fault};
ghost use Rattle.std.specs.Prelude.{◌≡◌, ◌+◌, ◌≤◌, IfOk, None};
ghost use Rattle.std.specs.Result.{result_err};

use crate::checks::{check_ends, check_offer, check_range, check_read};
use crate::frames::{Frame, Triple};
use faults::{CarriageFault, ListFault};
use groups::Group;
use lists::check_length;

// The group, the length of its value lists and the current phase.
#[derive(Clone, Copy, Debug)]
pub struct Stage {
    group: Group,
    len: u16,
    phase: u16,
    ghost some: { 1 ≤ len },
    ghost few: { len ≤ 4 },
    ghost begun: { 1 ≤ phase },
    ghost ends: { phase ≤ end_phase group },
}

impl Stage {
    // Phase 1 of a group whose lists have `len` values.
    pub fn new(group: Group, len: u16) -> Result<Stage, ListFault>
        ensures refusal { result_err result ≡ length_fault len }
        ensures value { IfOk result (λ s. (s.group ≡ group) × (s.len ≡ len) × (s.phase ≡ 1)) }
    {
        check_length(len as usize)?;
        Ok(Stage {
            group,
            len,
            phase: 1,
        })
    }

    pub fn group(&self) -> Group
        ensures { result ≡ self.now.group }
    {
        self.group
    }

    pub fn list_len(&self) -> u16
        ensures { result ≡ self.now.len }
    {
        self.len
    }

    pub fn phase(&self) -> u16
        ensures { result ≡ self.now.phase }
    {
        self.phase
    }

    // Phase 1 again.
    pub fn restart(&mut self)
        ensures { (self.new.group ≡ self.old.group) × (self.new.len ≡ self.old.len) × (self.new.phase ≡ 1) }
    {
        self.phase = 1;
    }

    // The stage of the next phase; refused after the last one.
    pub fn next(&self) -> Result<Stage, CarriageFault>
        ensures refusal { result_err result ≡ turn_cause self.now.group self.now.phase }
        ensures value { IfOk result (λ s. (s.group ≡ self.now.group) × (s.len ≡ self.now.len) × (s.phase ≡ self.now.phase + 1)) }
    {
        if self.phase == 2 * self.group.t() + 3 {
            return Err(CarriageFault::Turn);
        }
        Ok(Stage {
            group: self.group,
            len: self.len,
            phase: self.phase + 1,
        })
    }

    pub fn check_range(&self, x: Triple) -> Result<(), CarriageFault>
        ensures { result_err result ≡ range_cause self.now.group self.now.len x }
    {
        check_range(&self.group, self.len, x)
    }

    pub fn check_offer(&self, x: Triple) -> Result<(), CarriageFault>
        ensures { result_err result ≡ offer_cause self.now.group self.now.len self.now.phase x }
    {
        check_offer(&self.group, self.len, self.phase, x)
    }

    pub fn check_ends(&self, f: Frame) -> Result<(), CarriageFault>
        ensures { result_err result ≡ frame_cause self.now.group f None }
    {
        check_ends(&self.group, f)
    }

    pub fn check_read(&self, q: u16, x: Triple, known: bool) -> Result<bool, CarriageFault>
        ensures { result ≡ read_answer self.now.group self.now.len q x known }
    {
        check_read(&self.group, self.len, q, x, known)
    }
}
