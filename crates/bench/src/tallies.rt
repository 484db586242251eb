// Registers: for every controller a tally for each block, which stops at 3.
ghost use Rattle.std.specs.Prelude.{◌≡◌, ℕ, ◌<◌, ◌&&◌, if◌then◌else◌, ◌==◌, nat_eq};
ghost use Rattle.agreement.specs.Steps.{raised};
ghost use Rattle.bench.specs.Tables.{tally_in, tally_of};

use values::Block;

// One controller's tallies, by block.
#[derive(Clone, Copy)]
pub struct Register {
    counts: [u8; 64],
}

impl Register {
    fn empty() -> Register
        ensures { (b : ℕ) → tally_in result b ≡ 0 }
    {
        Register { counts: [0; 64] }
    }

    // One charge more of a block, unless its tally is 3.
    fn charge(&mut self, block: Block)
        ensures { (b : ℕ) → tally_in self.new b ≡ (if nat_eq block b then raised (tally_in self.old b) else tally_in self.old b) }
    {
        let count = &mut self.counts[block.number() as usize];
        if *count < 3 {
            *count += 1;
        }
    }

    fn tally(&self, block: Block) -> u16
        ensures { result ≡ tally_in self.now block }
    {
        self.counts[block.number() as usize] as u16
    }
}

// The registers of all controllers.
#[derive(Clone, Copy)]
pub struct Registers {
    rows: [Register; 16],
}

impl Registers {
    pub(crate) fn empty() -> Registers
        ensures { (q b : ℕ) → tally_of result q b ≡ 0 }
    {
        Registers {
            rows: [Register::empty(); 16],
        }
    }

    // Charges a block in the register of controller q.
    pub(crate) fn charge(&mut self, q: u16, block: Block)
        requires { q < 16 }
        ensures { (p b : ℕ) → tally_of self.new p b ≡ (if nat_eq p q && block == b then raised (tally_of self.old p b) else tally_of self.old p b) }
    {
        self.rows[q as usize].charge(block);
    }

    pub(crate) fn tally(&self, q: u16, block: Block) -> u16
        requires { q < 16 }
        ensures { result ≡ tally_of self.now q block }
    {
        self.rows[q as usize].tally(block)
    }
}
