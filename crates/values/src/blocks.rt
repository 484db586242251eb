// Blocks of a flash: 0 to 63.
ghost use Rattle.std.specs.Prelude.{◌≡◌, IfOk};
ghost use Rattle.std.specs.Result.{result_err};
ghost use Rattle.values.specs.Ranges.{block_fault};

use faults::ValueFault;
use std::marker::Model;

// A block of the flash, which its number names.
#[derive(Clone, Copy, Debug, PartialEq, Eq)]
pub struct Block {
    number: u8,
}

impl Model for Block {
    ghost use Rattle.std.specs.Prelude.{ℕ, ◌<◌};

    ghost Value = { ℕ };

    ghost view = { λ b. b.number };

    ghost invariant = { λ b. b.number < 64 };

    ghost inverse = { λ n. record { number = n } };
}

impl Block {
    pub fn new(number: u16) -> Result<Block, ValueFault>
        ensures refusal { result_err result ≡ block_fault number }
        ensures value { IfOk result (λ b. b ≡ number) }
    {
        if number > 63 {
            return Err(ValueFault::Block);
        }
        Ok(Block {
            number: number as u8,
        })
    }

    pub fn number(self) -> u16
        ensures { result ≡ self }
    {
        self.number as u16
    }
}
