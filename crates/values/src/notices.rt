// Notices: a letter, F (failed) or P (passed), a block and a tick.
ghost use Rattle.std.proofs.Common.{rules};
ghost use Rattle.std.specs.Prelude.{◌≡◌, ◌<◌, true, IfOk};
ghost use Rattle.std.specs.Result.{result_err};
ghost use Rattle.values.specs.Letters.{letter_of, is_letter, Decodes};
ghost use Rattle.values.specs.Ranges.{block_fault};

use crate::blocks::Block;
use crate::kinds::Kind;
use faults::ValueFault;

// How the erase of a block ended.
#[derive(Clone, Copy, Debug, PartialEq, Eq)]
pub enum Outcome {
    Failed,
    Passed,
}

impl From<Outcome> for u8 {
    ghost from_gives = { λ outcome letter. letter ≡ letter_of outcome };

    fn from(outcome: Outcome) -> u8 {
        match outcome {
            Outcome::Failed => b'F',
            Outcome::Passed => b'P',
        }
    }
}

// A letter that no notice has.
#[derive(Clone, Copy, Debug, PartialEq, Eq)]
pub struct UnknownLetter;

impl TryFrom<char> for Outcome {
    type Error = UnknownLetter;

    ghost try_from_gives = { Decodes };

    fn try_from(letter: char) -> Result<Outcome, UnknownLetter> {
        match letter {
            'F' => Ok(Outcome::Failed),
            'P' => Ok(Outcome::Passed),
            _ => Err(UnknownLetter),
        }
    }
}

// The letter is kept as the byte that a campaign text has for it, and read as a char, as the letters of frames are. The block
// is kept as its number: a struct that holds a `Block` is not copied when it is passed on and used again.
#[derive(Clone, Copy, Debug, PartialEq, Eq)]
pub struct Notice {
    letter: u8,
    block: u8,
    tick: u16,
    ghost lettered: { is_letter letter ≡ true },
    ghost blocks: { block < 64 },
}

impl Notice {
    pub fn new(outcome: Outcome, block: u16, tick: u16) -> Result<Notice, ValueFault>
        ensures refusal { result_err result ≡ block_fault block }
        ensures value { IfOk result (λ v. (v.letter ≡ letter_of outcome) × (v.block ≡ block) × (v.tick ≡ tick)) }
    {
        Ok(Notice {
            letter: outcome.into(),
            block: Block::new(block)?.number() as u8,
            tick,
        })
    }

    pub fn letter(&self) -> char
        ensures { result ≡ self.now.letter }
    {
        self.letter as char
    }

    pub fn block(&self) -> u16
        ensures { result ≡ self.now.block }
    {
        self.block as u16
    }

    pub fn tick(&self) -> u16
        ensures { result ≡ self.now.tick }
    {
        self.tick
    }
}

// The same when letter and block agree, whatever the tick; F charges its block, P charges none.
impl Kind for Notice {
    ghost use Rattle.values.specs.Notices.{same_notice, notice_charge};

    ghost same = { same_notice };

    ghost charge = { notice_charge };

    ghost reflexive = { Prim.search rules };

    ghost symmetric = { Prim.search rules };

    ghost transitive = { Prim.search rules };

    ghost charges_alike = { Prim.search rules };

    ghost small = { Prim.search rules };

    fn is_same(&self, other: &Notice) -> bool {
        self.letter == other.letter && self.block == other.block
    }

    fn charged_block(&self) -> Option<u16> {
        match self.letter() {
            'F' => Some(self.block()),
            'P' => None,
            _ => unreachable(),
        }
    }
}
