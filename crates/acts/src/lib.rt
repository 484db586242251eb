// The acts of a campaign.
#![tactic(auto)]

ghost use Rattle.acts.specs.Acts.{IsFrameOf};

use carriage::{Frame, Triple};

mod letters;
mod lines;

pub use letters::{Letter, UnknownLetter};
pub use lines::{ActLine, act_line};

// A frame that the laboratory writes for a marked controller.
#[derive(Clone, Copy, Debug, PartialEq, Eq)]
pub struct Injection {
    pub from: u16,
    pub to: u16,
    pub letter: Letter,
    pub triple: Triple,
}

// The frame that is injected.
impl From<&Injection> for Frame {
    ghost from_gives = { λ x frame. IsFrameOf x.now frame };

    fn from(x: &Injection) -> Frame {
        Frame::new(x.from, x.to, x.letter.into(), x.triple)
    }
}

// What a campaign asks of the bench, a line each. A value is one of the campaign's kind.
#[derive(Clone, Copy, Debug, PartialEq, Eq)]
pub enum Act<K> {
    Begin { sender: u16, value: Option<K> },
    Inject(Injection),
    Turn(u16),
    Close(u16),
}
