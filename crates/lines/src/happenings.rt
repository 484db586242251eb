// What a report tells.
ghost use Rattle.lines.specs.Printed.{happening_text};
ghost use Rattle.std.specs.Prelude.{Some};

use agreement::Verdict;
use faults::Layer;
use std::fmt;

// What a report tells of one line of the campaign.
#[derive(Clone, Copy)]
pub enum Happening {
    // The line is refused: its number, and layer and number of the fault.
    Refused {
        line: usize,
        layer: Layer,
        number: u16,
    },
    // The line closes a shot.
    Shot {
        shot: u16,
        sender: u16,
        verdict: Verdict,
    },
}

// A whole campaign: what is told line by line, how many acts were taken and how many lines refused.
#[derive(Drop)]
pub struct Report {
    pub events: Vec<Happening>,
    // The blocks out of the pool at the end, rising; none where the header was refused.
    pub out: Option<Vec<u16>>,
    pub taken: usize,
    pub refused: usize,
}

impl fmt::Display for Happening {
    ghost output = { λ h. Some (happening_text h) };

    fn fmt<W: fmt::Write>(&self, f: &mut fmt::Formatter<W>) -> fmt::Result {
        match self {
            Happening::Refused {
                line,
                layer,
                number,
            } => write!(f, "refused={line},{layer},{number}"),
            Happening::Shot {
                shot,
                sender,
                verdict: Verdict::Place(place),
            } => write!(f, "shot={shot},{sender},{place}"),
            Happening::Shot {
                shot,
                sender,
                verdict: Verdict::SenderFaulty,
            } => write!(f, "shot={shot},{sender},sf"),
        }
    }
}
