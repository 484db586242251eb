// Faults of a campaign text: a line and why it is refused.
ghost use Rattle.std.specs.Prelude.{◌≡◌, Some};
ghost use Rattle.text_faults.specs.Faults.{text_number, text_layer, text_words, text_shown};

use crate::causes::TextCause;
use faults::{Fault, Layer};
use std::error::Error;
use std::fmt;

// Lines count from 1.
#[derive(Clone, Copy, Debug, PartialEq, Eq)]
pub struct TextFault {
    pub line: usize,
    pub cause: TextCause,
}

impl TextFault {
    // A fault of a lower layer at a line of the text.
    pub fn at<C: Into<TextCause>>(line: usize, cause: C) -> TextFault
        ensures line { result.line ≡ line }
        ensures cause { C.converts cause result.cause }
    {
        TextFault {
            line,
            cause: cause.into(),
        }
    }
}

impl Fault for TextFault {
    ghost numbered = { text_number };

    ghost layered = { text_layer };

    ghost worded = { text_words };

    fn number(&self) -> u16 {
        self.cause.number()
    }

    fn layer(&self) -> Layer {
        self.cause.layer()
    }

    fn words(&self) -> &'static str {
        self.cause.words()
    }
}

// The line and then the cause.
impl fmt::Display for TextFault {
    ghost output = { λ e. Some (text_shown e) };

    fn fmt<W: fmt::Write>(&self, f: &mut fmt::Formatter<W>) -> fmt::Result {
        let line = self.line;
        let words = self.words();
        write!(f, "line {line}: {words}")
    }
}

impl Error for TextFault {}
