// Why a line of a campaign text is refused. Faults of values, groups and lists keep their number, layer and words.
ghost use Rattle.text_faults.specs.Causes.{cause_number, cause_layer, cause_words};

use faults::{Fault, GroupFault, Layer, ListFault, ValueFault};

#[derive(Clone, Copy, Debug, PartialEq, Eq)]
pub enum TextCause {
    // The line is missing, has over 64 bytes before its line feed, or has none.
    Missing,
    // The key is wrong, or the value has not its form.
    Form,
    Value(ValueFault),
    Group(GroupFault),
    List(ListFault),
}

impl Fault for TextCause {
    ghost numbered = { cause_number };

    ghost layered = { cause_layer };

    ghost worded = { cause_words };

    fn number(&self) -> u16 {
        match self {
            TextCause::Missing => 1,
            TextCause::Form => 2,
            TextCause::Value(e) => e.number(),
            TextCause::Group(e) => e.number(),
            TextCause::List(e) => e.number(),
        }
    }

    fn layer(&self) -> Layer {
        match self {
            TextCause::Missing | TextCause::Form => Layer::Text,
            TextCause::Value(e) => e.layer(),
            TextCause::Group(e) => e.layer(),
            TextCause::List(e) => e.layer(),
        }
    }

    fn words(&self) -> &'static str {
        match self {
            TextCause::Missing => "line missing, over 64 bytes, or without a line feed",
            TextCause::Form => "wrong key, or a value not in its form",
            TextCause::Value(e) => e.words(),
            TextCause::Group(e) => e.words(),
            TextCause::List(e) => e.words(),
        }
    }
}
