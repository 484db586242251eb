// The causes of faults of values, lists, groups and carriages: number, layer, and the cause in words.
ghost use Rattle.faults.specs.Faults.{value_layer, value_number, value_words, list_layer, list_number, list_words, group_layer, group_number, group_words, carriage_layer, carriage_number, carriage_words};
ghost use Rattle.std.specs.Prelude.{◌≡◌, Some};

use crate::layers::{Fault, Layer};
use std::error::Error;
use std::fmt;

// A number outside the range of what it stands for.
#[derive(Clone, Copy, Debug, PartialEq, Eq)]
pub enum ValueFault {
    Block,
    Pulses,
    Count,
    Mark,
}

impl Fault for ValueFault {
    ghost numbered = { value_number };

    ghost layered = { value_layer };

    ghost worded = { value_words };

    fn number(&self) -> u16 {
        match self {
            ValueFault::Block | ValueFault::Pulses | ValueFault::Count | ValueFault::Mark => 3,
        }
    }

    fn layer(&self) -> Layer {
        Layer::Value
    }

    fn words(&self) -> &'static str {
        match self {
            ValueFault::Block => "block above 63",
            ValueFault::Pulses => "pulses not 1 to 8",
            ValueFault::Count => "list count not 1 to 4",
            ValueFault::Mark => "mark above 15",
        }
    }
}

impl fmt::Display for ValueFault {
    ghost output = { λ e. Some (value_words e) };

    fn fmt<W: fmt::Write>(&self, f: &mut fmt::Formatter<W>) -> fmt::Result {
        f.write_str(self.words())
    }
}

impl Error for ValueFault {}

// What is wrong with a value list, or with the length that a list or a carriage is made for.
#[derive(Clone, Copy, Debug, PartialEq, Eq)]
pub enum ListFault {
    Length,
    Repeated,
}

impl Fault for ListFault {
    ghost numbered = { list_number };

    ghost layered = { list_layer };

    ghost worded = { list_words };

    fn number(&self) -> u16 {
        match self {
            ListFault::Length => 7,
            ListFault::Repeated => 8,
        }
    }

    fn layer(&self) -> Layer {
        Layer::List
    }

    fn words(&self) -> &'static str {
        match self {
            ListFault::Length => "list length not 1 to 4, or not the carriage's",
            ListFault::Repeated => "two values of the list are the same",
        }
    }
}

impl fmt::Display for ListFault {
    ghost output = { λ e. Some (list_words e) };

    fn fmt<W: fmt::Write>(&self, f: &mut fmt::Formatter<W>) -> fmt::Result {
        f.write_str(self.words())
    }
}

impl Error for ListFault {}

// Why numbers and marks make no group.
#[derive(Clone, Copy, Debug, PartialEq, Eq)]
pub enum GroupFault {
    Size,
    Tolerance,
    Marks,
}

impl Fault for GroupFault {
    ghost numbered = { group_number };

    ghost layered = { group_layer };

    ghost worded = { group_words };

    fn number(&self) -> u16 {
        match self {
            GroupFault::Size => 4,
            GroupFault::Tolerance => 5,
            GroupFault::Marks => 6,
        }
    }

    fn layer(&self) -> Layer {
        Layer::Group
    }

    fn words(&self) -> &'static str {
        match self {
            GroupFault::Size => "n not 1 to 16",
            GroupFault::Tolerance => "n not above 3t",
            GroupFault::Marks => "mark not below n, or more than t marks",
        }
    }
}

impl fmt::Display for GroupFault {
    ghost output = { λ e. Some (group_words e) };

    fn fmt<W: fmt::Write>(&self, f: &mut fmt::Formatter<W>) -> fmt::Result {
        f.write_str(self.words())
    }
}

impl Error for GroupFault {}

// Why a carriage refuses a call.
#[derive(Clone, Copy, Debug, PartialEq, Eq)]
pub enum CarriageFault {
    From,
    NotCorrect,
    Letter,
    Range,
    Seal,
    Offer,
    Turn,
}

impl Fault for CarriageFault {
    ghost numbered = { carriage_number };

    ghost layered = { carriage_layer };

    ghost worded = { carriage_words };

    fn number(&self) -> u16 {
        match self {
            CarriageFault::From => 14,
            CarriageFault::NotCorrect => 15,
            CarriageFault::Letter => 16,
            CarriageFault::Range => 17,
            CarriageFault::Seal => 18,
            CarriageFault::Offer => 19,
            CarriageFault::Turn => 20,
        }
    }

    fn layer(&self) -> Layer {
        Layer::Carriage
    }

    fn words(&self) -> &'static str {
        match self {
            CarriageFault::From => "frame not from a marked controller",
            CarriageFault::NotCorrect => "controller not correct",
            CarriageFault::Letter => "letter not of this carriage",
            CarriageFault::Range => "triple out of range",
            CarriageFault::Seal => "seal never offered",
            CarriageFault::Offer => "offer by a marked controller or in a wrong phase",
            CarriageFault::Turn => "turn after the last phase",
        }
    }
}

impl fmt::Display for CarriageFault {
    ghost output = { λ e. Some (carriage_words e) };

    fn fmt<W: fmt::Write>(&self, f: &mut fmt::Formatter<W>) -> fmt::Result {
        f.write_str(self.words())
    }
}

impl Error for CarriageFault {}
