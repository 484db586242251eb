// The faults of a bench. Those of a value, a list or a carriage are kept as they are, with number and layer.
ghost use Rattle.agreement.specs.Faults.{bench_layer, bench_number, bench_words};
ghost use Rattle.agreement.specs.declared.bench_faults.BenchFault.TheVariants.{Value, List, Carriage};
ghost use Rattle.std.specs.Prelude.{◌≡◌, Some};

use faults::{CarriageFault, Fault, Layer, ListFault, ValueFault};
use std::error::Error;
use std::fmt;

// Why a bench refuses a call.
#[derive(Clone, Copy, Debug, PartialEq, Eq)]
pub enum BenchFault {
    Moment,
    Sender,
    MarkedSender,
    NotListed,
    Shots,
    Value(ValueFault),
    List(ListFault),
    Carriage(CarriageFault),
}

impl Fault for BenchFault {
    ghost numbered = { bench_number };

    ghost layered = { bench_layer };

    ghost worded = { bench_words };

    fn number(&self) -> u16 {
        match self {
            BenchFault::Moment => 9,
            BenchFault::Sender => 10,
            BenchFault::MarkedSender => 11,
            BenchFault::NotListed => 12,
            BenchFault::Shots => 13,
            BenchFault::Value(e) => e.number(),
            BenchFault::List(e) => e.number(),
            BenchFault::Carriage(e) => e.number(),
        }
    }

    fn layer(&self) -> Layer {
        match self {
            BenchFault::Value(e) => e.layer(),
            BenchFault::List(e) => e.layer(),
            BenchFault::Carriage(e) => e.layer(),
            _ => Layer::Bench,
        }
    }

    fn words(&self) -> &'static str {
        match self {
            BenchFault::Moment => "act, phase or shot not of this moment",
            BenchFault::Sender => "sender not a controller of the group",
            BenchFault::MarkedSender => "marked sender given a value",
            BenchFault::NotListed => "value not on the list",
            BenchFault::Shots => "999 shots closed",
            BenchFault::Value(e) => e.words(),
            BenchFault::List(e) => e.words(),
            BenchFault::Carriage(e) => e.words(),
        }
    }
}

impl fmt::Display for BenchFault {
    ghost output = { λ e. Some (bench_words e) };

    fn fmt<W: fmt::Write>(&self, f: &mut fmt::Formatter<W>) -> fmt::Result {
        f.write_str(self.words())
    }
}

impl Error for BenchFault {}

impl From<ValueFault> for BenchFault {
    ghost from_gives = { λ e r. r ≡ Value e };

    fn from(e: ValueFault) -> BenchFault {
        BenchFault::Value(e)
    }
}

impl From<ListFault> for BenchFault {
    ghost from_gives = { λ e r. r ≡ List e };

    fn from(e: ListFault) -> BenchFault {
        BenchFault::List(e)
    }
}

impl From<CarriageFault> for BenchFault {
    ghost from_gives = { λ e r. r ≡ Carriage e };

    fn from(e: CarriageFault) -> BenchFault {
        BenchFault::Carriage(e)
    }
}
