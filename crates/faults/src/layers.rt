// What every fault tells: the layer that returns it, and its number.
ghost use Rattle.std.specs.Prelude.{◌≡◌, ℕ, List, Some};
ghost use Rattle.faults.specs.Faults.{layer_word};
ghost use Rattle.faults.specs.declared.layers.Layer.{Layer};

use std::fmt;

// The part of the program that a fault belongs to.
#[derive(Clone, Copy, Debug, PartialEq, Eq)]
pub enum Layer {
    Text,
    Value,
    Group,
    List,
    Bench,
    Carriage,
}

impl Layer {
    // The word that a report prints for the layer.
    pub fn word(&self) -> &'static str
        ensures { result.now ≡ layer_word self.now }
    {
        match self {
            Self::Text => "text",
            Self::Value => "value",
            Self::Group => "group",
            Self::List => "list",
            Self::Bench => "bench",
            Self::Carriage => "carriage",
        }
    }
}

impl fmt::Display for Layer {
    ghost output = { λ l. Some (layer_word l) };

    fn fmt<W: fmt::Write>(&self, f: &mut fmt::Formatter<W>) -> fmt::Result {
        f.write_str(self.word())
    }
}

// What every fault tells: its number, its layer, and its cause in words. A fault that wraps another keeps all three.
pub trait Fault {
    ghost numbered: { Self → ℕ };

    ghost layered: { Self → Layer };

    ghost worded: { Self → List ℕ };

    fn number(&self) -> u16
        ensures { result ≡ numbered self.now };

    fn layer(&self) -> Layer
        ensures { result ≡ layered self.now };

    fn words(&self) -> &'static str
        ensures { result.now ≡ worded self.now };
}
