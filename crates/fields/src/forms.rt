// Forms of lines: what a line of each form is read as.
ghost use Rattle.std.specs.Prelude.{◌≡◌, ℕ, List, Option, Result};
ghost use Rattle.text_faults.specs.Causes.{as_read};
ghost use Rattle.faults.specs.declared.causes.ValueFault.{ValueFault};

use text_faults::LineFault;

// A form of lines that stand for values of `T`. Where the form is right, a number may still be out of range.
pub trait Form<T> {
    ghost meant: { Self → List ℕ → Option (Result T ValueFault) };

    fn read(&self, line: &[u8]) -> Result<T, LineFault>
        ensures { as_read result ≡ meant self.now line.now };
}
