// Why a line is not what its reader asks for.
ghost use Rattle.std.specs.Prelude.{◌≡◌};
ghost use Rattle.text_faults.specs.declared.lines.LineFault.TheVariants.{Value};

use faults::ValueFault;

#[derive(Clone, Copy, Debug, PartialEq, Eq)]
pub enum LineFault {
    // The key is wrong, or the value has not its form.
    Form,
    // The form is right, and a number is out of range.
    Value(ValueFault),
}

impl From<ValueFault> for LineFault {
    ghost from_gives = { λ e r. r ≡ Value e };

    fn from(e: ValueFault) -> LineFault {
        LineFault::Value(e)
    }
}
