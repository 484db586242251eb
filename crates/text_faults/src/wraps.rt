// Faults of a line and of the layers below as causes of a text's.
ghost use Rattle.std.specs.Prelude.{◌≡◌};
ghost use Rattle.text_faults.specs.Causes.{cause_of_line};
ghost use Rattle.text_faults.specs.declared.causes.TextCause.TheVariants.{Value, Group, List};

use crate::causes::TextCause;
use crate::lines::LineFault;
use faults::{GroupFault, ListFault, ValueFault};

impl From<LineFault> for TextCause {
    ghost from_gives = { λ e r. r ≡ cause_of_line e };

    fn from(e: LineFault) -> TextCause {
        match e {
            LineFault::Form => TextCause::Form,
            LineFault::Value(e) => TextCause::Value(e),
        }
    }
}

impl From<ValueFault> for TextCause {
    ghost from_gives = { λ e r. r ≡ Value e };

    fn from(e: ValueFault) -> TextCause {
        TextCause::Value(e)
    }
}

impl From<GroupFault> for TextCause {
    ghost from_gives = { λ e r. r ≡ Group e };

    fn from(e: GroupFault) -> TextCause {
        TextCause::Group(e)
    }
}

impl From<ListFault> for TextCause {
    ghost from_gives = { λ e r. r ≡ List e };

    fn from(e: ListFault) -> TextCause {
        TextCause::List(e)
    }
}
