// The group that the worked cases begin with, and the table of them.
ghost use Rattle.worked.specs.Cases.{WorkedCases};
ghost use Rattle.worked.specs.Four.{FourControllers};

use groups::{Group, Marks};

// Four controllers, of which one may be marked and 3 is. Nothing here is refused.
pub fn four_controllers() -> Group
    ensures four { FourControllers result }
    ensures table { WorkedCases }
{
    let marks = Marks::none().with(3).unwrap();
    Group::new(4, 1, marks).unwrap()
}
