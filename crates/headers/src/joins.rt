// How marks, and other numbers, are written in a line.
ghost use Rattle.std.specs.Prelude.{Some};
ghost use Rattle.headers.specs.Lines.{marks_shown};

use std::fmt;

// Numbers that are shown with commas between them, or as a dash where there is none.
#[derive(Clone, Copy)]
pub struct Listed<'a>(pub &'a [u16]);

impl fmt::Display for Listed<'_> {
    ghost output = { λ l. Some (marks_shown l.0.now) };

    fn fmt<W: fmt::Write>(&self, f: &mut fmt::Formatter<W>) -> fmt::Result {
        let Some((first, rest)) = self.0.split_first() else {
            return f.write_str("-");
        };
        write!(f, "{first}")?;
        for number in rest {
            write!(f, ",{number}")?;
        }
        Ok(())
    }
}
