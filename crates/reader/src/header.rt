// Reading the header: each line leaves with its own fault and line.
ghost use Rattle.std.specs.Prelude.{◌≡◌, ℕ, Ok, Err, MatchResult};
ghost use Rattle.groups.specs.Groups.{marked};
ghost use Rattle.sets.specs.Sets.{has};
ghost use Rattle.headers.specs.Headers.{in_table, head_of};
ghost use Rattle.reader.specs.declared.Reader.{Reader as Lines};
ghost use Rattle.reader.specs.Heads.{grouped, group_taken, head_taken};

use crate::Reader;
use groups::{Group, Marks};
use headers::{BenchLine, CarriageLine, CountLine, Header, KindLine, MarksLine, NumberLine};
use text_faults::TextFault;

// The marks that a table has. The form of the marks line gives a table, by which its meaning is stated.
fn marks_of(table: [bool; 16]) -> Marks
    ensures { (k : ℕ) → has result.set k ≡ in_table table k }
{
    let mut marks = Marks::none();
    // a loop, since the marks grow by each
    for (k, marked) in table.iter().enumerate() {
        if *marked && let Ok(more) = marks.with(k as u16) {
            marks = more;
        }
    }
    marks
}

impl Reader<'_> {
    // Reads the marks line; numbers and marks that make no group refuse it.
    fn group(&mut self, n: u16, t: u16) -> Result<Group, TextFault>
        ensures { MatchResult result (λ g. (group_taken n t self.old ≡ (Ok (marked g), self.new)) × (g.n ≡ n) × (g.t ≡ t)) (λ e. group_taken n t self.old ≡ (Err e, self.new)) }
    {
        let line = self.line;

        // The closure's contract is written out: none is inferred where an argument is an array.
        self.take_with(
            &MarksLine,
            |table: [bool; 16]| -> Result<Group, TextFault>
                ensures { MatchResult result (λ g. ((r after : Lines) → grouped n t r table after ≡ (Ok (marked g), after)) × (g.n ≡ n) × (g.t ≡ t)) (λ e. (r after : Lines) → r.line ≡ line → grouped n t r table after ≡ (Err e, r)) }
            { Group::new(n, t, marks_of(table)).map_err(|e| TextFault::at(line, e)) },
        )
    }

    // Reads the seven header lines.
    pub fn header(&mut self) -> Result<Header, TextFault>
        ensures { MatchResult result (λ h. head_taken self.old ≡ (Ok (head_of h), self.new)) (λ e. head_taken self.old ≡ (Err e, self.new)) }
    {
        self.take(&BenchLine)?;
        let n = self.take(&NumberLine { key: b"n" })?;
        let t = self.take(&NumberLine { key: b"t" })?;
        let group = self.group(n, t)?;
        let carriage = self.take(&CarriageLine)?;
        let kind = self.take(&KindLine)?;
        let count = self.take(&CountLine)?;
        Ok(Header {
            group,
            carriage,
            kind,
            count,
        })
    }
}
