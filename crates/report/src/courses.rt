// Acts line after line.
ghost use Rattle.std.specs.Prelude.{◌≡◌, ◌+◌, ◌-◌, ◌^◌, ◌<◌, ◌++◌, IfOk, OnOk};
ghost use Rattle.agreement.specs.Views.{rules_of};
ghost use Rattle.bench.specs.Views.{view_of};
ghost use Rattle.report.specs.Courses.{told_of, taken_by, refused_by, LineRun, ActsRun};
ghost use Rattle.lines.specs.declared.happenings.Happening.TheVariants.{Refused};

use crate::acting::perform;
use bench::Bench;
use carriage::Carriage;
use faults::Fault;
use lines::{Happening, Report};
use std::alloc::{AllocError, Global};
use text::{Reader, Written};

// What came of a line: an act that was taken, with what is told of it if anything is, or a refusal, which is told.
type Outcome = Result<Option<Happening>, Happening>;

// A line that is refused, as it is told.
pub(crate) fn refusal<F: Fault>(line: usize, fault: &F) -> Happening
    ensures { result ≡ Refused line (F.Fault.layered fault.now) (F.Fault.numbered fault.now) }
{
    Happening::Refused {
        line,
        layer: fault.layer(),
        number: fault.number(),
    }
}

// One line more of the report.
fn note(report: &mut Report, outcome: Outcome) -> Result<(), AllocError>
    requires { (report.old.taken < 2 ^ 64 - 1) × (report.old.refused < 2 ^ 64 - 1) }
    ensures { OnOk result ((report.new.events.items ≡ report.old.events.items ++ told_of outcome) × (report.new.taken ≡ report.old.taken + taken_by outcome) × (report.new.refused ≡ report.old.refused + refused_by outcome)) }
{
    let told = match outcome {
        Ok(told) => {
            report.taken += 1;
            told
        }
        Err(refusal) => {
            report.refused += 1;
            Some(refusal)
        }
    };
    if let Some(happening) = told {
        report.events.push(happening)?;
    }
    Ok(())
}

// Reads a line and does what it says. One that cannot be read is skipped.
fn run_line<C: Carriage, K: Written + Drop>(
    bench: &mut Bench<C>,
    list: &[K],
    reader: &mut Reader,
) -> Outcome
    ensures { LineRun C.Carriage (rules_of K.Kind.same K.Kind.charge list.now) K.Written.reads reader.old (view_of bench.old) result reader.new (view_of bench.new) }
{
    let line = reader.line();
    let act = match reader.act() {
        Ok(act) => act,
        Err(fault) => {
            reader.skip();
            return Err(refusal(fault.line, &fault));
        }
    };
    perform(bench, list, &act).map_err(|fault| refusal(line, &fault))
}

// Runs the acts to the end of the text.
pub(crate) fn run_acts<C: Carriage, K: Written + Drop>(
    bench: &mut Bench<C>,
    list: &[K],
    mut reader: Reader,
    heap: Global,
) -> Result<Report, AllocError>
    ensures { IfOk result (λ p. ActsRun C.Carriage (rules_of K.Kind.same K.Kind.charge list.now) K.Written.reads reader.entry (view_of bench.old) p (view_of bench.new)) }
{
    let mut report = Report {
        events: Vec::new(heap),
        out: None,
        taken: 0,
        refused: 0,
    };
    // a loop, since each line moves the reader and changes the bench
    while !reader.at_end() {
        let outcome = run_line(bench, list, &mut reader);
        note(&mut report, outcome)?;
    }
    Ok(report)
}
