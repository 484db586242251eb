// How a report is printed, line after line.
ghost use Rattle.lines.specs.Printed.{report_text};
ghost use Rattle.std.specs.Prelude.{◌≡◌, Some, IfOk, string_bytes};

use crate::happenings::Report;
use headers::Listed;
use std::alloc::{AllocError, Global};
use std::fmt;

impl fmt::Display for Report {
    ghost output = { λ p. Some (report_text p) };

    fn fmt<W: fmt::Write>(&self, f: &mut fmt::Formatter<W>) -> fmt::Result {
        for event in &self.events {
            writeln!(f, "{event}")?;
        }
        if let Some(blocks) = &self.out {
            writeln!(f, "out={}", Listed(blocks))?;
        }
        writeln!(f, "end={},{}", self.taken, self.refused)
    }
}

// The text of a report.
pub fn printed(report: &Report, heap: Global) -> Result<String, AllocError>
    ensures { IfOk result (λ t. string_bytes t ≡ report_text report.now) }
{
    report.to_string(heap)
}
