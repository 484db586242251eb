// A whole campaign text.
ghost use Rattle.agreement.specs.Refusals.{open_fault};
ghost use Rattle.agreement.specs.Views.{rules_of};
ghost use Rattle.report.specs.Reports.{Stopped, Ran, Listed, Reported};
ghost use Rattle.report.specs.Texts.{TextFault, Fault};
ghost use Rattle.std.specs.Prelude.{◌≡◌, IfOk, None};

use crate::courses::{refusal, run_acts};
use crate::pool::out_blocks;
use bench::Bench;
use carriage::Carriage;
use echo::Echo;
use lines::Report;
use seal::Seal;
use std::alloc::{AllocError, Global};
use text::{CarriageKind, Header, ReadError, Reader, TextFault, ValueKind, Written};
use values::{Notice, PulseReport};

// The report of a text whose header is refused.
fn stopped(fault: TextFault, heap: Global) -> Result<Report, AllocError>
    ensures { IfOk result (Stopped fault) }
{
    let mut events = Vec::new(heap);
    events.push(refusal(fault.line, &fault))?;
    Ok(Report {
        events,
        out: None,
        taken: 0,
        refused: 0,
    })
}

// The report of a text whose value list cannot be read.
fn unread(error: ReadError, heap: Global) -> Result<Report, AllocError>
    ensures { IfOk result (λ p. (e : TextFault) × (error ≡ Fault e) × Stopped e p) }
{
    match error {
        ReadError::Fault(fault) => stopped(fault, heap),
        ReadError::Memory(e) => Err(e),
    }
}

// Opens a bench over the carriage and runs the acts on it.
fn run_bench<C: Carriage + Drop, K: Written + Drop>(
    carriage: C,
    list: &[K],
    reader: Reader,
    heap: Global,
) -> Result<Report, AllocError>
    requires { open_fault (C.Carriage.model carriage) (rules_of K.Kind.same K.Kind.charge list.now) ≡ None }
    ensures { IfOk result (λ p. Ran C.Carriage (rules_of K.Kind.same K.Kind.charge list.now) K.Written.reads reader.entry carriage p) }
{
    let mut bench = Bench::open(carriage, list).unwrap();
    let mut report = run_acts(&mut bench, list, reader, heap)?;
    report.out = Some(out_blocks(&bench, heap)?);
    Ok(report)
}

// Reads the value list and runs the acts over the carriage that the header names.
fn run_kind<K: Written + Drop>(
    header: &Header,
    mut reader: Reader,
    heap: Global,
) -> Result<Report, AllocError>
    ensures { IfOk result (Listed K.Written.reads K.Kind.same K.Kind.charge header.now reader.entry) }
{
    let list = match reader.values::<K>(header.count, heap) {
        Ok(list) => list,
        Err(error) => return unread(error, heap),
    };
    let len = list.len() as u16;
    match header.carriage {
        CarriageKind::Echo => {
            let carriage = Echo::new(header.group, len).unwrap();
            run_bench(carriage, &list, reader, heap)
        }
        CarriageKind::Seal => {
            let carriage = Seal::new(header.group, len).unwrap();
            run_bench(carriage, &list, reader, heap)
        }
    }
}

// Runs a campaign text: the report of its header's refusal, or of its acts on a bench.
pub fn report(text: &[u8], heap: Global) -> Result<Report, AllocError>
    ensures { IfOk result (Reported text.entry) }
{
    let mut reader = Reader::new(text);
    let header = match reader.header() {
        Ok(header) => header,
        Err(fault) => return stopped(fault, heap),
    };
    match header.kind {
        ValueKind::Notices => run_kind::<Notice>(&header, reader, heap),
        ValueKind::Pulses => run_kind::<PulseReport>(&header, reader, heap),
    }
}
