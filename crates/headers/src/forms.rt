// The forms of the header lines.
ghost use Rattle.std.specs.Prelude.{◌≡◌};
ghost use Rattle.text_faults.specs.Causes.{as_read};
ghost use Rattle.headers.specs.Headers.{bench_reads, numbered, number_reads, count_reads, carriage_reads, kind_reads, mark_put, empty_marks, marks_from, marks_reads, pieces};

use crate::CarriageKind;
use cuts::{cut, is_dash, keyed_line, number};
use faults::ValueFault;
use fields::{Form, ValueKind};
use text_faults::LineFault;

// The first line, which is always the same.
#[derive(Clone, Copy)]
pub struct BenchLine;

impl Form<()> for BenchLine {
    ghost meant = { λ _. bench_reads };

    fn read(&self, line: &[u8]) -> Result<(), LineFault> {
        match line {
            b"bench=1" => Ok(()),
            _ => Err(LineFault::Form),
        }
    }
}

fn numbered_line(line: &[u8], key: &[u8]) -> Option<u16>
    ensures { result ≡ numbered key.now line.now }
{
    number(keyed_line(line, key)?)
}

// A line with a number: n or t.
#[derive(Clone, Copy)]
pub struct NumberLine<'k> {
    pub key: &'k [u8],
}

impl Form<u16> for NumberLine<'_> {
    ghost meant = { λ f. number_reads f.key.now };

    fn read(&self, line: &[u8]) -> Result<u16, LineFault> {
        numbered_line(line, self.key).ok_or(LineFault::Form)
    }
}

// How many values follow, 1 to 4.
#[derive(Clone, Copy)]
pub struct CountLine;

impl Form<u16> for CountLine {
    ghost meant = { λ _. count_reads };

    fn read(&self, line: &[u8]) -> Result<u16, LineFault> {
        match numbered_line(line, b"values").ok_or(LineFault::Form)? {
            n @ 1..=4 => Ok(n),
            _ => Err(LineFault::Value(ValueFault::Count)),
        }
    }
}

#[derive(Clone, Copy)]
pub struct CarriageLine;

impl Form<CarriageKind> for CarriageLine {
    ghost meant = { λ _. carriage_reads };

    fn read(&self, line: &[u8]) -> Result<CarriageKind, LineFault> {
        let word = keyed_line(line, b"carriage").ok_or(LineFault::Form)?;
        CarriageKind::try_from(word)
    }
}

#[derive(Clone, Copy)]
pub struct KindLine;

impl Form<ValueKind> for KindLine {
    ghost meant = { λ _. kind_reads };

    fn read(&self, line: &[u8]) -> Result<ValueKind, LineFault> {
        let word = keyed_line(line, b"kind").ok_or(LineFault::Form)?;
        ValueKind::try_from(word)
    }
}

// One mark more, from `least` on.
fn mark_in(mark: u16, least: u32, mut table: [bool; 16]) -> Result<[bool; 16], LineFault>
    ensures { as_read result ≡ mark_put least table mark }
{
    if u32::from(mark) < least {
        return Err(LineFault::Form);
    }
    if mark > 15 {
        return Err(LineFault::Value(ValueFault::Mark));
    }
    table[mark as usize] = true;
    Ok(table)
}

// The marks of a line from `least` on, put into the table. A mark out of range is told only where the rest of the line has its
// form.
fn marks_over(rest: &[u8], least: u32, table: [bool; 16]) -> Result<[bool; 16], LineFault>
    ensures { as_read result ≡ marks_from least table (pieces rest.now) }
{
    let Some((field, more)) = cut(rest, b',') else {
        let mark = number(rest).ok_or(LineFault::Form)?;
        return mark_in(mark, least, table);
    };
    let mark = number(field).ok_or(LineFault::Form)?;
    let next = u32::from(mark) + 1;
    match mark_in(mark, least, table) {
        Ok(table) => marks_over(more, next, table),
        Err(LineFault::Value(e)) => {
            marks_over(more, next, table)?;
            Err(LineFault::Value(e))
        }
        Err(LineFault::Form) => Err(LineFault::Form),
    }
}

// The marked controllers, by a table.
#[derive(Clone, Copy)]
pub struct MarksLine;

impl Form<[bool; 16]> for MarksLine {
    ghost meant = { λ _. marks_reads };

    fn read(&self, line: &[u8]) -> Result<[bool; 16], LineFault> {
        let body = keyed_line(line, b"marks").ok_or(LineFault::Form)?;
        if is_dash(body) {
            return Ok([false; 16]);
        }
        marks_over(body, 0, [false; 16])
    }
}
