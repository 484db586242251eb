// Reading the value list.
ghost use Rattle.std.specs.Prelude.{◌≡◌, [], length, Ok, Err, MatchResult};
ghost use Rattle.text_faults.specs.Faults.{Faulted};
ghost use Rattle.reader.specs.Lists.{value_reads, listed, last_taken, values_taken, acts_taken};
ghost use Rattle.reader.specs.Reading.{left};
ghost use Rattle.reader.specs.declared.Reader.{Reader as Lines};

use crate::Reader;
use acts::Act;
use cuts::keyed_line;
use fields::{Form, Written};
use lists::check_list;
use std::alloc::Global;
use text_faults::{LineFault, ReadError, TextFault};

// A line with a value.
#[derive(Clone, Copy)]
struct ValueLine;

impl<K: Written> Form<K> for ValueLine {
    ghost meant = { λ _. value_reads K.Written.reads };

    fn read(&self, line: &[u8]) -> Result<K, LineFault> {
        let body = keyed_line(line, b"v").ok_or(LineFault::Form)?;
        K::read(body)
    }
}

// The values with one more, if they are a value list then; a line that makes none is refused.
fn listed<K: Written + Drop>(mut values: Vec<K>, value: K, line: usize) -> Result<Vec<K>, ReadError>
    ensures { MatchResult result (λ vs. (r after : Lines) → listed K.Written.reads K.Kind.same values.items r value after ≡ (Ok vs.items, after)) (λ e. Faulted e (λ f. (r after : Lines) → r.line ≡ line → listed K.Written.reads K.Kind.same values.items r value after ≡ (Err f, r))) }
{
    values.push(value)?;
    check_list(&values).map_err(|e| TextFault::at(line, e))?;
    Ok(values)
}

impl Reader<'_> {
    // Reads the last v line; a list that is none refuses it.
    fn last_value<K: Written + Drop>(&mut self, values: Vec<K>) -> Result<Vec<K>, ReadError>
        ensures { MatchResult result (λ vs. last_taken K.Written.reads K.Kind.same values.items self.old ≡ (Ok vs.items, self.new)) (λ e. Faulted e (λ f. last_taken K.Written.reads K.Kind.same values.items self.old ≡ (Err f, self.new))) }
    {
        let line = self.line;
        self.take_with(&ValueLine, |value| listed(values, value, line))
    }

    // Reads the v lines, as many as the header counts.
    pub fn values<K: Written + Drop>(
        &mut self,
        count: u16,
        heap: Global,
    ) -> Result<Vec<K>, ReadError>
        ensures { MatchResult result (λ vs. values_taken K.Written.reads K.Kind.same count [] self.old ≡ (Ok vs.items, self.new)) (λ e. Faulted e (λ f. values_taken K.Written.reads K.Kind.same count [] self.old ≡ (Err f, self.new))) }
    {
        let mut values = Vec::new(heap);
        // a loop, since each line moves the reader and may be refused
        for _i in 1..count {
            let v = self.take(&ValueLine)?;
            values.push(v)?;
        }
        self.last_value(values)
    }

    // Reads all acts, up to the end of the text.
    pub fn acts<K: Written + Drop>(&mut self, heap: Global) -> Result<Vec<Act<K>>, ReadError>
        ensures { MatchResult result (λ xs. acts_taken K.Written.reads (length (left self.old)) [] self.old ≡ (Ok xs.items, self.new)) (λ e. Faulted e (λ f. acts_taken K.Written.reads (length (left self.old)) [] self.old ≡ (Err f, self.new))) }
    {
        let mut acts = Vec::new(heap);
        // a loop, since each act moves the reader and may be refused
        while !self.at_end() {
            let a = self.act::<K>()?;
            acts.push(a)?;
        }
        Ok(acts)
    }
}
