// Reading acts, and passing over lines.
ghost use Rattle.std.specs.Prelude.{◌≡◌, ◌∷◌, ◌++◌, length, IfOk};
ghost use Rattle.acts.specs.Acts.{act_reads, line_of_act};
ghost use Rattle.reader.specs.Reading.{left, taken, skipped, start};

use crate::Reader;
use crate::guard::rest;
use acts::{Act, ActLine};
use cuts::cut;
use fields::Written;
use text_faults::TextFault;

impl Reader<'_> {
    // Reads an act.
    pub fn act<K: Written>(&mut self) -> Result<Act<K>, TextFault>
        ensures is { (result, self.new) ≡ taken (act_reads K.Written.reads) self.old }
        ensures line { IfOk result (λ a. left self.old ≡ line_of_act K.Written.shows a ++ 10 ∷ left self.new) }
    {
        self.take(&ActLine)
    }

    // Passes over a line: past its line feed, or to the end of the text.
    pub fn skip(&mut self)
        ensures { self.new ≡ skipped self.old }
    {
        let left = rest(self.text, self.place);
        match cut(left, b'\n') {
            Some((line, _)) => {
                self.place += line.len() + 1;
                self.line = self.line.saturating_add(1);
            }
            None => {
                if !left.is_empty() {
                    self.line = self.line.saturating_add(1);
                }
                self.place = self.text.len();
            }
        }
    }
}
