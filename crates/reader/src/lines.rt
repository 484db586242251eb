// Reading a line of some form.
ghost use Rattle.reader.specs.Reading.{taken, Kept};
ghost use Rattle.std.specs.Prelude.{◌≡◌};

use crate::Reader;
use crate::guard::Guard;
use fields::Form;
use text_faults::TextFault;

impl Reader<'_> {
    // Reads the line at the reader's place and hands its value to `keep`. A line that the form or `keep` refuses leaves the
    // reader as it was.
    pub(crate) fn take_with<T, U, E, F, G>(&mut self, form: &F, keep: G) -> Result<U, E>
    where
        F: Form<T>,
        E: From<TextFault>,
        G: FnOnce(T) -> Result<U, E>,
        requires { G.IsAlwaysCallable keep }
        ensures { Kept (F.Form.meant form.now) E.from_gives (G.post keep) self.old self.new result }
    {
        let number = self.line;
        let text = self.text;
        let kept = {
            let mut guard = Guard::before(&mut self.place);
            let value = guard.read(text, form, number)?;
            let kept = keep(value)?;
            guard.accept();
            kept
        };
        self.line = number.saturating_add(1);
        Ok(kept)
    }

    // Reads the line at the reader's place. A refused one leaves the reader as it was.
    pub fn take<T, F: Form<T>>(&mut self, form: &F) -> Result<T, TextFault>
        ensures { (result, self.new) ≡ taken (F.Form.meant form.now) self.old }
    {
        self.take_with(form, |value| Ok(value))
    }
}
