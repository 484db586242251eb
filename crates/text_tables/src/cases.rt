// A text, and the line, layer and number that it is refused by; line 0 where it is taken.
use faults::{Fault, Layer};
use text::TextFault;

pub type Case = (&'static [u8], usize, Layer, u16);

// Whether this is what the case says of its text.
pub fn is_answer<T: Drop>(case: &Case, answer: Result<T, TextFault>) -> bool {
    let (_, line, layer, number) = *case;
    match answer {
        Ok(_) => line == 0,
        Err(e) => e.line == line && e.layer() == layer && e.number() == number,
    }
}
