// The reader of a campaign text: a lent text, a place in it, and the number of the line that stands there.
#![tactic(auto)]

mod act_lines;
mod guard;
mod header;
mod lines;
mod places;
mod value_lines;

#[derive(Clone, Copy)]
pub struct Reader<'a> {
    text: &'a [u8],
    place: usize,
    line: usize,
}
