// How acts are read from a line and written to one.
ghost use Rattle.std.specs.Prelude.{◌≡◌, IfOk, string_bytes};
ghost use Rattle.text_faults.specs.Causes.{as_read};
ghost use Rattle.acts.specs.Acts.{inject_reads, inject_line, InjectFits, begin_reads, act_reads, line_of_act, ActFits, value_field, ValueFits};

use crate::{Act, Injection, Letter};
use carriage::Triple;
use cuts::{cut, is_dash, letter_field, number, number_field};
use fields::{Form, Written};
use std::alloc::{AllocError, Global};
use text_faults::LineFault;

// FROM,TO,LETTER,ORIGIN,ROUND,PLACE
fn injection(body: &[u8]) -> Option<Injection>
    ensures { result ≡ inject_reads body.now }
{
    let (from, rest) = number_field(body)?;
    let (to, rest) = number_field(rest)?;
    let (letter, rest) = letter_field(rest)?;
    let letter = Letter::try_from(letter).ok()?;
    let (origin, rest) = number_field(rest)?;
    let (round, rest) = number_field(rest)?;
    let place = number(rest)?;
    let triple = Triple {
        origin,
        place,
        round,
    };
    Some(Injection {
        from,
        to,
        letter,
        triple,
    })
}

// SENDER,VALUE or SENDER,-
fn begin<K: Written>(body: &[u8]) -> Result<Act<K>, LineFault>
    ensures { as_read result ≡ begin_reads K.Written.reads body.now }
{
    let (sender, rest) = number_field(body).ok_or(LineFault::Form)?;
    let value = if is_dash(rest) {
        None
    } else {
        Some(K::read(rest)?)
    };
    Ok(Act::Begin { sender, value })
}

// The act that a line stands for, or why it stands for none: it has not the form of an act, or a number of its value is
// out of range.
pub fn act<K: Written>(line: &[u8]) -> Result<Act<K>, LineFault>
    ensures { as_read result ≡ act_reads K.Written.reads line.now }
{
    let (key, body) = cut(line, b'=').ok_or(LineFault::Form)?;
    match key {
        b"begin" => begin(body),
        b"inject" => Ok(Act::Inject(injection(body).ok_or(LineFault::Form)?)),
        b"turn" => Ok(Act::Turn(number(body).ok_or(LineFault::Form)?)),
        b"close" => Ok(Act::Close(number(body).ok_or(LineFault::Form)?)),
        _ => Err(LineFault::Form),
    }
}

fn injection_line(x: &Injection, heap: Global) -> Result<String, AllocError>
    ensures { IfOk result (λ t. (string_bytes t ≡ inject_line x.now) × InjectFits x.now) }
{
    let from = x.from;
    let to = x.to;
    let letter = char::from(u8::from(x.letter));
    let Triple {
        origin,
        place,
        round,
    } = x.triple;
    format!(in heap; "inject={from},{to},{letter},{origin},{round},{place}")
}

fn value_line<K: Written>(value: &Option<K>, heap: Global) -> Result<String, AllocError>
    ensures { IfOk result (λ t. (string_bytes t ≡ value_field K.Written.shows value.now) × ValueFits K.Written.fits value.now) }
{
    match value {
        Some(v) => v.written(heap),
        None => String::from_str(heap, "-"),
    }
}

// The line of an act, without its line feed. Not a `Display`: its output could not say that every number fits.
pub fn act_line<K: Written>(act: &Act<K>, heap: Global) -> Result<String, AllocError>
    ensures { IfOk result (λ t. (string_bytes t ≡ line_of_act K.Written.shows act.now) × ActFits K.Written.fits act.now) }
{
    match *act {
        Act::Begin { sender, ref value } => {
            let fields = value_line(value, heap)?;
            format!(in heap; "begin={sender},{fields}")
        }
        Act::Inject(ref x) => injection_line(x, heap),
        Act::Turn(phase) => format!(in heap; "turn={phase}"),
        Act::Close(shot) => format!(in heap; "close={shot}"),
    }
}

// A line that is an act.
#[derive(Clone, Copy)]
pub struct ActLine;

impl<K: Written> Form<Act<K>> for ActLine {
    ghost meant = { λ _. act_reads K.Written.reads };

    fn read(&self, line: &[u8]) -> Result<Act<K>, LineFault> {
        act(line)
    }
}
