// Campaign texts: the reader and the writer of the format, line by line.
#![tactic(auto)]

mod campaigns;

pub use acts::{Act, Injection, Letter, act_line};
pub use campaigns::{Campaign, read, rendered, write};
pub use fields::{Form, ValueKind, Written};
pub use headers::{CarriageKind, Header};
pub use reader::Reader;
pub use text_faults::{LineFault, ReadError, TextCause, TextFault, WriteError, WriteFault};
