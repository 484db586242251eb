// Lines of acts, and where a reader stands after a refused one.
use crate::cases::{Case, is_answer};
use faults::Layer;
use std::process::Abort;
use text::{Act, Reader, TextCause, TextFault, Written};
use values::{Notice, PulseReport};

// The first act of each text, in a campaign of this kind.
fn all<K: Written + Drop>(rt: &impl Abort, cases: &[Case]) {
    for case in cases {
        let mut reader = Reader::new(case.0);
        assert!(rt; is_answer(case, reader.act::<K>()));
    }
}

#[test]
fn acts_of_notices(rt: HostRuntime) {
    all::<Notice>(
        &rt,
        &[
            (b"begin=0,F,5,17\n", 0, Layer::Text, 0),
            (b"begin=65535,P,63,65535\n", 0, Layer::Text, 0),
            (b"begin=3,-\n", 0, Layer::Text, 0),
            (b"inject=3,0,i,3,1,0\n", 0, Layer::Text, 0),
            (
                b"inject=65535,65535,s,65535,65535,65535\n",
                0,
                Layer::Text,
                0,
            ),
            (b"inject=3,0,x,3,1,0\n", 1, Layer::Text, 2),
            (b"inject=3,0,i,3,1\n", 1, Layer::Text, 2),
            (b"inject=3,0,i,3,1,0,0\n", 1, Layer::Text, 2),
            (b"begin=0,F,64,17\n", 1, Layer::Value, 3),
            (b"begin=0,F,64,65536\n", 1, Layer::Text, 2),
            (b"begin=0,F,5,0,\n", 1, Layer::Text, 2),
            (b"begin=0,9,8\n", 1, Layer::Text, 2),
            (b"begin=0\n", 1, Layer::Text, 2),
        ],
    );
}

#[test]
fn acts_of_pulse_reports(rt: HostRuntime) {
    all::<PulseReport>(
        &rt,
        &[
            (b"begin=0,9,8\n", 0, Layer::Text, 0),
            (b"begin=0,9,9\n", 1, Layer::Value, 3),
            (b"begin=0,64,0\n", 1, Layer::Value, 3),
            (b"begin=0,9,0\n", 1, Layer::Value, 3),
            (b"begin=0,9,08\n", 1, Layer::Text, 2),
            (b"begin=0,F,5,17\n", 1, Layer::Text, 2),
        ],
    );
}

#[test]
fn acts_must_have_their_form(rt: HostRuntime) {
    all::<Notice>(
        &rt,
        &[
            (b"", 1, Layer::Text, 1),
            (b"turn=1", 1, Layer::Text, 1),
            (b"\n", 1, Layer::Text, 2),
            (b"stop=1\n", 1, Layer::Text, 2),
            (b"turn=1,\n", 1, Layer::Text, 2),
            (b"turn=1 \n", 1, Layer::Text, 2),
            (b" turn=1\n", 1, Layer::Text, 2),
            (b"turn=1\r\n", 1, Layer::Text, 2),
            (b"turn=+1\n", 1, Layer::Text, 2),
            (b"turn=65535\n", 0, Layer::Text, 0),
            (b"turn=65536\n", 1, Layer::Text, 2),
            (b"close=0\n", 0, Layer::Text, 0),
            (
                b"0123456789012345678901234567890123456789012345678901234567890123\n",
                1,
                Layer::Text,
                2,
            ),
            (
                b"01234567890123456789012345678901234567890123456789012345678901234\n",
                1,
                Layer::Text,
                1,
            ),
        ],
    );
}

#[test]
fn a_refused_line_stays_until_it_is_skipped(rt: HostRuntime) {
    let mut reader = Reader::new(b"turn=01\nturn=2\n");
    let refused: Result<Act<Notice>, TextFault> = Err(TextFault::at(1, TextCause::Form));
    assert_eq!(rt; reader.act(), refused);
    assert_eq!(rt; reader.act(), refused);
    reader.skip();
    let second: Result<Act<Notice>, TextFault> = reader.act();
    assert_eq!(rt; second, Ok(Act::Turn(2)));
    assert!(rt; reader.at_end() && reader.line() == 3);
}
