// Lines of acts, and where a reader stands after a refused one.
use faults::Fault;
use text::{Act, Reader, TextCause, TextFault, Written};
use values::{Notice, PulseReport};

// The number of the refusal of an act, or 0.
fn number_of<K: Written + Drop>(text: &[u8]) -> u16 {
    let mut reader = Reader::new(text);
    match reader.act::<K>() {
        Ok(_) => 0,
        Err(e) => e.number(),
    }
}

fn refusal(text: &[u8]) -> u16 {
    number_of::<Notice>(text)
}

fn pulse_refusal(text: &[u8]) -> u16 {
    number_of::<PulseReport>(text)
}

#[test]
fn acts_are_taken_or_refused(rt: HostRuntime) {
    assert_eq!(rt; refusal(b"begin=0,F,5,17\n"), 0);
    assert_eq!(rt; refusal(b"begin=3,-\n"), 0);
    assert_eq!(rt; refusal(b"inject=3,0,i,3,1,0\n"), 0);
    assert_eq!(rt; refusal(b"inject=65535,65535,s,65535,65535,65535\n"), 0);
    assert_eq!(rt; refusal(b"inject=3,0,x,3,1,0\n"), 2);
    assert_eq!(rt; refusal(b"turn=1,\n"), 2);
    assert_eq!(rt; refusal(b"begin=0,F,64,17\n"), 3);
    assert_eq!(rt; refusal(b"begin=0,F,64,65536\n"), 2);
    assert_eq!(rt; refusal(b"begin=0,9,8\n"), 2);
    assert_eq!(rt; pulse_refusal(b"begin=0,9,8\n"), 0);
    assert_eq!(rt; pulse_refusal(b"begin=0,9,9\n"), 3);
    assert_eq!(rt; pulse_refusal(b"begin=0,F,5,17\n"), 2);
}

#[test]
fn lines_are_at_most_64_bytes(rt: HostRuntime) {
    assert_eq!(rt;
        refusal(b"0123456789012345678901234567890123456789012345678901234567890123\n"),
        2
    );
    assert_eq!(rt;
        refusal(b"01234567890123456789012345678901234567890123456789012345678901234\n"),
        1
    );
    assert_eq!(rt; refusal(b"turn=1"), 1);
}

#[test]
fn a_refused_line_stays_until_it_is_skipped(rt: HostRuntime) {
    let mut reader = Reader::new(b"turn=01\nturn=2\n");
    let refused: Result<Act<Notice>, TextFault> = Err(TextFault::at(1, TextCause::Form));
    assert_eq!(rt; reader.act(), refused);
    assert_eq!(rt; reader.act(), refused);
    reader.skip();
    let second: Result<Act<Notice>, TextFault> = reader.act();
    assert_eq!(rt; second, Ok(Act::Turn(2)));
    assert!(rt; reader.at_end() && reader.line() == 3);
}
