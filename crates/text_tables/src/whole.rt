// Whole campaigns: what is read and written again is the same text, and what is refused.
use crate::cases::{Case, is_answer};
use faults::{Layer, ListFault};
use std::alloc::Global;
use std::process::Abort;
use std::test::Fail;
use text::{Campaign, ReadError, WriteError, WriteFault, read, write};
use values::Notice;

const SAMPLE: &[u8] =
    b"bench=1\nn=4\nt=1\nmarks=3\ncarriage=echo\nkind=notice\nvalues=2\nv=F,5,0\nv=F,9,0\nbegin=0,F,5,17\nturn=1\ninject=3,0,i,3,1,0\nclose=1\nbegin=3,-\n";

// Whether the sample is written whole into a long buffer, with no byte past it, and nothing into a short one.
fn written(rt: &impl Abort, campaign: &Campaign<Notice>, heap: Global) -> Result<(), Fail> {
    let mut buffer = [7u8; 160];
    let n = SAMPLE.len();
    assert_eq!(rt; write(campaign, &mut buffer, heap), Ok(n));
    assert!(rt; buffer.starts_with(SAMPLE) && buffer[n] == 7 && buffer[159] == 7);
    let mut short = [7u8; 20];
    assert_eq!(rt;
        write(campaign, &mut short, heap),
        Err(WriteError::Fault(WriteFault::Short))
    );
    assert!(rt; short == [7u8; 20]);
    Ok(())
}

#[test]
fn the_sample_is_read_and_written_again(rt: HostRuntime) -> Result<(), Fail> {
    let heap = rt.alloc();
    match read::<Notice>(SAMPLE, heap) {
        Ok(campaign) => {
            assert!(rt; campaign.values.len() == 2 && campaign.acts.len() == 5);
            written(&rt, &campaign, heap)
        }
        Err(_) => {
            assert!(rt; false);
            Ok(())
        },
    }
}

#[test]
fn a_list_is_refused_before_the_buffer(rt: HostRuntime) -> Result<(), Fail> {
    let heap = rt.alloc();
    match read::<Notice>(SAMPLE, heap) {
        Ok(mut campaign) => {
            let _ = campaign.values.pop();
            let _ = campaign.values.pop();
            let mut none = [7u8; 0];
            let length = WriteError::Fault(WriteFault::List(ListFault::Length));
            assert_eq!(rt; write(&campaign, &mut none, heap), Err(length));
            Ok(())
        }
        Err(_) => {
            assert!(rt; false);
            Ok(())
        },
    }
}

// Whether the whole text is answered as the case says.
fn answers(case: &Case, heap: Global) -> bool {
    match read::<Notice>(case.0, heap) {
        Ok(campaign) => is_answer(case, Ok(campaign)),
        Err(ReadError::Fault(e)) => is_answer::<()>(case, Err(e)),
        Err(ReadError::Memory(_)) => false,
    }
}

fn all(rt: &impl Abort, cases: &[Case], heap: Global) {
    for case in cases {
        assert!(rt; answers(case, heap));
    }
}

#[test]
fn lists_and_acts_are_refused_at_their_line(rt: HostRuntime) {
    all(
        &rt,
        &[
            (
                b"bench=1\nn=4\nt=1\nmarks=3\ncarriage=echo\nkind=notice\nvalues=2\nv=F,5,0\nv=P,5,0\n",
                0,
                Layer::Text,
                0,
            ),
            (
                b"bench=1\nn=4\nt=1\nmarks=3\ncarriage=echo\nkind=notice\nvalues=2\nv=F,5,0\nv=F,5,9\n",
                9,
                Layer::List,
                8,
            ),
            (
                b"bench=1\nn=4\nt=1\nmarks=3\ncarriage=echo\nkind=notice\nvalues=2\nv=F,5,0\nv=9,8\n",
                9,
                Layer::Text,
                2,
            ),
            (
                b"bench=1\nn=4\nt=1\nmarks=3\ncarriage=echo\nkind=notice\nvalues=2\nv=F,64,0\nv=9,8\n",
                8,
                Layer::Value,
                3,
            ),
            (
                b"bench=1\nn=4\nt=1\nmarks=3\ncarriage=echo\nkind=notice\nvalues=2\nv=F,5,0\n",
                9,
                Layer::Text,
                1,
            ),
            (
                b"bench=1\nn=4\nt=1\nmarks=3\ncarriage=echo\nkind=notice\nvalues=1\nw=F,5,0\n",
                8,
                Layer::Text,
                2,
            ),
            (
                b"bench=1\nn=4\nt=1\nmarks=3\ncarriage=echo\nkind=pulse\nvalues=1\nv=9,8\n",
                6,
                Layer::Text,
                2,
            ),
            (
                b"bench=1\nn=4\nt=1\nmarks=3\ncarriage=echo\nkind=notice\nvalues=1\nv=F,5,0\nturn=0\nstop=1\n",
                10,
                Layer::Text,
                2,
            ),
            (
                b"bench=1\nn=4\nt=1\nmarks=3\ncarriage=echo\nkind=notice\nvalues=1\nv=F,5,0\nturn=0\nturn=1",
                10,
                Layer::Text,
                1,
            ),
        ],
        rt.alloc(),
    );
}

#[test]
fn a_fault_is_shown_with_its_line(rt: HostRuntime) -> Result<(), Fail> {
    let heap = rt.alloc();
    match read::<Notice>(b"bench=1\nn=3\nt=1\nmarks=-\n", heap) {
        Err(ReadError::Fault(e)) => match e.to_string(heap) {
            Ok(shown) => {
                assert!(rt; shown.as_str() == "line 4: n not above 3t");
                Ok(())
            },
            Err(_) => {
                assert!(rt; false);
                Ok(())
            },
        },
        _ => {
            assert!(rt; false);
            Ok(())
        },
    }
}
