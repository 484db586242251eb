// Whole campaigns: what is read and written again is the same text.
use faults::Fault;
use std::test::Fail;
use text::{ReadError, read, write};
use values::Notice;

const SAMPLE: &[u8] =
    b"bench=1\nn=4\nt=1\nmarks=3\ncarriage=echo\nkind=notice\nvalues=2\nv=F,5,0\nv=F,9,0\nbegin=0,F,5,17\nturn=1\ninject=3,0,i,3,1,0\nclose=1\nbegin=3,-\n";

#[test]
fn the_sample_is_read_and_written_again(rt: HostRuntime) -> Result<(), Fail> {
    let heap = rt.alloc();
    match read::<Notice>(SAMPLE, heap) {
        Ok(campaign) => {
            assert!(rt; campaign.values.len() == 2 && campaign.acts.len() == 5);
            let mut buffer = [7u8; 200];
            let mut short = [7u8; 20];
            match write(&campaign, &mut buffer, heap) {
                Ok(n) => assert!(rt; n == SAMPLE.len()),
                Err(_) => assert!(rt; false),
            }
            assert!(rt; buffer.starts_with(SAMPLE));
            match write(&campaign, &mut short, heap) {
                Ok(_) => assert!(rt; false),
                Err(_) => assert!(rt; short == [7u8; 20]),
            }
            Ok(())
        }
        Err(_) => {
            assert!(rt; false);
            Ok(())
        },
    }
}

fn answer(text: &[u8], rt: &HostRuntime) -> (usize, u16) {
    match read::<Notice>(text, rt.alloc()) {
        Ok(_) => (0, 0),
        Err(ReadError::Fault(e)) => (e.line, e.number()),
        Err(ReadError::Memory(_)) => (0, 1),
    }
}

#[test]
fn lists_and_acts_are_refused_at_their_line(rt: HostRuntime) {
    assert_eq!(rt;
        answer(
            b"bench=1\nn=4\nt=1\nmarks=3\ncarriage=echo\nkind=notice\nvalues=2\nv=F,5,0\nv=F,5,9\n",
            &rt,
        ),
        (9, 8)
    );
    assert_eq!(rt;
        answer(
            b"bench=1\nn=4\nt=1\nmarks=3\ncarriage=echo\nkind=notice\nvalues=2\nv=F,5,0\nv=9,8\n",
            &rt,
        ),
        (9, 2)
    );
    assert_eq!(rt;
        answer(
            b"bench=1\nn=4\nt=1\nmarks=3\ncarriage=echo\nkind=pulse\nvalues=1\nv=9,8\n",
            &rt,
        ),
        (6, 2)
    );
    assert_eq!(rt;
        answer(
            b"bench=1\nn=4\nt=1\nmarks=3\ncarriage=echo\nkind=notice\nvalues=1\nv=F,5,0\nturn=0\nstop=1\n",
            &rt,
        ),
        (10, 2)
    );
}
