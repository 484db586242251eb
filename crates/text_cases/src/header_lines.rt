// Header lines: what is refused, at which line and by which number.
use faults::Fault;
use text::Reader;

// Line and number of the refusal, or (0, 0).
fn answer(text: &[u8]) -> (usize, u16) {
    let mut reader = Reader::new(text);
    match reader.header() {
        Ok(_) => (0, 0),
        Err(e) => (e.line, e.number()),
    }
}

#[test]
fn headers_are_taken(rt: HostRuntime) {
    assert_eq!(rt;
        answer(b"bench=1\nn=4\nt=1\nmarks=3\ncarriage=echo\nkind=notice\nvalues=2\n"),
        (0, 0)
    );
    assert_eq!(rt;
        answer(b"bench=1\nn=16\nt=5\nmarks=0,1,10,14,15\ncarriage=seal\nkind=pulse\nvalues=4\n"),
        (0, 0)
    );
    assert_eq!(rt;
        answer(b"bench=1\nn=1\nt=0\nmarks=-\ncarriage=seal\nkind=pulse\nvalues=1\n"),
        (0, 0)
    );
}

#[test]
fn lines_must_be_there(rt: HostRuntime) {
    assert_eq!(rt; answer(b""), (1, 1));
    assert_eq!(rt; answer(b"bench=1"), (1, 1));
    assert_eq!(rt; answer(b"bench=1\n"), (2, 1));
    assert_eq!(rt;
        answer(b"bench=1\nn=4\nt=1\nmarks=-\ncarriage=echo\nkind=notice\nvalues=2"),
        (7, 1)
    );
}

#[test]
fn lines_must_have_their_form(rt: HostRuntime) {
    assert_eq!(rt; answer(b"bench=2\n"), (1, 2));
    assert_eq!(rt; answer(b"bench=1\r\n"), (1, 2));
    assert_eq!(rt; answer(b"bench=1\nn=04\n"), (2, 2));
    assert_eq!(rt; answer(b"bench=1\nn=+4\n"), (2, 2));
    assert_eq!(rt; answer(b"bench=1\nn=65536\n"), (2, 2));
    assert_eq!(rt; answer(b"bench=1\nn=4 \n"), (2, 2));
    assert_eq!(rt; answer(b"bench=1\nt=4\n"), (2, 2));
    assert_eq!(rt; answer(b"bench=1\nn=\xff\n"), (2, 2));
    assert_eq!(rt; answer(b"bench=1\nn=\0\n"), (2, 2));
    assert_eq!(rt; answer(b"bench=1\nn=7\nt=2\nmarks=3,1\n"), (4, 2));
    assert_eq!(rt; answer(b"bench=1\nn=7\nt=2\nmarks=3,3\n"), (4, 2));
    assert_eq!(rt; answer(b"bench=1\nn=7\nt=2\nmarks=3,\n"), (4, 2));
    assert_eq!(rt;
        answer(b"bench=1\nn=4\nt=1\nmarks=3\ncarriage=wire\n"),
        (5, 2)
    );
}

#[test]
fn numbers_must_be_in_range(rt: HostRuntime) {
    assert_eq!(rt; answer(b"bench=1\nn=16\nt=5\nmarks=16\n"), (4, 3));
    assert_eq!(rt; answer(b"bench=1\nn=65535\nt=0\nmarks=-\n"), (4, 4));
    assert_eq!(rt; answer(b"bench=1\nn=3\nt=1\nmarks=-\n"), (4, 5));
    assert_eq!(rt; answer(b"bench=1\nn=4\nt=1\nmarks=2,3\n"), (4, 6));
    assert_eq!(rt;
        answer(b"bench=1\nn=4\nt=1\nmarks=3\ncarriage=echo\nkind=notice\nvalues=0\n"),
        (7, 3)
    );
    assert_eq!(rt;
        answer(b"bench=1\nn=4\nt=1\nmarks=3\ncarriage=echo\nkind=notice\nvalues=5\n"),
        (7, 3)
    );
}
