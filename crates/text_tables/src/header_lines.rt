// Header lines: what is refused, at which line, by which layer and number.
use crate::cases::{Case, is_answer};
use faults::Layer;
use std::process::Abort;
use text::Reader;

fn all(rt: &impl Abort, cases: &[Case]) {
    for case in cases {
        let mut reader = Reader::new(case.0);
        assert!(rt; is_answer(case, reader.header()));
    }
}

#[test]
fn headers_are_taken(rt: HostRuntime) {
    all(
        &rt,
        &[
            (
                b"bench=1\nn=4\nt=1\nmarks=3\ncarriage=echo\nkind=notice\nvalues=2\n",
                0,
                Layer::Text,
                0,
            ),
            (
                b"bench=1\nn=16\nt=5\nmarks=0,1,10,14,15\ncarriage=seal\nkind=pulse\nvalues=4\n",
                0,
                Layer::Text,
                0,
            ),
            (
                b"bench=1\nn=1\nt=0\nmarks=-\ncarriage=seal\nkind=pulse\nvalues=1\n",
                0,
                Layer::Text,
                0,
            ),
        ],
    );
}

#[test]
fn lines_must_be_there(rt: HostRuntime) {
    all(
        &rt,
        &[
            (b"", 1, Layer::Text, 1),
            (b"bench=1", 1, Layer::Text, 1),
            (b"bench=1\n", 2, Layer::Text, 1),
            (b"bench=1\nn=4", 2, Layer::Text, 1),
            (
                b"bench=1\nn=000000000000000000000000000000000000000000000000000000000000004\n",
                2,
                Layer::Text,
                1,
            ),
            (
                b"bench=1\nn=4\nt=1\nmarks=-\ncarriage=echo\nkind=notice\nvalues=2",
                7,
                Layer::Text,
                1,
            ),
        ],
    );
}

#[test]
fn keys_and_words_must_be_right(rt: HostRuntime) {
    all(
        &rt,
        &[
            (b"\n", 1, Layer::Text, 2),
            (b"bench=2\n", 1, Layer::Text, 2),
            (b"Bench=1\n", 1, Layer::Text, 2),
            (b"bench=1\r\n", 1, Layer::Text, 2),
            (b" bench=1\n", 1, Layer::Text, 2),
            (b"bench=1\nt=4\n", 2, Layer::Text, 2),
            (b"bench=1\nn:4\n", 2, Layer::Text, 2),
            (b"bench=1\nn=4\nn=1\n", 3, Layer::Text, 2),
            (b"bench=1\nn=4\nt=1\nmark=3\n", 4, Layer::Text, 2),
            (
                b"bench=1\nn=4\nt=1\nmarks=3\ncarriage=wire\n",
                5,
                Layer::Text,
                2,
            ),
            (
                b"bench=1\nn=4\nt=1\nmarks=3\ncarriage=echo\nkind=notices\n",
                6,
                Layer::Text,
                2,
            ),
            (
                b"bench=1\nn=4\nt=1\nmarks=3\ncarriage=echo\nkind=pulse\nvalue=1\n",
                7,
                Layer::Text,
                2,
            ),
        ],
    );
}

#[test]
fn numbers_must_have_their_form(rt: HostRuntime) {
    all(
        &rt,
        &[
            (b"bench=1\nn=\n", 2, Layer::Text, 2),
            (b"bench=1\nn=04\n", 2, Layer::Text, 2),
            (b"bench=1\nn=00\n", 2, Layer::Text, 2),
            (b"bench=1\nn=+4\n", 2, Layer::Text, 2),
            (b"bench=1\nn=-4\n", 2, Layer::Text, 2),
            (b"bench=1\nn=65536\n", 2, Layer::Text, 2),
            (b"bench=1\nn=4 \n", 2, Layer::Text, 2),
            (b"bench=1\nn=4,\n", 2, Layer::Text, 2),
            (b"bench=1\nn=4\r\n", 2, Layer::Text, 2),
            (b"bench=1\nn=\xff\n", 2, Layer::Text, 2),
            (b"bench=1\nn=4\x80\n", 2, Layer::Text, 2),
            (b"bench=1\nn=\0\n", 2, Layer::Text, 2),
            (
                b"bench=1\nn=00000000000000000000000000000000000000000000000000000000000004\n",
                2,
                Layer::Text,
                2,
            ),
        ],
    );
}

#[test]
fn marks_must_have_their_form(rt: HostRuntime) {
    all(
        &rt,
        &[
            (b"bench=1\nn=7\nt=2\nmarks=\n", 4, Layer::Text, 2),
            (b"bench=1\nn=7\nt=2\nmarks=3,1\n", 4, Layer::Text, 2),
            (b"bench=1\nn=7\nt=2\nmarks=3,3\n", 4, Layer::Text, 2),
            (b"bench=1\nn=7\nt=2\nmarks=3,\n", 4, Layer::Text, 2),
            (b"bench=1\nn=7\nt=2\nmarks=1, 3\n", 4, Layer::Text, 2),
            (b"bench=1\nn=7\nt=2\nmarks=01\n", 4, Layer::Text, 2),
            (b"bench=1\nn=7\nt=2\nmarks=-,3\n", 4, Layer::Text, 2),
            (b"bench=1\nn=7\nt=2\nmarks=16,3\n", 4, Layer::Text, 2),
        ],
    );
}

#[test]
fn numbers_must_be_in_range(rt: HostRuntime) {
    all(
        &rt,
        &[
            (b"bench=1\nn=16\nt=5\nmarks=16\n", 4, Layer::Value, 3),
            (b"bench=1\nn=0\nt=0\nmarks=3,16\n", 4, Layer::Value, 3),
            (b"bench=1\nn=65535\nt=0\nmarks=-\n", 4, Layer::Group, 4),
            (b"bench=1\nn=3\nt=1\nmarks=-\n", 4, Layer::Group, 5),
            (b"bench=1\nn=4\nt=1\nmarks=2,3\n", 4, Layer::Group, 6),
            (b"bench=1\nn=15\nt=1\nmarks=15\n", 4, Layer::Group, 6),
            (
                b"bench=1\nn=4\nt=1\nmarks=3\ncarriage=echo\nkind=notice\nvalues=0\n",
                7,
                Layer::Value,
                3,
            ),
            (
                b"bench=1\nn=4\nt=1\nmarks=3\ncarriage=echo\nkind=notice\nvalues=5\n",
                7,
                Layer::Value,
                3,
            ),
        ],
    );
}
