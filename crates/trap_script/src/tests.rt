//! Lines, numbers and replies as they stand in a session.

ghost use Rattle.std.specs.Prelude.{◌≤◌, length};
ghost use Rattle.trap_script.specs.Replies.{shown_len};

use crate::{Answer, Line, Span4, read_line, read_number, write_answer};
use std::process::Abort;
use trap_model::Refusal;

const BIG: u64 = 18446744073709551615;

#[test]
fn numbers_have_one_spelling(rt: HostRuntime) {
    for (text, want) in [
        ("0", Some(0)),
        ("7", Some(7)),
        ("1099511627776", Some(1099511627776)),
        ("18446744073709551615", Some(BIG)),
        ("18446744073709551616", None),
        ("99999999999999999999", None),
        ("100000000000000000000", None),
        ("", None),
        ("00", None),
        ("01", None),
        ("+1", None),
        ("-1", None),
        ("1a", None),
        (" 1", None),
    ] {
        assert_eq!(rt; read_number(text.as_bytes()), want, "{text}");
    }
}

#[test]
fn lines_over_blocks_of_16_bytes(rt: HostRuntime) {
    let mut fresh = [9u8; 16];
    for (line, want) in [
        ("R 0", Line::Read { block: 0 }),
        ("R 18446744073709551615", Line::Read { block: BIG }),
        ("A 0 7", Line::At { seq: 0, block: 7 }),
        (
            "A 1099511627776 18446744073709551615",
            Line::At {
                seq: 1099511627776,
                block: BIG,
            },
        ),
        (
            "T 100 3",
            Line::By {
                time: 100,
                block: 3,
            },
        ),
        (
            "T 18446744073709551615 0",
            Line::By {
                time: BIG,
                block: 0,
            },
        ),
        ("I", Line::Info),
        ("Q", Line::Quit),
        ("", Line::Bad),
        ("R 0\r", Line::Bad),
        ("R  0", Line::Bad),
        (" R 0", Line::Bad),
        ("R 0 ", Line::Bad),
        ("R 0 0", Line::Bad),
        ("R\t0", Line::Bad),
        ("R 00", Line::Bad),
        ("R 100000000000000000000", Line::Bad),
        ("R 18446744073709551616", Line::Bad),
        ("R -1", Line::Bad),
        ("R", Line::Bad),
        ("r 0", Line::Bad),
        ("RR 0", Line::Bad),
        ("Q ", Line::Bad),
        ("q", Line::Bad),
        ("W 1 0", Line::Bad),
        ("W 1 0 ", Line::Bad),
        ("A", Line::Bad),
        ("A 0", Line::Bad),
        ("A 0 ", Line::Bad),
        ("A  0 7", Line::Bad),
        ("A 0  7", Line::Bad),
        ("A 0 7 ", Line::Bad),
        ("A 0 7 1", Line::Bad),
        ("A 00 7", Line::Bad),
        ("A 0 07", Line::Bad),
        ("A 18446744073709551616 7", Line::Bad),
        ("a 0 7", Line::Bad),
        ("T", Line::Bad),
        ("T 100", Line::Bad),
        ("T 100 3 0", Line::Bad),
        ("T 100 -3", Line::Bad),
        ("T 100\t3", Line::Bad),
        ("I ", Line::Bad),
        ("I 0", Line::Bad),
        ("II", Line::Bad),
        ("i", Line::Bad),
        ("K 0", Line::Bad),
    ] {
        assert_eq!(rt; read_line(line.as_bytes(), &mut fresh), want, "{line}");
    }
}

#[test]
fn bytes_that_are_no_text_have_no_form(rt: HostRuntime) {
    let mut fresh = [9u8; 16];
    assert_eq!(rt; read_line(b"R \xff", &mut fresh), Line::Bad);
    assert_eq!(rt; read_line(b"\xff\xfe 0", &mut fresh), Line::Bad);
    assert_eq!(rt; read_line(b"R 0\0", &mut fresh), Line::Bad);
}

#[test]
fn a_write_fills_the_block(rt: HostRuntime) {
    let mut fresh = [9u8; 16];
    let line = b"W 100 7 0123456789abcdefABCDEF00000000ff";
    assert_eq!(rt;
        read_line(line, &mut fresh),
        Line::Write {
            time: 100,
            block: 7
        }
    );
    assert_eq!(rt;
        fresh,
        [
            1, 35, 69, 103, 137, 171, 205, 239, 171, 205, 239, 0, 0, 0, 0, 255
        ]
    );
    assert_eq!(rt; read_line(b"R 7", &mut fresh), Line::Read { block: 7 });
    assert_eq!(rt;
        fresh,
        [
            1, 35, 69, 103, 137, 171, 205, 239, 171, 205, 239, 0, 0, 0, 0, 255
        ]
    );
}

#[test]
fn a_write_holds_one_whole_block(rt: HostRuntime) {
    let mut fresh = [9u8; 16];
    for (line, want) in [
        (
            "W 1 0 00000000000000000000000000000000",
            Line::Write { time: 1, block: 0 },
        ),
        ("W 1 0 0000000000000000000000000000000", Line::Bad),
        ("W 1 0 000000000000000000000000000000", Line::Bad),
        ("W 1 0 000000000000000000000000000000000", Line::Bad),
        ("W 1 0 0000000000000000000000000000000000", Line::Bad),
        ("W 1 0 0000000000000000000000000000000g", Line::Bad),
        ("W 1 0 00000000000000000000000000000000 ", Line::Bad),
        ("W 1  0 00000000000000000000000000000000", Line::Bad),
        ("W 01 0 00000000000000000000000000000000", Line::Bad),
        ("W 1 00 00000000000000000000000000000000", Line::Bad),
        ("W  1 0 00000000000000000000000000000000", Line::Bad),
    ] {
        assert_eq!(rt; read_line(line.as_bytes(), &mut fresh), want, "{line}");
    }
}

#[test]
fn the_longest_line_has_76_bytes(rt: HostRuntime) {
    let mut fresh = [9u8; 16];
    let longest = "W 18446744073709551615 18446744073709551615 00000000000000000000000000000000";
    assert_eq!(rt; longest.len(), 76);
    assert_eq!(rt;
        read_line(longest.as_bytes(), &mut fresh),
        Line::Write {
            time: BIG,
            block: BIG
        }
    );
    assert_eq!(rt; fresh, [0u8; 16]);
    let longer = "W 18446744073709551615 18446744073709551615 000000000000000000000000000000000";
    assert_eq!(rt; longer.len(), 77);
    assert_eq!(rt; read_line(longer.as_bytes(), &mut fresh), Line::Bad);
}

// Asserts that the answer is written so, with its line feed.
fn says(rt: &impl Abort, answer: &Answer, want: &str)
    requires { shown_len answer.now ≤ 16 }
{
    let mut out = [0u8; 120];
    let end = write_answer(answer, &mut out);
    assert_eq!(rt; &out[..end], want.as_bytes(), "{want}");
}

#[test]
fn replies_are_lines(rt: HostRuntime) {
    let mut bytes = [0u8; 16];
    says(&rt, &Answer::Kept { seq: 1 }, "ok 1\n");
    says(
        &rt,
        &Answer::Kept { seq: 1099511627776 },
        "ok 1099511627776\n",
    );
    says(
        &rt,
        &Answer::Is { bytes: &bytes },
        "is 00000000000000000000000000000000\n",
    );
    bytes[0] = 1;
    bytes[15] = 171;
    says(
        &rt,
        &Answer::Is { bytes: &bytes },
        "is 010000000000000000000000000000ab\n",
    );
    says(
        &rt,
        &Answer::At { bytes: &bytes },
        "at 010000000000000000000000000000ab\n",
    );
    let span = Span4 {
        first: 0,
        last: 1,
        base_time: 0,
        last_time: 100,
    };
    says(&rt, &Answer::Span { span }, "is 0 1 0 100\n");
    let span = Span4 {
        first: BIG,
        last: BIG,
        base_time: BIG,
        last_time: BIG,
    };
    says(
        &rt,
        &Answer::Span { span },
        "is 18446744073709551615 18446744073709551615 18446744073709551615 18446744073709551615\n",
    );
}

#[test]
fn refusals_are_lines(rt: HostRuntime) {
    says(&rt, &Answer::No(Refusal::NoLine), "no line\n");
    says(&rt, &Answer::No(Refusal::NoBlock), "no block\n");
    says(
        &rt,
        &Answer::No(Refusal::TimeBack { last: 100 }),
        "no time 100\n",
    );
    says(&rt, &Answer::No(Refusal::Worn), "no worn\n");
    says(&rt, &Answer::No(Refusal::Full), "no full\n");
    says(
        &rt,
        &Answer::No(Refusal::NotKept { bound: 3 }),
        "no kept 3\n",
    );
    says(&rt, &Answer::No(Refusal::Ahead { last: 9 }), "no ahead 9\n");
}
