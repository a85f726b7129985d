// Each form of a line, and each place where a line can stand in a buffer.
use crate::line::{Line, WrongCount, write_line};
use records::numbers::{Label, RecordNumber, SequentNumber};
use records::refusal::Refusal;
use std::process::Abort;

// The line, written into 24 dots from the place `at`, leaves `expected`, and `next` is the next free place.
fn writes(rt: &impl Abort, line: Line, at: usize, next: usize, expected: &[u8]) {
    let mut buf = [b'.'; 24];
    assert_eq!(rt; write_line(&mut buf, at, line), Ok(next));
    assert_eq!(rt; &buf[0..24], expected);
}

// The line is refused from the place `at` of 24 dots, with 20, and the dots stay.
fn refuses(rt: &impl Abort, line: Line, at: usize) {
    let mut buf = [b'.'; 24];
    let refused = write_line(&mut buf, at, line).err();
    assert_eq!(rt; refused.map(|e| e.number()), Some(20));
    let expected: &[u8] = b"........................";
    assert_eq!(rt; &buf[0..24], expected);
}

#[test]
fn opens(rt: HostRuntime) {
    writes(
        &rt,
        Line::Open(8, Ok(())),
        0,
        10,
        b"open 8 ok\n..............",
    );
    writes(
        &rt,
        Line::Open(9, Err(WrongCount)),
        0,
        11,
        b"open 9 1 0\n.............",
    );
    writes(
        &rt,
        Line::Open(0, Err(WrongCount)),
        0,
        11,
        b"open 0 1 0\n.............",
    );
    writes(
        &rt,
        Line::Open(65535, Err(WrongCount)),
        0,
        15,
        b"open 65535 1 0\n.........",
    );
}

#[test]
fn enters(rt: HostRuntime) {
    let early = Err(Refusal::EndsEarly(RecordNumber(0)));
    writes(
        &rt,
        Line::Enter(Ok(SequentNumber(0))),
        0,
        11,
        b"enter 0 ok\n.............",
    );
    writes(
        &rt,
        Line::Enter(Ok(SequentNumber(10))),
        0,
        12,
        b"enter 10 ok\n............",
    );
    writes(&rt, Line::Enter(early), 0, 13, b"enter - 13 0\n...........");
    writes(
        &rt,
        Line::Enter(Err(Refusal::FileTooLong)),
        0,
        12,
        b"enter - 2 0\n............",
    );
}

#[test]
fn proves(rt: HostRuntime) {
    let needed = Err(Refusal::NotAsNeeded(RecordNumber(9)));
    writes(
        &rt,
        Line::Prove(SequentNumber(9), Ok(())),
        0,
        11,
        b"prove 9 ok\n.............",
    );
    writes(
        &rt,
        Line::Prove(SequentNumber(10), needed),
        0,
        14,
        b"prove 10 10 9\n..........",
    );
}

#[test]
fn refutes(rt: HostRuntime) {
    let unplaced = Err(Refusal::LabelUnplaced(Label(65535)));
    writes(
        &rt,
        Line::Refute(SequentNumber(0), Ok(())),
        0,
        12,
        b"refute 0 ok\n............",
    );
    writes(
        &rt,
        Line::Refute(SequentNumber(65535), unplaced),
        0,
        22,
        b"refute 65535 19 65535\n..",
    );
}

#[test]
fn stops(rt: HostRuntime) {
    writes(&rt, Line::Stop, 0, 5, b"stop\n...................");
}

#[test]
fn places(rt: HostRuntime) {
    let line = Line::Prove(SequentNumber(2), Err(Refusal::NoSequent));
    writes(&rt, line, 7, 19, b".......prove 2 7 0\n.....");
    writes(&rt, line, 12, 24, b"............prove 2 7 0\n");
    refuses(&rt, line, 13);
    refuses(&rt, line, 24);
    refuses(&rt, line, 25);
    refuses(&rt, line, 18446744073709551615);
}

#[test]
fn small_buffers(rt: HostRuntime) {
    let mut exact = [b'.'; 5];
    assert_eq!(rt; write_line(&mut exact, 0, Line::Stop), Ok(5));
    let expected: &[u8] = b"stop\n";
    assert_eq!(rt; &exact[0..5], expected);
    let mut short = [b'.'; 4];
    assert!(rt; write_line(&mut short, 0, Line::Stop).is_err());
    let dots: &[u8] = b"....";
    assert_eq!(rt; &short[0..4], dots);
    assert!(rt; write_line(&mut short[0..0], 0, Line::Stop).is_err());
}
