//! The worked statement of docs/RULES.md; the limits of writing and of reading, and their neighbours.
use ledger::Line;
use statement::StatementFault::{self, Buffer, Length, Limits};
use statement::{MOST_BYTES, read, write};
use std::process::Abort;

/// What stands in a buffer of bytes, and in one of lines, before the call.
const OLD_BYTE: u8 = 0xEE;

const OLD_LINE: Line = Line {
    right: 7,
    penalty: 9,
};

/// More bytes than any statement has, and more lines.
const BYTES: usize = MOST_BYTES + 16;

const LINES: usize = 65;

/// A line.
fn line(right: u64, penalty: u64) -> Line {
    Line { right, penalty }
}

/// Two lines, and the bytes of their January.
const WORKED: [Line; 2] = [
    Line {
        right: 10_000_000,
        penalty: 354_838,
    },
    Line {
        right: 0,
        penalty: 0,
    },
];

const WORKED_BYTES: [u8; 34] = [
    1, 2, 0x80, 0x96, 0x98, 0, 0, 0, 0, 0, 0, 0, 0, 0, 0, 0, 0, 0, 0x16, 0x6A, 0x05, 0, 0, 0, 0, 0,
    0, 0, 0, 0, 0, 0, 0, 0,
];

/// Writes into a buffer of so many bytes. What lies behind them stays, and so does a buffer that is refused.
fn writes(
    rt: &impl Abort,
    month: u32,
    lines: &[Line],
    room: usize,
    answer: Result<usize, StatementFault>,
) {
    let mut out = [OLD_BYTE; BYTES];
    assert!(rt; room <= BYTES);
    assert_eq!(rt; write(month, lines, &mut out[..room]), answer);
    let kept = answer.unwrap_or(0);
    assert!(rt; kept <= BYTES);
    assert!(rt; out[kept..].iter().all(|&byte| byte == OLD_BYTE));
}

/// Reads so many bytes of a month, a count and amounts of 0 into so many lines. The lines behind those read stay.
fn reads(
    rt: &impl Abort,
    head: [u8; 2],
    length: usize,
    room: usize,
    answer: Result<(u32, usize), StatementFault>,
) {
    let mut bytes = [0; BYTES];
    let [month, count] = head;
    bytes[0] = month;
    bytes[1] = count;
    let mut lines = [OLD_LINE; LINES];
    assert!(rt; length <= BYTES && room <= LINES);
    assert_eq!(rt; read(&bytes[..length], &mut lines[..room]), answer);
    let read = answer.map_or(0, |(_, count)| count);
    assert!(rt; read <= LINES);
    assert!(rt; lines[..read].iter().all(|&given| given == line(0, 0)));
    assert!(rt; lines[read..].iter().all(|&given| given == OLD_LINE));
}

#[test]
fn the_worked_statement(rt: HostRuntime) {
    let mut out = [OLD_BYTE; 34];
    assert_eq!(rt; write(1, &WORKED, &mut out), Ok(34));
    assert_eq!(rt; out, WORKED_BYTES);
    let [first, second] = WORKED;
    let mut lines = [OLD_LINE; 3];
    assert_eq!(rt; read(&out, &mut lines), Ok((1, 2)));
    assert_eq!(rt; lines, [first, second, OLD_LINE]);
}

#[test]
fn what_may_be_written(rt: HostRuntime) {
    let most = line(1_000_000_000, 1_000_000_000);
    let full = [most; 64];
    let table: [(u32, &[Line], usize, Result<usize, StatementFault>); 15] = [
        (1, &[], 2, Ok(2)),
        (12, &[], 1_042, Ok(2)),
        (12, &[], 1, Err(Buffer)),
        (0, &[], 2, Err(Limits)),
        (13, &[], 2, Err(Limits)),
        (257, &[], 2, Err(Limits)),
        (6, &[most], 18, Ok(18)),
        (6, &[most], 17, Err(Buffer)),
        (6, &[line(1_000_000_001, 0)], 18, Err(Limits)),
        (6, &[most, line(5, 6)], 34, Err(Limits)),
        (6, &[line(5, 5)], 18, Ok(18)),
        (12, &full, 1_026, Ok(1_026)),
        (12, &full, 1_025, Err(Buffer)),
        (12, &[line(0, 0); 65], 1_042, Err(Limits)),
        (0, &[line(0, 1)], 0, Err(Limits)),
    ];
    for (month, lines, room, answer) in table {
        writes(&rt, month, lines, room, answer);
    }
}

#[test]
fn what_may_be_read(rt: HostRuntime) {
    let table = [
        ([0, 0], 0, 0, Err(Length)),
        ([1, 0], 1, 0, Err(Length)),
        ([1, 0], 2, 0, Ok((1, 0))),
        ([1, 0], 3, 0, Err(Length)),
        ([12, 1], 17, 1, Err(Length)),
        ([12, 1], 18, 1, Ok((12, 1))),
        ([12, 1], 19, 1, Err(Length)),
        ([12, 1], 18, 65, Ok((12, 1))),
        ([12, 1], 18, 0, Err(Buffer)),
        ([0, 1], 18, 1, Err(Limits)),
        ([13, 1], 18, 0, Err(Limits)),
        ([255, 0], 2, 0, Err(Limits)),
        ([3, 64], 1_026, 64, Ok((3, 64))),
        ([3, 64], 1_026, 63, Err(Buffer)),
        ([3, 65], 1_042, 65, Err(Limits)),
        ([3, 65], 1_026, 65, Err(Length)),
        ([3, 255], 1_042, 65, Err(Length)),
    ];
    for (head, length, room, answer) in table {
        reads(&rt, head, length, room, answer);
    }
}

#[test]
fn amounts_that_may_be_read(rt: HostRuntime) {
    let table: [([u8; 8], [u8; 8], Result<(u32, usize), StatementFault>); 4] = [
        ([0, 0xCA, 0x9A, 0x3B, 0, 0, 0, 0], [0; 8], Ok((1, 1))),
        ([1, 0xCA, 0x9A, 0x3B, 0, 0, 0, 0], [0; 8], Err(Limits)),
        (
            [5, 0, 0, 0, 0, 0, 0, 0],
            [5, 0, 0, 0, 0, 0, 0, 0],
            Ok((1, 1)),
        ),
        (
            [5, 0, 0, 0, 0, 0, 0, 0],
            [0, 0, 0, 0, 0, 0, 0, 1],
            Err(Limits),
        ),
    ];
    for (right, penalty, answer) in table {
        let mut bytes = [1; 18];
        bytes[2..10].copy_from_slice(&right);
        bytes[10..].copy_from_slice(&penalty);
        assert_eq!(rt; read(&bytes, &mut [OLD_LINE]), answer);
    }
}
