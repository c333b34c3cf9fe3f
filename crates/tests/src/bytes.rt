// Calls and answers in bytes: rows of bytes, good, short, long and unknown, with what they are.
use hexboard::Side;
use std::test::Fail;
use wire::{
    Answer, Call, Refusal, Unwritten, count_cells, read_answer, read_call, write_answer,
    write_call, write_way_head,
};

static ROWS: [(&[u8], Result<Call, Refusal>); 13] = [
    (&[0, 5, 1], Ok(Call::Move(261))),
    (&[0, 255, 255], Ok(Call::Move(65535))),
    (&[1], Ok(Call::Back)),
    (&[2], Ok(Call::Who)),
    (&[3], Ok(Call::CanForce)),
    (&[], Err(Refusal::Unreadable(0))),
    (&[0], Err(Refusal::Unreadable(1))),
    (&[0, 5], Err(Refusal::Unreadable(2))),
    (&[0, 5, 1, 0], Err(Refusal::Unreadable(3))),
    (&[1, 9], Err(Refusal::Unreadable(1))),
    (&[3, 0, 0], Err(Refusal::Unreadable(1))),
    (&[4], Err(Refusal::Unreadable(0))),
    (&[7, 0, 0], Err(Refusal::Unreadable(0))),
];

#[test]
fn rows_of_bytes_as_calls(rt: HostRuntime) {
    for (bytes, call) in &ROWS {
        assert!(rt; read_call(bytes) == *call);
    }
}

// A call is written, and read again; the byte behind it stays.
#[test]
fn calls_as_bytes(rt: HostRuntime) -> Result<(), Fail> {
    for call in [Call::Move(261), Call::Back, Call::Who, Call::CanForce] {
        let mut out = [9; 4];
        let size = write_call(call, &mut out).ok_or_else(|| Fail::new("no room"))?;
        assert!(rt; out.get(0..size).map(|bytes| read_call(bytes)) == Some(Ok(call)));
        assert!(rt; out[3] == 9);
        assert!(rt; write_call(call, &mut []) == None);
    }
    Ok(())
}

// Answers with the bytes that they are.
static ANSWERS: [(Answer<&[u8]>, &[u8]); 7] = [
    (Answer::Refused(Refusal::Unreadable(3)), &[0, 1, 0, 3, 0]),
    (Answer::Refused(Refusal::SmallMemory), &[0, 3, 0, 1, 0]),
    (Answer::Number(258), &[1, 2, 1]),
    (
        Answer::Way(Side::Two, &[3, 0, 4, 1]),
        &[2, 2, 0, 2, 0, 3, 0, 4, 1],
    ),
    (Answer::Yes(None), &[3, 0, 0]),
    (Answer::No, &[4]),
    (Answer::TooMany, &[5]),
];

#[test]
fn answers_as_bytes(rt: HostRuntime) -> Result<(), Fail> {
    for (answer, bytes) in &ANSWERS {
        let mut out = [9; 10];
        let size = write_answer(*answer, &mut out)?;
        assert!(rt; out.get(0..size) == Some(*bytes));
        assert!(rt; out[9] == 9);
        assert!(rt; read_answer(bytes) == Some(*answer));
    }
    Ok(())
}

// Answers that are not written, and leave all bytes as they were.
static UNWRITTEN: [(Answer<&[u8]>, Unwritten); 3] = [
    (Answer::Way(Side::Two, &[3, 0, 4, 1]), Unwritten::Short),
    (Answer::Way(Side::Two, &[0, 4, 1]), Unwritten::NotCells),
    (Answer::Yes(Some(65535)), Unwritten::NotCells),
];

#[test]
fn answers_that_are_not_written(rt: HostRuntime) {
    for (answer, why) in &UNWRITTEN {
        let mut out = [9; 8];
        assert!(rt; write_answer(*answer, &mut out) == Err(*why));
        assert!(rt; out == [9; 8]);
    }
}

// Rows of bytes that are no answer: a number that no refusal has, a place that its refusal has not,
// a number cut short, a side that is none, a way cut short, a byte too many, the number of no
// answer, and nothing.
static NO_ANSWERS: [&[u8]; 8] = [
    &[0, 7, 0, 0, 0],
    &[0, 2, 0, 1, 0],
    &[1, 2],
    &[2, 3, 0, 0, 0],
    &[2, 1, 0, 2, 0, 3, 0],
    &[4, 0],
    &[6],
    &[],
];

#[test]
fn rows_of_bytes_that_are_no_answer(rt: HostRuntime) {
    for bytes in &NO_ANSWERS {
        assert!(rt; read_answer(bytes) == None);
    }
}

#[test]
fn cells_of_a_way(rt: HostRuntime) {
    let way = [3, 0, 4, 1];
    assert!(rt; count_cells(&way) == Some(2));
    assert!(rt; count_cells(&way[0..3]) == None);
    let mut out = [9; 6];
    assert!(rt; write_way_head(Side::One, 2, &mut out) == Some(5));
    assert!(rt; out == [2, 1, 0, 2, 0, 9]);
}
