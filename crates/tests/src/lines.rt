// Lines that ask, read and written; answers as lines; and a board as text.
use arrayvec::ArrayString;
use hexboard::{Side, Size};
use std::fmt::Write;
use std::test::Fail;
use text::{Drawing, Line, Outcome, read_line};
use wire::{Answer, Call, NoRefusal, Refusal};

static LINES: [(&[u8], Result<Line, usize>); 23] = [
    (b"board 3", Ok(Line::Board(3))),
    (b"board 70000", Ok(Line::Board(65535))),
    (b"move 0", Ok(Line::Call(Call::Move(0)))),
    (b"move 65535", Ok(Line::Call(Call::Move(65535)))),
    (b"move 007", Ok(Line::Call(Call::Move(7)))),
    (b"back", Ok(Line::Call(Call::Back))),
    (b"who", Ok(Line::Call(Call::Who))),
    (b"can force", Ok(Line::Call(Call::CanForce))),
    (b"move 65536", Ok(Line::Call(Call::Move(65535)))),
    (b"board 99999999999999999999", Ok(Line::Board(65535))),
    (b"move 70000x", Err(10)),
    (b"mov", Err(3)),
    (b"move", Err(4)),
    (b"move ", Err(5)),
    (b"move x", Err(5)),
    (b"board ", Err(6)),
    (b"board x", Err(6)),
    (b"board -1", Err(6)),
    (b"backs", Err(4)),
    (b"who ", Err(3)),
    (b"can  force", Err(4)),
    (b"", Err(0)),
    (b"\xff\x00", Err(0)),
];

#[test]
fn reads_lines(rt: HostRuntime) {
    for (bytes, line) in &LINES {
        assert!(rt; read_line(bytes) == *line);
    }
}

// A line that asks is written as it is read.
#[test]
fn writes_lines(rt: HostRuntime) -> Result<(), Fail> {
    let heap = rt.alloc();
    for (line, text) in [
        (Line::Board(19), "board 19"),
        (Line::Call(Call::Move(12)), "move 12"),
        (Line::Call(Call::CanForce), "can force"),
    ] {
        let written = format!(in heap; "{line}")?;
        assert!(rt; written.as_str() == text);
    }
    Ok(())
}

static ANSWERS: [(Answer<&[u8]>, &str); 8] = [
    (Answer::Refused(Refusal::Unreadable(9)), "refused 1 at 9"),
    (Answer::Refused(Refusal::SmallMemory), "refused 3 at 1"),
    (Answer::Number(7), "7"),
    (Answer::Way(Side::Two, &[3, 0, 4, 1]), "way 2: 3 260"),
    (Answer::Yes(None), "yes"),
    (Answer::Yes(Some(4)), "yes 4"),
    (Answer::No, "no"),
    (Answer::TooMany, "too many"),
];

#[test]
fn writes_answers(rt: HostRuntime) -> Result<(), Fail> {
    let heap = rt.alloc();
    for (answer, text) in &ANSWERS {
        let written = format!(in heap; "{answer}")?;
        assert!(rt; written.as_str() == *text);
    }
    Ok(())
}

// The line of a number and a place that no refusal has.
#[test]
fn no_refusals_line(rt: HostRuntime) -> Result<(), Fail> {
    let why = NoRefusal {
        number: 7,
        place: 260,
    };
    let line = format!(in rt.alloc(); "{why}")?;
    assert!(rt; line.as_str() == "no refusal has number 7 and place 260");
    Ok(())
}

// A board with a cell too few, whose last is drawn as empty, and a way of three stones of side 1.
// It goes to a text of a fixed size, which needs no memory; into a smaller one it does not fit.
#[test]
fn draws_a_board(rt: HostRuntime) -> Result<(), Fail> {
    let size = Size::new(3).ok_or_else(|| Fail::new("no board is 3 wide"))?;
    let drawing = Drawing {
        size,
        cells: &[1, 2, 0, 2, 1, 0, 0, 1],
        way: &[0, 0, 4, 0, 7, 0],
    };
    let mut text = ArrayString::<21>::new();
    write!(&mut text, "{drawing}")?;
    assert!(rt; text.as_str() == "A 2 .\n 2 A .\n  . A .\n");
    let mut small = ArrayString::<20>::new();
    assert!(rt; write!(&mut small, "{drawing}").is_err());
    Ok(())
}

static OUTCOMES: [(Option<Side>, &str); 3] = [
    (Some(Side::One), "side 1 has won"),
    (Some(Side::Two), "side 2 has won"),
    (None, "nobody has connected"),
];

#[test]
fn writes_outcomes(rt: HostRuntime) -> Result<(), Fail> {
    for (winner, line) in &OUTCOMES {
        let written = format!(in rt.alloc(); "{}", Outcome(*winner))?;
        assert!(rt; written.as_str() == *line);
    }
    Ok(())
}
