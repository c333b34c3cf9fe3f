// Whole inputs, served line by line within the limits of a program, and what its arguments ask for.
use arguments::{Asked, Flag, read_arguments};
use driver::{
    LONGEST_LINE, Limits, Listener, Positions, Refusals, Served, Table, answer_bytes, serve_lines,
};
use hexboard::Size;
use std::io;
use std::io::ErrorKind;
use std::test::Fail;

// Boards of up to 3 by 3, and ends of up to 8 empty cells.
fn small_limits() -> Result<Limits, Fail> {
    let largest = Size::new(3).ok_or_else(|| Fail::new("no board is 3 wide"))?;
    Ok(Limits { largest, ends: 8 })
}

// Inputs, and what is written for them.
static INPUTS: [(&[u8], &[u8]); 8] = [
    (b"", b""),
    (b"\n\n", b"refused 1 at 0\nrefused 1 at 0\n"),
    // Before the first board a line is read as any other, and a call is refused.
    (
        b"who\nmov\nboard x\nboard 4\nboard 3\nwho",
        b"refused 1 at 0\nrefused 1 at 3\nrefused 1 at 6\nrefused 3 at 0\nboard 3\n0\n",
    ),
    (
        b"board 3\r\ncan force\r\nmove 4\r\ncan force\r\n",
        b"board 3\ntoo many\n0\nno\n",
    ),
    (
        b"board 3\nmove 4\nmove 4\nmove 9\nmove 70000\nmoves\nback\nback\n",
        b"board 3\n0\nrefused 5 at 0\nrefused 2 at 0\nrefused 2 at 0\nrefused 1 at 4\n0\nrefused 6 at 0\n",
    ),
    // A board in the place of another, larger or smaller; and none, where the size is out of range.
    (
        b"board 3\nmove 8\nboard 1\nmove 1\nmove 0\nboard 0\nmove 0\nboard 3\nmove 8\nwho\n",
        b"board 3\n0\nboard 1\nrefused 2 at 0\n0\nrefused 3 at 0\nrefused 4 at 0\nboard 3\n0\n0\n",
    ),
    (
        b"board 1\nmove 0\nwho\ncan force\n",
        b"board 1\n0\nway 1: 0\nno\n",
    ),
    (b"board 2\nback\r\r\nwho\r", b"board 2\nrefused 1 at 4\n0\n"),
];

#[test]
fn whole_inputs(rt: HostRuntime) -> Result<(), Fail> {
    let heap = rt.alloc();
    for (input, lines) in &INPUTS {
        let out = answer_bytes(heap, small_limits()?, input)?;
        assert!(rt; out.as_slice() == *lines);
    }
    Ok(())
}

// Lines of so many digits behind `move 0`, and what each is answered by: as long as a line may be,
// a byte longer, and much longer.
static LONG: [(usize, &[u8], &str); 6] = [
    (LONGEST_LINE - 6, b"", "0\n"),
    (LONGEST_LINE - 6, b"\r", "0\n"),
    (LONGEST_LINE - 5, b"", "refused 1 at 4096\n"),
    (LONGEST_LINE - 5, b"\r", "refused 1 at 4096\n"),
    (LONGEST_LINE, b"x", "refused 1 at 4096\n"),
    (100_000, b"", "refused 1 at 4096\n"),
];

// The rest of a line that is too long is no line of its own.
#[test]
fn long_lines(rt: HostRuntime) -> Result<(), Fail> {
    let heap = rt.alloc();
    for (zeros, end, answer) in &LONG {
        let mut input = Vec::new(heap);
        input.extend_from_slice(b"board 3\nmove 0")?;
        input.resize(14 + *zeros, b'0')?;
        input.extend_from_slice(end)?;
        input.extend_from_slice(b"\nback\n")?;
        let out = answer_bytes(heap, small_limits()?, input.as_slice())?;
        let back = if *answer == "0\n" {
            "0"
        } else {
            "refused 6 at 0"
        };
        let lines = format!(in heap; "board 3\n{answer}{back}\n")?;
        assert!(rt; out.as_slice() == lines.as_bytes());
    }
    Ok(())
}

// The position is drawn after each line that leads to one, and a line that is refused, or asks,
// draws none.
#[test]
fn positions_after_lines(rt: HostRuntime) -> Result<(), Fail> {
    let heap = rt.alloc();
    let mut table = Table::new(heap, small_limits()?)?;
    let mut positions = Positions::new(Vec::new(heap));
    let mut input: &[u8] = b"board 2\nmove 0\nmove 0\nmove 1\nmove 2\nwho\nback\n";
    serve_lines(&mut table, &mut input, &mut positions)?;
    let expected = "board 2\n. .\n . .\nnobody has connected\n\
                    0\n1 .\n . .\nnobody has connected\n\
                    refused 5 at 0\n\
                    1\n1 2\n . .\nnobody has connected\n\
                    2\nA 2\n A .\nside 1 has won\n\
                    way 1: 0 2\n\
                    2\n1 2\n . .\nnobody has connected\n";
    assert!(rt; positions.into_inner().as_slice() == expected.as_bytes());
    Ok(())
}

// Each refusal stands behind the number of its line.
#[test]
fn refusals_of_lines(rt: HostRuntime) -> Result<(), Fail> {
    let heap = rt.alloc();
    let mut table = Table::new(heap, small_limits()?)?;
    let mut refusals = Refusals::new(Vec::new(heap));
    let mut input: &[u8] = b"who\nboard 2\nmove 0\nmove 0\nwho\nmove 4";
    serve_lines(&mut table, &mut input, &mut refusals)?;
    let expected = "line 1: refused 1 at 0\nline 4: refused 5 at 0\nline 6: refused 2 at 0\n";
    assert!(rt; refusals.into_inner().as_slice() == expected.as_bytes());
    Ok(())
}

// A listener that counts how often it was told of a line that comes, and of what became of one; it
// fails at the third.
#[derive(Drop)]
struct Three {
    begun: u64,
    lines: u64,
}

impl Listener for Three {
    ghost heard = { λ _ _. Unit {0} };

    ghost fails = { λ _ _. Unit {0} };

    fn begin(&mut self) {
        self.begun = self.begun.saturating_add(1);
    }

    fn hear(&mut self, _served: Served<u16>, _table: &mut Table) -> io::Result<()> {
        self.lines = self.lines.saturating_add(1);
        if self.lines == 3 {
            return Err(io::Error::from(ErrorKind::Other));
        }
        Ok(())
    }
}

// Each line is begun before it is heard, and none is read once the listener has failed.
#[test]
fn a_listener_that_fails(rt: HostRuntime) -> Result<(), Fail> {
    let mut table = Table::new(rt.alloc(), small_limits()?)?;
    let mut three = Three { begun: 0, lines: 0 };
    let mut input: &[u8] = b"board 3\nmove 0\nmove 1\nmove 2\nwho\n";
    let served = serve_lines(&mut table, &mut input, &mut three);
    assert!(rt; served.is_err());
    assert!(rt; three.begun == 3 && three.lines == 3);
    assert!(rt; input == b"move 2\nwho\n".as_slice());
    Ok(())
}

// The first argument that a program does not take is handed back, unless --help comes before it.
#[test]
fn arguments_of_a_program(rt: HostRuntime) -> Result<(), Fail> {
    let heap = rt.alloc();
    let times = String::from_str(heap, "--times")?;
    let show = String::from_str(heap, "--show")?;
    let help = String::from_str(heap, "--help")?;
    let given = [times, show, help];
    let taken = [Flag::Show, Flag::Times];
    let all = read_arguments(&given, &taken);
    assert!(rt; matches!(all, Ok(None)));
    let both = read_arguments(&given[..2], &taken);
    assert!(rt;
        matches!(
            both,
            Ok(Some(Asked {
                show: true,
                times: true
            }))
        )
    );
    let untaken = read_arguments(&given, &taken[1..]);
    assert!(rt; untaken.is_err_and(|argument| argument.as_str() == "--show"));
    Ok(())
}
