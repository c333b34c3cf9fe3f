// What is asked of the desk, as values and as bytes.
ghost use Rattle.std.specs.Prelude.{◌≡◌, ℕ, ◌∷◌};
ghost use Rattle.wire.specs.Bytes.{call_bytes, Written};
ghost use Rattle.wire.specs.Reading.{read, read_cell, read_at_end, Reads};

use crate::front::put;
use crate::refusal::Refusal;

/// What is asked of the desk.
#[derive(Clone, Copy, PartialEq, Eq, Debug)]
pub enum Call {
    // A stone of the side to move on this cell.
    Move(u16),
    // The last move is taken back.
    Back,
    // Who has connected, and how.
    Who,
    // Whether the side to move can bring it about that it connects.
    CanForce,
}

/// The call that the bytes are, or the first byte that does not fit. Each byte is asked for by a
/// `let .. else` of its own, which says at which place it is missing or too many.
pub fn read_call(bytes: &[u8]) -> Result<Call, Refusal>
    ensures value { result ≡ read bytes.now }
    ensures law { Reads bytes.now result }
{
    let [number, rest @ ..] = bytes else {
        return Err(Refusal::Unreadable(0));
    };
    match *number {
        0 => read_move(rest),
        1 => read_end(Call::Back, rest),
        2 => read_end(Call::Who, rest),
        3 => read_end(Call::CanForce, rest),
        _ => Err(Refusal::Unreadable(0)),
    }
}

/// The call's bytes at the front, and how many they are; none if there is no room.
pub fn write_call(call: Call, out: &mut [u8]) -> Option<usize>
    ensures { Written (call_bytes call) out.old out.new result }
{
    match call {
        Call::Move(cell) => {
            let [low, high] = cell.to_le_bytes();
            put(&[0, low, high], out)
        }
        Call::Back => put(&[1], out),
        Call::Who => put(&[2], out),
        Call::CanForce => put(&[3], out),
    }
}

// After the number of a move: its cell, and nothing more.
fn read_move(bytes: &[u8]) -> Result<Call, Refusal>
    ensures { result ≡ read_cell bytes.now }
{
    let [low, rest @ ..] = bytes else {
        return Err(Refusal::Unreadable(1));
    };
    let [high, rest @ ..] = rest else {
        return Err(Refusal::Unreadable(2));
    };
    let [] = rest else {
        return Err(Refusal::Unreadable(3));
    };
    Ok(Call::Move(u16::from_le_bytes([*low, *high])))
}

// After the number of another call: nothing more.
fn read_end(call: Call, bytes: &[u8]) -> Result<Call, Refusal>
    ensures { result ≡ read_at_end call bytes.now }
{
    let [] = bytes else {
        return Err(Refusal::Unreadable(1));
    };
    Ok(call)
}
