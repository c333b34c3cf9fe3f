// What a call is answered by, as a value.
ghost use Rattle.std.specs.Prelude.{◌≡◌, ◌*◌, ◌/◌, min, length, take};
ghost use Rattle.wire.specs.Formal.{told};
ghost use Rattle.session.specs.Replies.{replied, way_cells, way_bytes};

use wire::Answer;

/// An answer that tells how many cells its way has, if it has one. The cells stand in bytes that
/// were lent for them, two a cell, low byte first.
pub type Reply = Answer<u16>;

/// The answer that a reply is, with the way that stands at the front of these bytes, two a cell,
/// low byte first. If they have fewer cells than the reply tells, these alone.
pub fn with_way(reply: Reply, way: &[u8]) -> Answer<&[u8]>
    ensures value { told result ≡ replied reply way.now }
    ensures bytes { way_bytes result ≡ take
        (2 * min (way_cells reply) (length way.now / 2)) way.now }
{
    match reply {
        Answer::Refused(why) => Answer::Refused(why),
        Answer::Number(number) => Answer::Number(number),
        Answer::Way(side, count) => {
            // Whole cells alone, if there are fewer than the reply tells.
            let cells = usize::from(count).min(way.len() / 2);
            Answer::Way(side, &way[..2 * cells])
        }
        Answer::Yes(cell) => Answer::Yes(cell),
        Answer::No => Answer::No,
        Answer::TooMany => Answer::TooMany,
    }
}
