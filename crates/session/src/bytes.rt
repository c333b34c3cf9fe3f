// A reply in bytes.
ghost use Rattle.std.specs.Prelude.{ℕ, ◌+◌, ◌*◌, ◌≤◌, length, drop};
ghost use Rattle.session.specs.Replies.{replied, way_cells, HasBytes};
ghost use Rattle.session.specs.Calling.{Shown};

use crate::reply::{Reply, with_way};

// Writes a reply's bytes. The cells of a way stand behind the five bytes of its head already.
pub(crate) fn show(reply: Reply, answer: &mut [u8]) -> usize
    requires room { 8 ≤ length answer.old }
    requires way { 5 + 2 * way_cells reply ≤ length answer.old }
    requires has_bytes { HasBytes reply }
    ensures { Shown (replied reply (drop 5 answer.old)) answer.old answer.new result }
{
    match reply {
        Reply::Way(side, count) => {
            let _ = wire::write_way_head(side, count, answer);
            5 + 2 * usize::from(count)
        }
        Reply::Refused(_) | Reply::Number(_) | Reply::Yes(_) | Reply::No | Reply::TooMany => {
            wire::write_answer(with_way(reply, &[]), answer).unwrap()
        }
    }
}
