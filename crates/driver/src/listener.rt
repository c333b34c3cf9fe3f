// Where answers go.
ghost use Rattle.std.specs.Prelude.{◌≡◌, List, [], ◌∷◌, ◌++◌, OnOk, OnErr};
ghost use Rattle.driver.specs.Exchanged.{Exchange};
ghost use Rattle.driver.specs.Tables.{game_on, limits_of, exchange_at};

use crate::table::Table;
use crate::told::Served;
use std::io;

/// Who hears what lines are answered by.
pub trait Listener {
    // it heard these, the oldest first. A relation, since a listener need not keep all that it
    // hears: one that counts agrees with every list of so many
    ghost heard: { Self → List Exchange → Type 0 };

    // what it heard last failed, and left it so
    ghost fails: { Self → Self → Type 0 };

    /// A line has come, and is served next.
    fn begin(&mut self)
        ensures { (all : List Exchange) → heard self.old all → heard self.new all }
    {}

    /// Hears what became of a line, with the table after it, which stays as it is but for the way
    /// that it shows.
    fn hear(&mut self, served: Served<u16>, table: &mut Table) -> io::Result<()>
        ensures heard { OnOk result ((all : List Exchange) → heard self.old all
            → heard self.new (all ++ exchange_at table.old served ∷ [])) }
        ensures failed { OnErr result (fails self.old self.new) }
        ensures kept { game_on table.new ≡ game_on table.old }
        ensures limits { limits_of table.new ≡ limits_of table.old };
}
