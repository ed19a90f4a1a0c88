// The five tables of a board as one value, for a caller that owns them all.
ghost use Rattle.std.specs.Prelude.{◌≡◌};
ghost use Rattle.rules.specs.Raw.{raw_of};
ghost use Rattle.rules.specs.State.{closed};
ghost use Rattle.calls.specs.Lent.{raw};

use edges::ITEMS;
use graph::ROWS;
use packed::RECS;
use tables::rows::no_rows;
use terms::Row;

#[derive(Clone, Copy)]
pub struct Board {
    pub head: [u32; 3],
    pub values: [u32; ITEMS],
    pub writers: [u32; ITEMS],
    pub rows: [Row; ROWS],
    pub recs: [u64; RECS],
}

impl Board {
    // The tables before any opening: everything is 0.
    pub fn closed() -> Board
        ensures { raw result.head result.values result.writers result.rows result.recs ≡ raw_of 32 256 closed }
    {
        Board {
            head: [0; 3],
            values: [0; ITEMS],
            writers: [0; ITEMS],
            rows: no_rows(),
            recs: [0; RECS],
        }
    }
}
