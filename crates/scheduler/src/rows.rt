// For a caller of the scheduler: in a row table of any length a row is found, added and removed in place, and the first 32 rows are copied out and back.
ghost use Rattle.std.specs.Prelude.{◌≡◌, ◌≤◌, length};
ghost use Rattle.scheduler.specs.Loading.{loaded, over};

use graph::ROWS;
pub use tables::rows::{add, remove, row_of as find};
use terms::Row;

// The first 32 rows of a table, and free rows after them where it is shorter.
pub fn load(rows: &[Row]) -> [Row; ROWS]
    ensures { result ≡ loaded rows.now }
{
    let n = rows.len().min(ROWS);
    let mut all = tables::rows::no_rows();
    all[..n].copy_from_slice(&rows[..n]);
    all
}

// The first n of `from` become those of the table.
pub fn store(rows: &mut [Row], n: usize, from: &[Row; ROWS])
    requires { (n ≤ 32) × (n ≤ length rows.old) }
    ensures { rows.new ≡ over from.now n rows.old }
{
    rows[..n].copy_from_slice(&from[..n]);
}
