// Whether lent tables are sound: one test for each sentence of the rules' section. What the rows have to be stands in each function's clause,
// since not each asks for all of it.
#![tactic(auto)]

ghost use Rattle.std.specs.Prelude.{◌≡◌, true, ◌≤◌, length};
ghost use Rattle.rules.specs.Raw.{sound_raw};
ghost use Rattle.sound.specs.Rows.{ascends, rises};
ghost use Rattle.sound.specs.Shape.{raw};
ghost use Rattle.sound.specs.Told.{LinksTold, tested_raw};

use crate::base::has_base;
use crate::head::has_head;
use crate::items::has_items;
use crate::records::has_records;
use crate::rings::has_ring;
use crate::rows::has_rows;
use crate::shape::{has_shape, used_recs};
use edges::ITEMS;
use graph::ROWS;
use packed::RECS;
use tables::rows::used;
use terms::Row;

pub mod base;
pub mod head;
pub mod items;
pub mod records;
pub mod rings;
pub mod rows;
pub mod shape;

// Are the records, the writers in the value tables and the read words what the rows allow?
fn has_links(count: u32, next: u32, writers: &[u32; ITEMS], used: &[Row], filed: &[u64]) -> bool
    requires { (count ≤ ITEMS) × (length used.now ≤ ROWS) × (length filed.now ≤ RECS) × (ascends used.now ≡ true) × (rises used.now ≡ true) }
    ensures { LinksTold count next writers.now used.now filed.now result }
{
    // Filled once, in fixed memory.
    let mut owners = [0; RECS];
    has_records(count, used, filed, &mut owners)
        && has_base(next, used, &writers[..count as usize])
        && has_items(used, filed, &owners, writers)
}

// Do the tables pass all tests but those of dependencies? The five tables are parameters of their own, as in `scheduler`: so in `sound` and
// `has_shape`.
pub fn is_tested(head: &[u32], values: &[u32], writers: &[u32], rows: &[Row], recs: &[u64]) -> bool
    ensures is { result ≡ tested_raw ROWS RECS (raw head.now values.now writers.now rows.now recs.now) }
    ensures rows { result ≡ true → length rows.now ≡ ROWS }
{
    // Before the used ones are counted, since a row table of any length may be lent.
    if rows.len() != ROWS {
        return false;
    }
    let many = used(rows);
    let filed = used_recs(recs);
    if !has_shape(head, values, writers, rows, recs, many, filed) {
        return false;
    }
    let count = head[0];
    let next = head[1];
    let moment = head[2];
    let used = &rows[..many];
    let filed = &recs[..filed];
    let writers = writers.as_array::<ITEMS>().unwrap();
    has_head(count, next, moment, used)
        && has_rows(used, next, moment)
        && has_links(count, next, writers, used, filed)
}

// Are the tables sound?
pub fn sound(head: &[u32], values: &[u32], writers: &[u32], rows: &[Row], recs: &[u64]) -> bool
    ensures { result ≡ sound_raw ROWS RECS (raw head.now values.now writers.now rows.now recs.now) }
{
    if !is_tested(head, values, writers, rows, recs) {
        return false;
    }
    let rows = rows.as_array::<ROWS>().unwrap();
    let g = edges::edges(rows, recs);
    !has_ring(&g) && edges::spent(rows, &g) == 0
}
