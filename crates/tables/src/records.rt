// Access records, packed one to a u64, in a table that the caller lends. Scans stop at the first unused record. A kind is a number, as
// `Rec.kind` is.
ghost use Rattle.std.specs.Prelude.{◌≡◌, ◌/◌, ◌^◌, map, [], length};
ghost use Rattle.rules.specs.Lists.{keep, padded};
ghost use Rattle.rules.specs.State.{is_rec, recorded, word_in};
ghost use Rattle.rules.specs.Raw.{unpack, used_recs};
ghost use Rattle.bridge.specs.Whole.{used_of, place_of, put_in, put_over, other_rec};

use lists::{first_index, insert_at, keep};
use packed::{item_of, key_of, kind_of, txn_of, word_of};
use terms::{ItemNo, TxnNo};

// Is p the record of transaction t, item i and kind k?
pub fn is_rec(p: u64, t: TxnNo, i: ItemNo, k: u32) -> bool
    ensures { result ≡ is_rec t.0 i.0 k (unpack p) }
{
    txn_of(p) == t && item_of(p) == i && kind_of(p) == k
}

// Has t a record of item i and kind k?
pub fn has_rec(recs: &[u64], t: TxnNo, i: ItemNo, k: u32) -> bool
    ensures { result ≡ recorded (used_of [] recs.now [] []) t.0 i.0 k }
{
    recs.iter()
        .take_while(|p| **p != 0)
        .any(|p| is_rec(*p, t, i, k))
}

// The word of t's record of item i and kind k. It is 0 where there is none, as in the definition `word_in`.
pub fn word_in(recs: &[u64], t: TxnNo, i: ItemNo, k: u32) -> u32
    ensures { result ≡ word_in t.0 i.0 k (map unpack (used_recs recs.now)) }
{
    recs.iter()
        .take_while(|p| **p != 0)
        .find(|p| is_rec(**p, t, i, k))
        .map_or(0, |p| word_of(*p))
}

// Where the record of a key stands, or would stand: at the first that is unused, or whose key is not below it.
pub fn place(recs: &[u64], key: u64) -> usize
    ensures { result ≡ place_of key recs.now }
{
    first_index(recs, |p| *p == 0 || key <= key_of(*p))
}

// Puts p in at its place: what stands from there on moves one place up.
pub fn insert(recs: &mut [u64], p: u64)
    ensures { recs.new ≡ put_in p recs.old }
{
    let at = place(recs, key_of(p));
    insert_at(recs, at, p);
}

// Puts p over the record at its place.
pub fn change(recs: &mut [u64], p: u64)
    ensures { recs.new ≡ put_over p recs.old }
{
    let at = place(recs, key_of(p));
    if at < recs.len() {
        recs[at] = p;
    }
}

// Takes the records of transaction t out, in one pass.
pub fn remove_of(recs: &mut [u64], t: TxnNo)
    ensures { recs.new ≡ padded (length recs.old) 0 (keep (other_rec t.0) recs.old) }
{
    keep(recs, 0, |p| txn_of(*p) != t);
}
