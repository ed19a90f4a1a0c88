// An access record as one number: 16 bits for the transaction, 8 for the item, 8 for the kind, 32 for the word. So the order of records is that of their numbers.
#![tactic(auto)]

ghost use Rattle.std.specs.Prelude.{◌≡◌, ◌<◌, ◌/◌, ◌^◌};
ghost use Rattle.rules.specs.Raw.{pack, unpack};
ghost use Rattle.terms.specs.Words.{is_read, is_write, item, txn};

use terms::{ItemNo, READ, Rec, TxnNo, WRITE};

// As many items as a record can name, and as many records as a table of records has room for.
pub const ITEMS: usize = 256;

pub const RECS: usize = 256;

pub fn pack(x: Rec) -> u64
    requires { (txn x < 65536) × (item x < 256) × (x.kind < 256) }
    ensures { result ≡ pack x }
{
    ((u64::from(x.txn.0) * 256 + u64::from(x.item.0)) * 256 + u64::from(x.kind)) * 4294967296
        + u64::from(x.word)
}

// A field is narrowed by `as`, where it is proved to lose nothing.
pub fn txn_of(p: u64) -> TxnNo
    ensures { result.0 ≡ txn (unpack p) }
{
    TxnNo((p >> 48) as u32)
}

pub fn item_of(p: u64) -> ItemNo
    ensures item { result.0 ≡ item (unpack p) }
    ensures small { result.0 < 256 }
{
    ItemNo(((p >> 40) % 256) as u32)
}

pub fn kind_of(p: u64) -> u32
    ensures { result ≡ (unpack p).kind }
{
    ((p >> 32) % 256) as u32
}

pub fn word_of(p: u64) -> u32
    ensures { result ≡ (unpack p).word }
{
    (p % 4294967296) as u32
}

pub fn is_read(p: u64) -> bool
    ensures { result ≡ is_read (unpack p) }
{
    kind_of(p) == READ
}

pub fn is_write(p: u64) -> bool
    ensures { result ≡ is_write (unpack p) }
{
    kind_of(p) == WRITE
}

// Transaction, item and kind, by which records are ordered.
pub fn key_of(p: u64) -> u64
    ensures { result ≡ p / 2 ^ 32 }
{
    p >> 32
}
