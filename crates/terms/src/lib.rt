// The words of the scheduler: three kinds of numbers, a transaction's row, an access record, a version, a step and its answer.
#![tactic(auto)]

ghost use Rattle.std.specs.Prelude.{◌≡◌};
ghost use Rattle.terms.specs.Words.{active, commit_at, concurrent, goes_on, number_of, paper, rec, row};

use std::error::Error;
use std::fmt;

// A transaction's number. Number 0 is the opening itself.
#[derive(Clone, Copy, Debug, Default, PartialEq, Eq, PartialOrd, Ord)]
pub struct TxnNo(pub u32);

// As an index it is widened by `as`, here and in every crate: there is no From between u32 and usize.
#[derive(Clone, Copy, Debug, PartialEq, Eq)]
pub struct ItemNo(pub u32);

// A value of the one counter that each accepted begin and each accepted commit takes the next of.
#[derive(Clone, Copy, Debug, Default, PartialEq, Eq, PartialOrd, Ord)]
pub struct Moment(pub u32);

// A transaction: its number, when it started, and when it committed (0 while it is active, and no Option: a caller lends rows of three numbers). The
// default is the row of a free place.
#[derive(Clone, Copy, Debug, Default, PartialEq, Eq)]
pub struct Row {
    pub number: TxnNo,
    pub start: Moment,
    pub commit: Moment,
}

// The kinds of an access. They are numbers and no enum: a lent record may hold any kind, and `sound` has to answer for one of another kind.
pub const READ: u32 = 1;

pub const WRITE: u32 = 2;

// An access: of a read, the word is the writer of the version seen; of a write, the value.
#[derive(Clone, Copy, Debug)]
pub struct Rec {
    pub txn: TxnNo,
    pub item: ItemNo,
    pub kind: u32,
    pub word: u32,
}

// A version of an item: who installed it, and its value.
#[derive(Clone, Copy, Debug, PartialEq, Eq)]
pub struct Version {
    pub writer: TxnNo,
    pub value: u32,
}

// A step of a step file. Open has the count, and all values start at 0.
#[derive(Clone, Copy, Debug, PartialEq, Eq)]
pub enum Step {
    Open(u32),
    Begin,
    Read(TxnNo, ItemNo),
    Write(TxnNo, ItemNo, u32),
    Commit(TxnNo),
    Abort(TxnNo),
    Latest(ItemNo),
}

// Why a call is refused. The refusals stand in the order of their numbers, 1 to 9.
#[derive(Clone, Copy, Debug, PartialEq, Eq)]
pub enum Refusal {
    UnsoundTables,
    UnknownItem,
    NotActive,
    NumbersUsedUp,
    RowsFull,
    RecordsFull,
    Beaten,
    ClosesRing,
    BadOpening,
}

// What a call answers: accepted with its value, or refused.
pub type Answer = Result<u32, Refusal>;

// An answer's number and value, as the rules give them and an answer's bytes have them: 10 answers no call, so the number is no Refusal.
#[derive(Clone, Copy, Debug, PartialEq, Eq)]
pub struct Given {
    pub number: u32,
    pub value: u32,
}

impl Row {
    pub fn new(number: u32, start: u32, commit: u32) -> Row
        ensures { result ≡ row number start commit }
    {
        Row {
            number: TxnNo(number),
            start: Moment(start),
            commit: Moment(commit),
        }
    }

    pub fn active(self) -> bool
        ensures { result ≡ active self }
    {
        self.commit == Moment(0)
    }

    // Takes the row and hands the committed one back.
    pub fn commit_at(self, m: Moment) -> Row
        ensures { result ≡ commit_at m.0 self }
    {
        Row { commit: m, ..self }
    }

    // Is the transaction active, or does it commit after the moment?
    fn goes_on(self, m: Moment) -> bool
        ensures { result ≡ goes_on self m.0 }
    {
        self.active() || m < self.commit
    }

    // Do both go on after the other's start? An active one is concurrent with whatever commits after its start.
    pub fn concurrent_with(self, other: Row) -> bool
        ensures { result ≡ concurrent self other }
    {
        other.goes_on(self.start) && self.goes_on(other.start)
    }
}

impl Rec {
    pub fn read(txn: TxnNo, item: ItemNo, writer: TxnNo) -> Rec
        ensures { result ≡ rec txn.0 item.0 1 writer.0 }
    {
        Rec {
            txn,
            item,
            kind: READ,
            word: writer.0,
        }
    }

    pub fn write(txn: TxnNo, item: ItemNo, value: u32) -> Rec
        ensures { result ≡ rec txn.0 item.0 2 value }
    {
        Rec {
            txn,
            item,
            kind: WRITE,
            word: value,
        }
    }
}

impl Refusal {
    pub fn number(self) -> u32
        ensures { result ≡ number_of self }
    {
        match self {
            Refusal::UnsoundTables => 1,
            Refusal::UnknownItem => 2,
            Refusal::NotActive => 3,
            Refusal::NumbersUsedUp => 4,
            Refusal::RowsFull => 5,
            Refusal::RecordsFull => 6,
            Refusal::Beaten => 7,
            Refusal::ClosesRing => 8,
            Refusal::BadOpening => 9,
        }
    }
}

impl fmt::Display for Step {
    fn fmt<W: fmt::Write>(&self, f: &mut fmt::Formatter<W>) -> fmt::Result {
        match self {
            Step::Open(count) => write!(f, "open {count}"),
            Step::Begin => f.write_str("begin"),
            Step::Read(t, i) => write!(f, "read {} {}", t.0, i.0),
            Step::Write(t, i, value) => write!(f, "write {} {} {value}", t.0, i.0),
            Step::Commit(t) => write!(f, "commit {}", t.0),
            Step::Abort(t) => write!(f, "abort {}", t.0),
            Step::Latest(i) => write!(f, "latest {}", i.0),
        }
    }
}

impl fmt::Display for Refusal {
    fn fmt<W: fmt::Write>(&self, f: &mut fmt::Formatter<W>) -> fmt::Result {
        f.write_str(match self {
            Refusal::UnsoundTables => "the tables are not sound, or not opened yet",
            Refusal::UnknownItem => "no such item",
            Refusal::NotActive => "no such active transaction",
            Refusal::NumbersUsedUp => "the numbers are used up",
            Refusal::RowsFull => "no row is free",
            Refusal::RecordsFull => "no record is free",
            Refusal::Beaten => "a concurrent writer was first",
            Refusal::ClosesRing => "the commit would close a ring",
            Refusal::BadOpening => "the opening is bad",
        })
    }
}

impl Error for Refusal {}

impl From<Answer> for Given {
    ghost from_gives = { λ a g. g ≡ paper a };

    fn from(answer: Answer) -> Given {
        match answer {
            Ok(value) => Given { number: 0, value },
            Err(refusal) => Given {
                number: refusal.number(),
                value: 0,
            },
        }
    }
}

impl fmt::Display for Given {
    fn fmt<W: fmt::Write>(&self, f: &mut fmt::Formatter<W>) -> fmt::Result {
        write!(f, "{} {}", self.number, self.value)
    }
}
