// Records and answers as flat numbers, for the crates that export functions: an exported function takes no enum and no `Option`.
#![tactic(auto)]

ghost use Rattle.std.specs.Prelude.{◌≡◌};
ghost use Rattle.flat.specs.Flat.{kind_of, cap_from, row_from, accounts_from, flat_row, flat_accounts, flat_of, flat_answer, flat_told};

use accounting::Accounting;
use footprint::RegionKind;
use numbers::{Refusal, number_in};
use tagspace::TagSpace;

// A tag's row. Without a cap, capped is false and cap 0.
#[repr(C)]
#[derive(Clone, Copy)]
pub struct FlatRow {
    pub tag: u32,
    pub capped: bool,
    pub logical: u64,
    pub physical: u64,
    pub reserved: u64,
    pub cap: u64,
}

#[repr(C)]
#[derive(Clone, Copy)]
pub struct FlatAccounting {
    pub rows: [FlatRow; 96],
    pub count: usize,
    pub reserved: u64,
}

// The kind that has a number in the table; Append where none has. No `From`: neither type is of this crate.
pub fn kind_of(code: u8) -> RegionKind
    ensures { result ≡ kind_of code }
{
    RegionKind::try_from(u64::from(code)).unwrap_or(RegionKind::Append)
}

// No `From`: neither type is of this crate.
pub fn cap_from(capped: bool, limit: u64) -> Option<u64>
    ensures { result ≡ cap_from capped limit }
{
    capped.then_some(limit)
}

impl From<FlatRow> for TagSpace {
    ghost from_gives = { λ row r. r ≡ row_from row };

    fn from(row: FlatRow) -> TagSpace {
        TagSpace {
            tag: row.tag,
            logical: row.logical,
            physical: row.physical,
            reserved: row.reserved,
            cap: cap_from(row.capped, row.cap),
        }
    }
}

impl From<FlatAccounting> for Accounting {
    ghost from_gives = { λ flat r. r ≡ accounts_from flat };

    // No `map` of the rows, here and below: it clears and copies them all.
    fn from(flat: FlatAccounting) -> Accounting {
        let mut accounts = Accounting::empty();
        for i in 0..96 {
            accounts.rows[i] = flat.rows[i].into();
        }
        accounts.count = flat.count;
        accounts.reserved = flat.reserved;
        accounts
    }
}

impl From<TagSpace> for FlatRow {
    ghost from_gives = { λ row r. r ≡ flat_row row };

    fn from(row: TagSpace) -> FlatRow {
        FlatRow {
            tag: row.tag,
            capped: row.cap.is_some(),
            logical: row.logical,
            physical: row.physical,
            reserved: row.reserved,
            cap: row.cap.unwrap_or(0),
        }
    }
}

impl From<Accounting> for FlatAccounting {
    ghost from_gives = { λ accounts r. r ≡ flat_accounts accounts };

    fn from(accounts: Accounting) -> FlatAccounting {
        let blank = FlatRow::from(TagSpace::blank(0));
        let mut flat = FlatAccounting {
            rows: [blank; 96],
            count: accounts.count,
            reserved: accounts.reserved,
        };
        for i in 0..96 {
            flat.rows[i] = accounts.rows[i].into();
        }
        flat
    }
}

// A number or none: some is 1 or 0, and value is 0 where there is none. Numbers, since C reads them.
#[repr(C)]
#[derive(Clone, Copy)]
pub struct FlatOption {
    pub some: u64,
    pub value: u64,
}

// Document 01's refusal and 0, or 0 and a value; numbers, since C reads them.
#[repr(C)]
#[derive(Clone, Copy)]
pub struct FlatAnswer {
    pub refusal: u64,
    pub value: u64,
}

impl From<Option<u64>> for FlatOption {
    ghost from_gives = { λ found r. r ≡ flat_of found };

    fn from(found: Option<u64>) -> FlatOption {
        FlatOption {
            some: found.is_some() as u64,
            value: found.unwrap_or(0),
        }
    }
}

impl From<Result<u64, Refusal>> for FlatAnswer {
    ghost from_gives = { λ answer r. r ≡ flat_told answer };

    fn from(answer: Result<u64, Refusal>) -> FlatAnswer {
        FlatAnswer {
            refusal: number_in(answer),
            value: answer.unwrap_or(0),
        }
    }
}

// Not generic with the one above: a usize is no `Into<u64>`.
impl From<Result<usize, Refusal>> for FlatAnswer {
    ghost from_gives = { λ answer r. r ≡ flat_told answer };

    fn from(answer: Result<usize, Refusal>) -> FlatAnswer {
        answer.map(|n| n as u64).into()
    }
}
