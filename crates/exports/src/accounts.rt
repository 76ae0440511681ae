// Flat functions of the accounts. A cap is two numbers: whether there is one, and the limit, else 0.
ghost use Rattle.std.specs.Prelude.{◌≡◌, get_or};
ghost use Rattle.accounting.specs.Entries.{Counts, no_tags, usages, ready_usages, differ, added_len, removed_len};
ghost use Rattle.tagspace.specs.Extent.{extent_len};
ghost use Rattle.tagspace.specs.Row.{blank, add_usage, remove_usage, reserve, unreserve, set_cap, fits};
ghost use Rattle.accounting.specs.Table.{Valid, Posts, Asks, accounts_of, table_of, on_row, reserving, unreserving, row_of};
ghost use Rattle.exports.specs.Each.{AllowsEach, AsksEach, CountRow, PostsEach, questions};
ghost use Rattle.flat.specs.Chain.{Chain};
ghost use Rattle.numbers.specs.Pairs.{pairs};
ghost use Rattle.flat.specs.Flat.{flat_of};
ghost use Rattle.exports.specs.Flat.{Flattened};
ghost use Rattle.flat.specs.Flat.{cap_from, row_from, accounts_from, flat_row, flat_accounts};
ghost use Rattle.exports.specs.Accounts.{flat_posted, flat_asked};

use accounting::{Accounting, Asked, Posted};
use flat::{FlatAccounting, FlatAnswer, FlatOption, FlatRow, cap_from};
use numbers::{Refusal, number_in};
use tagspace::TagSpace;

// An answer as a number, since C reads numbers, and the accounts.
#[repr(C)]
#[derive(Clone, Copy)]
pub struct FlatPosted {
    pub refusal: u64,
    pub accounts: FlatAccounting,
}

// The same of a question.
#[repr(C)]
#[derive(Clone, Copy)]
pub struct FlatAsked {
    pub refusal: u64,
    pub fits: bool,
    pub accounts: FlatAccounting,
}

impl From<Posted> for FlatPosted {
    ghost from_gives = { λ posted r. r ≡ flat_posted posted };

    fn from(posted: Posted) -> FlatPosted {
        FlatPosted {
            refusal: number_in(posted.answer),
            accounts: posted.accounts.into(),
        }
    }
}

impl From<Asked> for FlatAsked {
    ghost from_gives = { λ asked r. r ≡ flat_asked asked };

    fn from(asked: Asked) -> FlatAsked {
        FlatAsked {
            refusal: number_in(asked.answer),
            fits: asked.answer.unwrap_or(false),
            accounts: asked.accounts.into(),
        }
    }
}

#[unsafe(no_mangle)]
pub extern "C" fn fundravai_extent_len(size: u64, block: u64) -> FlatOption
    ensures { result ≡ flat_of (extent_len size block) }
{
    tagspace::extent_len(size, block).into()
}

#[unsafe(no_mangle)]
pub extern "C" fn fundravai_accounts_empty() -> FlatAccounting
    ensures { result ≡ flat_accounts (accounts_of no_tags) }
{
    Accounting::empty().into()
}

#[unsafe(no_mangle)]
pub extern "C" fn fundravai_accounts_from_entries(
    states: &[u8],
    tags: &[u32],
    sizes: &[u64],
    block: u64,
) -> FlatPosted
    ensures { Flattened flat_posted (Counts (differ tags.now states.now sizes.now) (ready_usages block states.now tags.now sizes.now)) result }
{
    Accounting::from_entries(states, tags, sizes, block).into()
}

#[unsafe(no_mangle)]
pub extern "C" fn fundravai_accounts_from_usage(
    tags: &[u32],
    logical: &[u64],
    physical: &[u64],
) -> FlatPosted
    ensures { Flattened flat_posted (Counts (differ tags.now logical.now physical.now) (usages tags.now logical.now physical.now)) result }
{
    Accounting::from_usage(tags, logical, physical).into()
}

#[unsafe(no_mangle)]
pub extern "C" fn fundravai_accounts_add_usage(
    flat: FlatAccounting,
    tag: u32,
    logical: u64,
    physical: u64,
) -> FlatPosted
    ensures { Flattened flat_posted (Posts (accounts_from flat) (on_row tag (add_usage logical physical))) result }
{
    Accounting::from(flat)
        .add_usage(tag, logical, physical)
        .into()
}

#[unsafe(no_mangle)]
pub extern "C" fn fundravai_accounts_remove_usage(
    flat: FlatAccounting,
    tag: u32,
    logical: u64,
    physical: u64,
) -> FlatPosted
    ensures { Flattened flat_posted (Posts (accounts_from flat) (on_row tag (remove_usage logical physical))) result }
{
    Accounting::from(flat)
        .remove_usage(tag, logical, physical)
        .into()
}

#[unsafe(no_mangle)]
pub extern "C" fn fundravai_accounts_add(
    flat: FlatAccounting,
    tag: u32,
    size: u64,
    block: u64,
) -> FlatPosted
    ensures { Flattened flat_posted (Posts (accounts_from flat) (on_row tag (add_usage size (added_len size block)))) result }
{
    Accounting::from(flat).add(tag, size, block).into()
}

#[unsafe(no_mangle)]
pub extern "C" fn fundravai_accounts_remove(
    flat: FlatAccounting,
    tag: u32,
    size: u64,
    block: u64,
) -> FlatPosted
    ensures { Flattened flat_posted (Posts (accounts_from flat) (on_row tag (remove_usage size (removed_len size block)))) result }
{
    Accounting::from(flat).remove(tag, size, block).into()
}

#[unsafe(no_mangle)]
pub extern "C" fn fundravai_accounts_fits(flat: FlatAccounting, tag: u32, extra: u64) -> FlatAsked
    ensures { Flattened flat_asked (Asks (accounts_from flat) tag extra) result }
{
    Accounting::from(flat).fits(tag, extra).into()
}

#[unsafe(no_mangle)]
pub extern "C" fn fundravai_accounts_reserve(
    flat: FlatAccounting,
    tag: u32,
    bytes: u64,
) -> FlatPosted
    ensures { Flattened flat_posted (Posts (accounts_from flat) (reserving tag bytes)) result }
{
    Accounting::from(flat).reserve(tag, bytes).into()
}

#[unsafe(no_mangle)]
pub extern "C" fn fundravai_accounts_unreserve(
    flat: FlatAccounting,
    tag: u32,
    bytes: u64,
) -> FlatPosted
    ensures { Flattened flat_posted (Posts (accounts_from flat) (unreserving tag bytes)) result }
{
    Accounting::from(flat).unreserve(tag, bytes).into()
}

#[unsafe(no_mangle)]
pub extern "C" fn fundravai_accounts_set_cap(
    flat: FlatAccounting,
    tag: u32,
    capped: bool,
    limit: u64,
) -> FlatPosted
    ensures { Flattened flat_posted (Posts (accounts_from flat) (on_row tag (set_cap (cap_from capped limit)))) result }
{
    Accounting::from(flat)
        .set_cap(tag, cap_from(capped, limit))
        .into()
}

#[unsafe(no_mangle)]
pub extern "C" fn fundravai_accounts_reserved(flat: FlatAccounting) -> u64
    ensures { result ≡ (table_of (accounts_from flat)).total }
{
    Accounting::from(flat).reserved()
}

#[unsafe(no_mangle)]
pub extern "C" fn fundravai_accounts_row(flat: FlatAccounting, tag: u32) -> FlatRow
    ensures { Valid (accounts_from flat) → result ≡ flat_row (row_of tag (table_of (accounts_from flat)).rows) }
{
    Accounting::from(flat).row(tag).into()
}

#[unsafe(no_mangle)]
pub extern "C" fn fundravai_accounts_row_at(flat: FlatAccounting, i: usize) -> FlatRow
    ensures { Valid (accounts_from flat) → result ≡ flat_row (get_or (table_of (accounts_from flat)).rows i (blank 0)) }
{
    Accounting::from(flat).row_at(i).into()
}

// One tag's row by itself.

#[unsafe(no_mangle)]
pub extern "C" fn fundravai_row_blank(tag: u32) -> FlatRow
    ensures { result ≡ flat_row (blank tag) }
{
    TagSpace::blank(tag).into()
}

#[unsafe(no_mangle)]
pub extern "C" fn fundravai_row_add_usage(flat: FlatRow, logical: u64, physical: u64) -> FlatRow
    ensures { result ≡ flat_row (add_usage logical physical (row_from flat)) }
{
    TagSpace::from(flat).add_usage(logical, physical).into()
}

#[unsafe(no_mangle)]
pub extern "C" fn fundravai_row_remove_usage(flat: FlatRow, logical: u64, physical: u64) -> FlatRow
    ensures { result ≡ flat_row (remove_usage logical physical (row_from flat)) }
{
    TagSpace::from(flat).remove_usage(logical, physical).into()
}

#[unsafe(no_mangle)]
pub extern "C" fn fundravai_row_reserve(flat: FlatRow, bytes: u64) -> FlatRow
    ensures { result ≡ flat_row (reserve bytes (row_from flat)) }
{
    TagSpace::from(flat).reserve(bytes).into()
}

#[unsafe(no_mangle)]
pub extern "C" fn fundravai_row_unreserve(flat: FlatRow, bytes: u64) -> FlatRow
    ensures { result ≡ flat_row (unreserve bytes (row_from flat)) }
{
    TagSpace::from(flat).unreserve(bytes).into()
}

#[unsafe(no_mangle)]
pub extern "C" fn fundravai_row_set_cap(flat: FlatRow, capped: bool, limit: u64) -> FlatRow
    ensures { result ≡ flat_row (set_cap (cap_from capped limit) (row_from flat)) }
{
    TagSpace::from(flat).set_cap(cap_from(capped, limit)).into()
}

#[unsafe(no_mangle)]
pub extern "C" fn fundravai_row_fits(flat: FlatRow, extra: u64) -> bool
    ensures { result ≡ fits extra (row_from flat) }
{
    TagSpace::from(flat).fits(extra)
}

#[unsafe(no_mangle)]
pub extern "C" fn fundravai_row_count_usage(flat: &mut FlatRow, logical: u64, physical: u64)
    ensures { flat.new ≡ flat_row (add_usage logical physical (row_from flat.old)) }
{
    let mut row = TagSpace::from(*flat);
    row.count_usage(logical, physical);
    *flat = row.into();
}

#[unsafe(no_mangle)]
pub extern "C" fn fundravai_row_uncount_usage(flat: &mut FlatRow, logical: u64, physical: u64)
    ensures { flat.new ≡ flat_row (remove_usage logical physical (row_from flat.old)) }
{
    let mut row = TagSpace::from(*flat);
    row.uncount_usage(logical, physical);
    *flat = row.into();
}

// The next six are for the benchmark, where putting the accounts into flat numbers and back would cost
// more than a posting.

// Whether three lists of usages differ in length.
#[tactic(auto, unfolding(accounting::specs::Entries::differ))]
fn uneven(tags: &[u32], logical: &[u64], physical: &[u64]) -> bool
    ensures { result ≡ differ tags.now logical.now physical.now }
{
    tags.len() != logical.len() || tags.len() != physical.len()
}

// What is handed back where they do: the accounts as they came.
fn lists_refused(accounts: FlatAccounting) -> FlatPosted
    ensures { result ≡ record { refusal = 1; accounts = accounts } }
{
    FlatPosted {
        refusal: Refusal::Lists.number(),
        accounts,
    }
}

// Adds or removes each usage in turn, which a flag says, since C has no closure; hands back what the last
// posting does.
#[tactic(auto, using(accounting::proofs::Counting::usages_next, accounting::proofs::Counting::usages_end, accounting::proofs::Counting::differ_second, accounting::proofs::Counting::differ_third))]
#[unsafe(no_mangle)]
pub extern "C" fn fundravai_accounts_post_each(
    flat: FlatAccounting,
    remove: bool,
    tags: &[u32],
    logical: &[u64],
    physical: &[u64],
) -> FlatPosted
    ensures { PostsEach (differ tags.now logical.now physical.now) remove (usages tags.now logical.now physical.now) flat (accounts_from flat) result }
{
    if uneven(tags, logical, physical) {
        return lists_refused(flat);
    }
    let mut posted = Posted {
        answer: Ok(()),
        accounts: flat.into(),
    };
    for i in 0..tags.len() {
        // no `posted = if`: it copies the accounts once more
        if remove {
            posted = posted
                .accounts
                .remove_usage(tags[i], logical[i], physical[i]);
        } else {
            posted = posted.accounts.add_usage(tags[i], logical[i], physical[i]);
        }
    }
    posted.into()
}

// The same by postings in accounts that are lent, and stay where they are.
#[tactic(auto, using(accounting::proofs::Counting::usages_next, accounting::proofs::Counting::usages_end, accounting::proofs::Counting::differ_second, accounting::proofs::Counting::differ_third))]
#[unsafe(no_mangle)]
pub extern "C" fn fundravai_accounts_count_each(
    flat: FlatAccounting,
    remove: bool,
    tags: &[u32],
    logical: &[u64],
    physical: &[u64],
) -> FlatPosted
    ensures { PostsEach (differ tags.now logical.now physical.now) remove (usages tags.now logical.now physical.now) flat (accounts_from flat) result }
{
    if uneven(tags, logical, physical) {
        return lists_refused(flat);
    }
    let mut accounts = Accounting::from(flat);
    let mut answer = Ok(());
    for i in 0..tags.len() {
        answer = if remove {
            accounts.uncount_usage(tags[i], logical[i], physical[i])
        } else {
            accounts.count_usage(tags[i], logical[i], physical[i])
        };
    }
    Posted { answer, accounts }.into()
}

// Asks for each tag in turn; answers the last refusal, and how many fit.
#[tactic(auto, using(accounting::proofs::Counting::differ_second))]
#[unsafe(no_mangle)]
pub extern "C" fn fundravai_accounts_fits_each(
    flat: FlatAccounting,
    tags: &[u32],
    extra: &[u64],
) -> FlatAnswer
    ensures { AsksEach (differ tags.now extra.now extra.now) (questions tags.now extra.now) (accounts_from flat) result }
{
    if tags.len() != extra.len() {
        return Err::<u64, _>(Refusal::Lists).into();
    }
    let mut asked = Asked {
        answer: Ok(false),
        accounts: flat.into(),
    };
    let mut fit = 0;
    for (&tag, &bytes) in tags.iter().zip(extra) {
        asked = asked.accounts.fits(tag, bytes);
        fit += asked.answer.unwrap_or(false) as u64;
    }
    FlatAnswer {
        refusal: number_in(asked.answer),
        value: fit,
    }
}

// The same questions in accounts that stay where they are, which make no row; answers how many fit.
#[tactic(auto, using(accounting::proofs::Counting::differ_second))]
#[unsafe(no_mangle)]
pub extern "C" fn fundravai_accounts_allows_each(
    flat: FlatAccounting,
    tags: &[u32],
    extra: &[u64],
) -> u64
    ensures { AllowsEach (differ tags.now extra.now extra.now) (questions tags.now extra.now) (accounts_from flat) result }
{
    if tags.len() != extra.len() {
        return 0;
    }
    let accounts = Accounting::from(flat);
    let mut fit = 0u64;
    for i in 0..tags.len() {
        fit += accounts.allows(tags[i], extra[i]).unwrap_or(false) as u64;
    }
    fit
}

// Counts usages, each its data bytes and those that it occupies, on a row that is lent.
#[tactic(auto, using(crate::proofs::Chaining::chunk_next, crate::proofs::Chaining::chunks_end, numbers::proofs::Chunks::chunk_pairs))]
#[unsafe(no_mangle)]
pub extern "C" fn fundravai_row_count_each(flat: &mut FlatRow, usages: &[u64])
    ensures { Flattened flat_row (Chain CountRow (pairs usages.now) (row_from flat.old)) flat.new }
{
    let mut row = TagSpace::from(*flat);
    let (usages, _) = usages.as_chunks::<2>();
    for &[logical, physical] in usages {
        row.count_usage(logical, physical);
    }
    *flat = row.into();
}

// The same on a row by value.
#[tactic(auto, using(crate::proofs::Chaining::chunk_next, crate::proofs::Chaining::chunks_end, numbers::proofs::Chunks::chunk_pairs))]
#[unsafe(no_mangle)]
pub extern "C" fn fundravai_row_add_each(flat: FlatRow, usages: &[u64]) -> FlatRow
    ensures { Flattened flat_row (Chain CountRow (pairs usages.now) (row_from flat)) result }
{
    let mut row = TagSpace::from(flat);
    let (usages, _) = usages.as_chunks::<2>();
    for &[logical, physical] in usages {
        row = row.add_usage(logical, physical);
    }
    row.into()
}
