// The calls on a plan. A plan is its record and its lists as the last call left them; its holder lends both
// to each call. The three lists are lent one by one: of `&mut` lists in a struct no contract says what they
// hold when the call ends.
#![tactic(auto)]

mod inner;

ghost use Rattle.std.specs.Prelude.{ℕ, List, false, ◌≡◌};
ghost use Rattle.model.specs.Calls as model;
ghost use Rattle.plan.specs.Calls.{Called, Changes, Leaves, Grows, Locates, left};
ghost use Rattle.plan_record.specs.Plan.{lists_short};

use footprint::block_of;
use inner::{add_region, create_test, grow_test, lists_short, rotate, step_at, stretch};
use numbers::Refusal;
use plan_record::{Plan, Reply};
use sort::pair::{Pair, put_pair};

// Creates a region with no extents; its two header blocks stand at the byte that is answered.
pub fn create(
    plan: &mut Plan,
    extents: &mut [u64],
    starts: &mut [u64],
    files: &mut [u64],
    id: u64,
    tag: u32,
    name: &[u8],
) -> Reply
    ensures { Leaves plan.old (model.create id tag name.now) extents.old starts.old files.old extents.new starts.new files.new (left result plan.new) }
{
    if lists_short(extents.len(), starts.len(), files.len()) {
        return Err(Refusal::Lists);
    }
    created(plan, extents, id, tag, name)
}

fn created(plan: &mut Plan, extents: &[u64], id: u64, tag: u32, name: &[u8]) -> Reply
    ensures { (ss fs : List ℕ) → Called plan.old (model.create id tag name.now) extents.now ss fs extents.now ss fs (left result plan.new) }
{
    create_test(plan, id, tag, name)?;
    let two = 2 * block_of(plan.limits.log2_block);
    let at = plan.place(two, extents)?.ok_or(Refusal::NoRoom)?;
    plan.accounts.count_usage(tag, 0, two)?;
    add_region(plan, id, tag, name, at);
    Ok(Some(at))
}

// Gives a region one extent more, at the byte that is answered.
pub fn grow(
    plan: &mut Plan,
    extents: &mut [u64],
    starts: &mut [u64],
    files: &mut [u64],
    id: u64,
) -> Reply
    ensures { Grows plan.old (model.grow id) id extents.old starts.old files.old extents.new starts.new files.new (left result plan.new) }
{
    if lists_short(extents.len(), starts.len(), files.len()) {
        return Err(Refusal::Lists);
    }
    grown(plan, extents, starts, files, id)
}

fn grown(
    plan: &mut Plan,
    extents: &mut [u64],
    starts: &mut [u64],
    files: &mut [u64],
    id: u64,
) -> Reply
    requires { lists_short extents.old starts.old files.old ≡ false }
    ensures { Grows plan.old (model.grow id) id extents.old starts.old files.old extents.new starts.new files.new (left result plan.new) }
{
    let i = plan.find(id).ok_or(Refusal::Unknown)?;
    let region = plan.regions[i];
    let n = region.extent_count;
    let len = step_at(n) * block_of(plan.limits.log2_block);
    grow_test(plan, i, len)?;
    let at = plan.place(len, extents)?.ok_or(Refusal::NoRoom)?;
    let mut accounts = plan.accounts;
    accounts.count_usage(region.tag, 0, len)?;
    let a = 60 * region.own_row();
    let b = a + 60;
    let map = region.map;
    let next = map.extend(at, len, &mut starts[a..b], &mut files[a..b])?;
    put_pair(
        extents,
        a + n,
        Pair {
            left: at,
            right: len,
        },
    );
    plan.regions[i] = stretch(region, next, at, len);
    plan.accounts = accounts;
    Ok(Some(at))
}

// Publishes the first len bytes of a region.
pub fn publish(plan: &mut Plan, id: u64, len: u64) -> Reply
    ensures { Changes plan.old (model.publish id len) (left result plan.new) }
{
    let i = plan.find(id).ok_or(Refusal::Unknown)?;
    let mut region = plan.regions[i];
    if len % block_of(region.log2_block) != 0 {
        return Err(Refusal::NoMultiple);
    }
    let map = region.map;
    let next = map.publish_len(len)?;
    plan.accounts
        .count_usage(region.tag, next.len.saturating_sub(map.len), 0)?;
    region.map = next;
    plan.regions[i] = region;
    Ok(None)
}

// Sets a tag's cap, or clears it.
pub fn cap(plan: &mut Plan, tag: u32, limit: Option<u64>) -> Reply
    ensures { Changes plan.old (model.cap tag limit) (left result plan.new) }
{
    plan.accounts.limit(tag, limit)?;
    Ok(None)
}

// Drops a region: its bytes are free for the next call.
pub fn drop(
    plan: &mut Plan,
    extents: &mut [u64],
    starts: &mut [u64],
    files: &mut [u64],
    id: u64,
) -> Reply
    ensures { Leaves plan.old (model.drop id) extents.old starts.old files.old extents.new starts.new files.new (left result plan.new) }
{
    if lists_short(extents.len(), starts.len(), files.len()) {
        return Err(Refusal::Lists);
    }
    dropped(plan, id)
}

fn dropped(plan: &mut Plan, id: u64) -> Reply
    ensures { Changes plan.old (model.drop id) (left result plan.new) }
{
    let i = plan.find(id).ok_or(Refusal::Unknown)?;
    let region = plan.regions[i];
    let two = 2 * block_of(plan.limits.log2_block);
    let held = region.map.capacity.saturating_add(two);
    plan.accounts
        .uncount_usage(region.tag, region.map.len, held)?;
    rotate(plan, i);
    Ok(None)
}

// The byte of position pos of a region, where the n bytes from there are published and lie in one run.
pub fn locate(plan: &Plan, starts: &[u64], files: &[u64], id: u64, pos: u64, n: u64) -> Reply
    ensures { Locates plan.now id pos n starts.now files.now result }
{
    if starts.len() < 3840 || files.len() < 3840 {
        return Err(Refusal::Lists);
    }
    let i = plan.find(id).ok_or(Refusal::Unknown)?;
    let region = plan.regions[i];
    let a = 60 * region.own_row();
    let b = a + 60;
    let map = region.map;
    let byte = map.locate(&starts[a..b], &files[a..b], pos, n)?;
    Ok(Some(byte))
}
