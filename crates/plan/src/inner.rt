// What the calls on a plan are made of.
ghost use Rattle.std.specs.Prelude.{◌||◌, ◌≡◌, ◌<◌, ◌≤◌, ◌/◌, ltb, length};
ghost use Rattle.numbers.specs.Refusals.{refusal_in};
ghost use Rattle.numbers.specs.Sums.{top};
ghost use Rattle.plan_record.specs.Plan.{regions_of};
ghost use Rattle.model.specs.Calls.{step};
ghost use Rattle.plan.specs.Inner.{rotated, stretched, fresh, CreateTested, GrowTested, Adds, len_at};

use footprint::{RegionKind, block_of};
use numbers::Refusal;
use plan_record::names::Name;
use plan_record::{Plan, Region};
use regionmap::RegionMap;

// How many blocks an extent has, by how many there are already: it doubles with every second one. Document
// 01 asks for the constant list.
const STEPS: [u64; 24] = [
    16, 16, 32, 32, 64, 64, 128, 128, 256, 256, 512, 512, 1024, 1024, 2048, 2048, 4096, 4096, 8192,
    8192, 16384, 16384, 32768, 32768,
];

// The step of a region that has n extents; the last one is kept.
pub(crate) fn step_at(n: usize) -> u64
    ensures { (result ≡ step n) × (result ≤ 32768) }
{
    STEPS[n.min(23)]
}

// A region with an extent of n bytes more at the byte at, and its map.
pub(crate) fn stretch(mut region: Region, map: RegionMap, at: u64, n: u64) -> Region
    requires { region.extent_count < 60 }
    ensures { result ≡ stretched region map at n }
{
    region.span_start = region.span_start.min(at);
    region.span_end = region.span_end.max(at.saturating_add(n));
    region.extent_count += 1;
    region.map = map;
    region
}

// A region that was just created in a row, with its header blocks at the byte at.
pub(crate) fn make(
    row: usize,
    id: u64,
    tag: u32,
    name: Name,
    log2: u8,
    at: u64,
    block: u64,
    seq: u64,
) -> Region
    requires { block ≤ 65536 }
    ensures { result ≡ fresh row id tag name log2 at block seq }
{
    Region {
        number: id,
        tag,
        name,
        kind: RegionKind::Append,
        flags: 0,
        log2_block: log2,
        header_a: at,
        header_b: at.saturating_add(block),
        span_start: at,
        span_end: at.saturating_add(2 * block),
        footprint_seq: seq,
        extent_count: 0,
        row,
        map: RegionMap {
            first: 0,
            len: 0,
            capacity: 0,
            count: 0,
            room: 60,
        },
    }
}

// Whether a list has fewer places than 64 rows.
pub(crate) fn lists_short(extents: usize, starts: usize, files: usize) -> bool
    ensures { result ≡ (ltb (extents / 2) 3840 || ltb starts 3840 || ltb files 3840) }
{
    extents / 2 < 3840 || starts < 3840 || files < 3840
}

// Takes the region at place i out of the plan: those behind it move up, and its row is free. No `rotate_left`: it calls
// memmove, which an archive for C would ask of its user.
pub(crate) fn rotate(plan: &mut Plan, i: usize)
    requires { i < length (regions_of plan.old) }
    ensures { plan.new ≡ rotated plan.old i }
{
    let last = plan.counted() - 1;
    let gone = plan.regions[i];
    for j in i..last {
        plan.regions[j] = plan.regions[j + 1];
    }
    plan.regions[last] = gone;
    plan.count = last;
}

// Why create is refused before room is looked for, if it is.
pub(crate) fn create_test(plan: &Plan, id: u64, tag: u32, name: &[u8]) -> Result<(), Refusal>
    ensures { CreateTested plan.now id tag name.now (refusal_in result) }
{
    if name.len() > 24 {
        return Err(Refusal::Lists);
    }
    if plan.find(id).is_some() {
        return Err(Refusal::NumberHeld);
    }
    if plan.named(name) {
        return Err(Refusal::NameHeld);
    }
    if plan.counted() >= 64 {
        return Err(Refusal::Full);
    }
    let two = 2 * block_of(plan.limits.log2_block);
    let fits = plan.accounts.allows(tag, two)?;
    if plan.last == u64::MAX {
        return Err(Refusal::LastNumber);
    }
    if !fits {
        return Err(Refusal::OverCap);
    }
    Ok(())
}

// Why growing the region at place i is refused before room is looked for, if it is.
pub(crate) fn grow_test(plan: &Plan, i: usize, len: u64) -> Result<(), Refusal>
    requires { (i < 64) × (i < length (regions_of plan.now)) × (len ≡ len_at plan.now i) }
    ensures { GrowTested plan.now i (refusal_in result) }
{
    let region = plan.regions[i];
    if region.kind == RegionKind::Slot {
        return Err(Refusal::SlotGrows);
    }
    if region.extent_count >= 60 {
        return Err(Refusal::Full);
    }
    let fits = plan.accounts.allows(region.tag, len)?;
    if !fits {
        return Err(Refusal::OverCap);
    }
    Ok(())
}

// Gives the plan a region more, in the next free row, its header blocks at the byte at.
pub(crate) fn add_region(plan: &mut Plan, id: u64, tag: u32, name: &[u8], at: u64)
    requires { (length (regions_of plan.old) < 64) × (plan.old.last ≡ top → ⊥) × (length name.now ≤ 24) }
    ensures { Adds plan.old id tag name.now at plan.new }
{
    let count = plan.counted();
    let row = plan.regions[count].row;
    let seq = plan.last + 1;
    plan.regions[count] = make(
        row,
        id,
        tag,
        Name::of(name),
        plan.limits.log2_block,
        at,
        block_of(plan.limits.log2_block),
        seq,
    );
    plan.count = count + 1;
    plan.last = seq;
}
