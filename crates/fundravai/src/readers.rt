// What is read of a container.
ghost use Rattle.flat_plan.specs.Plan.{plan_from};
ghost use Rattle.plan_record.specs.Promises.{HeldTold, FreeTold, LogicalTold, PhysicalTold, LastTold, CountTold, Hands};
ghost use Rattle.fundravai.specs.Flat.{FlatHands};

use crate::Container;
use flat_plan::{FlatRecord, FlatReply};
use plan_record::{Plan, Reply};

// The bytes that the regions hold.
#[unsafe(no_mangle)]
pub extern "C" fn fundravai_held(c: &Container) -> u64
    ensures { HeldTold (plan_from c.now.plan) result }
{
    let mut plan = Plan::blank();
    c.plan.fill(&mut plan);
    plan.held()
}

// The bytes behind the table that none holds.
#[unsafe(no_mangle)]
pub extern "C" fn fundravai_free(c: &Container) -> u64
    ensures { FreeTold (plan_from c.now.plan) result }
{
    let mut plan = Plan::blank();
    c.plan.fill(&mut plan);
    plan.free()
}

// The published bytes of a tag's regions, 0 for an unknown tag.
#[unsafe(no_mangle)]
pub extern "C" fn fundravai_logical(c: &Container, tag: u32) -> u64
    ensures { LogicalTold (plan_from c.now.plan) tag result }
{
    let mut plan = Plan::blank();
    c.plan.fill(&mut plan);
    plan.logical(tag)
}

// The bytes that a tag's regions hold, 0 for an unknown tag.
#[unsafe(no_mangle)]
pub extern "C" fn fundravai_physical(c: &Container, tag: u32) -> u64
    ensures { PhysicalTold (plan_from c.now.plan) tag result }
{
    let mut plan = Plan::blank();
    c.plan.fill(&mut plan);
    plan.physical(tag)
}

// The last sequence number.
#[unsafe(no_mangle)]
pub extern "C" fn fundravai_last_number(c: &Container) -> u64
    ensures { LastTold (plan_from c.now.plan) result }
{
    let mut plan = Plan::blank();
    c.plan.fill(&mut plan);
    plan.last_number()
}

// How many regions there are.
#[unsafe(no_mangle)]
pub extern "C" fn fundravai_region_count(c: &Container) -> usize
    ensures { CountTold (plan_from c.now.plan) result }
{
    let mut plan = Plan::blank();
    c.plan.fill(&mut plan);
    plan.region_count()
}

// The region at place i as open's own record, and its extents in out. A refused call writes neither.
#[unsafe(no_mangle)]
pub extern "C" fn fundravai_region(
    c: &Container,
    i: usize,
    filed: &mut FlatRecord,
    out: &mut [u64],
) -> FlatReply
    ensures { FlatHands (Hands (plan_from c.now.plan) i c.now.extents out.old out.new) filed.old filed.new result }
{
    let mut plan = Plan::blank();
    c.plan.fill(&mut plan);
    match plan.region(i, &c.extents, out) {
        Ok(region) => {
            *filed = region.into();
            Reply::Ok(None).into()
        }
        Err(refusal) => Reply::Err(refusal).into(),
    }
}
