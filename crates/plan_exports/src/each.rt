// Calls one after another, for the benchmark: a plan as flat numbers and back costs more than most calls.
ghost use Rattle.flat_plan.specs.Plan.{plan_from};
ghost use Rattle.plan.specs.Calls.{left};
ghost use Rattle.plan_exports.specs.Each.{Calls, CallsEach, LocatesEach};

use flat_plan::{FlatPlan, FlatReply};
use plan_record::{Plan, Reply};

// How many calls were accepted, what the last one answered, and the plan as it left it.
#[repr(C)]
#[derive(Clone, Copy)]
pub struct FlatEach {
    pub accepted: u64,
    pub last: FlatReply,
    pub plan: FlatPlan,
}

// One call, by a code, since the codes come from C: 0 is create, 1 grow, 2 publish, whose length is the
// number, and any other drop.
#[tactic(auto, using(crate::proofs::Coding::by_create, crate::proofs::Coding::by_grow, crate::proofs::Coding::by_publish, crate::proofs::Coding::by_drop))]
fn call(
    plan: &mut Plan,
    extents: &mut [u64],
    starts: &mut [u64],
    files: &mut [u64],
    code: u64,
    id: u64,
    number: u64,
    tag: u32,
    name: &[u8],
) -> Reply
    ensures { Calls code id number tag name.now plan.old extents.old starts.old files.old extents.new starts.new files.new (left result plan.new) }
{
    match code {
        0 => plan::create(plan, extents, starts, files, id, tag, name),
        1 => plan::grow(plan, extents, starts, files, id),
        2 => plan::publish(plan, id, number),
        _ => plan::drop(plan, extents, starts, files, id),
    }
}

// Makes each call on the plan as the last one left it; regions are created with this tag and name.
// None is made where ids or numbers has too few places.
#[tactic(auto, using(crate::proofs::Chaining::codeds_next, crate::proofs::Chaining::codeds_end))]
#[unsafe(no_mangle)]
pub extern "C" fn fundravai_plan_call_each(
    flat: FlatPlan,
    extents: &mut [u64],
    starts: &mut [u64],
    files: &mut [u64],
    codes: &[u64],
    ids: &[u64],
    numbers: &[u64],
    tag: u32,
    name: &[u8],
) -> FlatEach
    ensures { CallsEach tag name.now codes.now ids.now numbers.now flat extents.old starts.old files.old extents.new starts.new files.new result }
{
    if ids.len() < codes.len() || numbers.len() < codes.len() {
        return FlatEach {
            accepted: 0,
            last: Reply::Ok(None).into(),
            plan: flat,
        };
    }
    let mut plan = Plan::from(flat);
    let mut accepted = 0;
    let mut last = Reply::Ok(None);
    for (i, &code) in codes.iter().enumerate() {
        let reply = call(
            &mut plan, extents, starts, files, code, ids[i], numbers[i], tag, name,
        );
        accepted += reply.is_ok() as u64;
        last = reply;
    }
    FlatEach {
        accepted,
        last: last.into(),
        plan: plan.into(),
    }
}

// Locates each position of its region, and answers how many were located. The byte, or the refusal's
// number, goes to its place in bytes. Nothing is asked where positions or bytes has too few places.
#[tactic(auto, using(crate::proofs::Chaining::askeds_next, crate::proofs::Chaining::askeds_end))]
#[unsafe(no_mangle)]
pub extern "C" fn fundravai_plan_locate_each(
    flat: FlatPlan,
    starts: &[u64],
    files: &[u64],
    ids: &[u64],
    positions: &[u64],
    n: u64,
    bytes: &mut [u64],
) -> u64
    ensures { LocatesEach (plan_from flat) starts.now files.now n ids.now positions.now bytes.old bytes.new result }
{
    if positions.len() < ids.len() || bytes.len() < ids.len() {
        return 0;
    }
    let plan = Plan::from(flat);
    let mut located = 0;
    for (i, &id) in ids.iter().enumerate() {
        let told = FlatReply::from(plan::locate(&plan, starts, files, id, positions[i], n));
        bytes[i] = told.value;
        located += (told.kind == 1) as u64;
    }
    located
}
