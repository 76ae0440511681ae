// The plan for callers in C and Rust, whose memory it stands in. Nothing is decided here: each function calls
// the plan, and promises what the call does of the plan that the container's numbers stand for.
#![tactic(auto)]

mod readers;

ghost use Rattle.std.specs.Prelude.{◌≡◌, cond, is_ok};
ghost use Rattle.flat.specs.Flat.{cap_from};
ghost use Rattle.flat_plan.specs.Plan.{plan_from, flat_plan, flat_reply};
ghost use Rattle.flat_plan.specs.Record.{records_from};
ghost use Rattle.fundravai.specs.Flat.{limits_of, FlatReplied, FlatCalled, FlatOpened, SameLists};
ghost use Rattle.model.specs.Calls as model;
ghost use Rattle.plan.specs.Calls.{Changes, Leaves, Grows, Locates};
ghost use Rattle.plan_open.specs.Open.{opening_of, Opens};

use flat::cap_from;
use flat_plan::{FlatPlan, FlatRecord, FlatReply};
use footprint::Limits;
use plan_record::{Plan, Reply};

// A plan's record as numbers, with the lists that are lent to its calls: 64 rows of 60 places.
#[repr(C)]
pub struct Container {
    pub plan: FlatPlan,
    pub extents: [u64; 7680],
    pub starts: [u64; 3840],
    pub files: [u64; 3840],
}

// Writes an accepted call's plan as numbers, and nothing where it was refused; the reply is handed on. Not
// inlined, the plan is copied twice more.
#[inline(always)]
fn write_back(flat: &mut FlatPlan, plan: Plan, reply: Reply) -> FlatReply
    ensures told { result ≡ flat_reply reply }
    ensures plan { flat.new ≡ cond (is_ok reply) (flat_plan plan) flat.old }
{
    if reply.is_ok() {
        flat.write(&plan);
    }
    reply.into()
}

// Opens a container: its limits, its records, and the extents that their headers list, one record's after
// another's.
#[unsafe(no_mangle)]
pub extern "C" fn fundravai_open(
    c: &mut Container,
    log2_block: u8,
    table_end: u64,
    file_len: u64,
    records: &[FlatRecord],
    listed: &[u64],
    scratch: &mut [u64],
) -> FlatReply
    ensures { FlatOpened (Opens (opening_of (limits_of log2_block table_end file_len) (records_from records.now) listed.now scratch.old c.old.extents c.old.starts c.old.files) c.old.extents c.new.extents c.old.starts c.new.starts c.old.files c.new.files) c.old c.new result }
{
    let limits = Limits {
        log2_block,
        table_end,
        file_len,
    };
    let outcome = flat_plan::open(
        limits,
        records,
        listed,
        scratch,
        &mut c.extents,
        &mut c.starts,
        &mut c.files,
    );
    write_back(&mut c.plan, outcome.plan, outcome.reply)
}

// Creates a region.
#[tactic(auto, using(crate::proofs::Writing::leaves_written))]
#[unsafe(no_mangle)]
pub extern "C" fn fundravai_create(c: &mut Container, id: u64, tag: u32, name: &[u8]) -> FlatReply
    ensures { FlatCalled (Leaves (plan_from c.old.plan) (model.create id tag name.now) c.old.extents c.old.starts c.old.files c.new.extents c.new.starts c.new.files) c.old c.new result }
{
    let mut plan = Plan::blank();
    c.plan.fill(&mut plan);
    let reply = plan::create(
        &mut plan,
        &mut c.extents,
        &mut c.starts,
        &mut c.files,
        id,
        tag,
        name,
    );
    write_back(&mut c.plan, plan, reply)
}

// Gives a region one extent more.
#[tactic(auto, using(crate::proofs::Writing::grow_written))]
#[unsafe(no_mangle)]
pub extern "C" fn fundravai_grow(c: &mut Container, id: u64) -> FlatReply
    ensures { FlatCalled (Grows (plan_from c.old.plan) (model.grow id) id c.old.extents c.old.starts c.old.files c.new.extents c.new.starts c.new.files) c.old c.new result }
{
    let mut plan = Plan::blank();
    c.plan.fill(&mut plan);
    let reply = plan::grow(&mut plan, &mut c.extents, &mut c.starts, &mut c.files, id);
    write_back(&mut c.plan, plan, reply)
}

// Publishes the first len bytes of a region.
#[tactic(auto, using(crate::proofs::Writing::changes_written))]
#[unsafe(no_mangle)]
pub extern "C" fn fundravai_publish(c: &mut Container, id: u64, len: u64) -> FlatReply
    ensures called { FlatCalled (Changes (plan_from c.old.plan) (model.publish id len)) c.old c.new result }
    ensures lists { SameLists c.old c.new }
{
    let mut plan = Plan::blank();
    c.plan.fill(&mut plan);
    let reply = plan::publish(&mut plan, id, len);
    write_back(&mut c.plan, plan, reply)
}

// Drops a region.
#[tactic(auto, using(crate::proofs::Writing::leaves_written))]
#[unsafe(no_mangle)]
pub extern "C" fn fundravai_drop(c: &mut Container, id: u64) -> FlatReply
    ensures { FlatCalled (Leaves (plan_from c.old.plan) (model.drop id) c.old.extents c.old.starts c.old.files c.new.extents c.new.starts c.new.files) c.old c.new result }
{
    let mut plan = Plan::blank();
    c.plan.fill(&mut plan);
    let reply = plan::drop(&mut plan, &mut c.extents, &mut c.starts, &mut c.files, id);
    write_back(&mut c.plan, plan, reply)
}

// Sets a tag's cap, or clears it. The cap is two numbers: whether there is one, and the limit, else any.
#[tactic(auto, using(crate::proofs::Writing::changes_written))]
#[unsafe(no_mangle)]
pub extern "C" fn fundravai_cap(c: &mut Container, tag: u32, capped: bool, limit: u64) -> FlatReply
    ensures called { FlatCalled (Changes (plan_from c.old.plan) (model.cap tag (cap_from capped limit))) c.old c.new result }
    ensures lists { SameLists c.old c.new }
{
    let mut plan = Plan::blank();
    c.plan.fill(&mut plan);
    let reply = plan::cap(&mut plan, tag, cap_from(capped, limit));
    write_back(&mut c.plan, plan, reply)
}

// The byte of position pos of a region, where the n bytes from there are published and lie in one run.
#[unsafe(no_mangle)]
pub extern "C" fn fundravai_locate(c: &Container, id: u64, pos: u64, n: u64) -> FlatReply
    ensures { FlatReplied (Locates (plan_from c.now.plan) id pos n c.now.starts c.now.files) result }
{
    let mut plan = Plan::blank();
    c.plan.fill(&mut plan);
    plan::locate(&plan, &c.starts, &c.files, id, pos, n).into()
}
