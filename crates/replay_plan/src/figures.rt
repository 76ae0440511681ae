// What is seen of a plan after a call: the answer (0 done, 1 and a byte, 2 and a refusal), held and free,
// the last number, how many regions there are, and a tag's logical and physical totals.
use flat_plan::FlatReply;
use plan_record::{Plan, Reply};

pub(crate) fn alike(plan: &Plan, reply: Reply, tag: u32, due: &[u64]) -> bool {
    let told = FlatReply::from(reply);
    let numbers = [
        u64::from(told.kind),
        told.value,
        plan.held(),
        plan.free(),
        plan.last_number(),
        plan.region_count() as u64,
        plan.logical(tag),
        plan.physical(tag),
    ];
    numbers.as_slice() == due
}
