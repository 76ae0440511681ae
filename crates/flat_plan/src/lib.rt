// A plan as flat numbers, and a plan from them.
#![tactic(auto)]

mod lent;
mod opening;
mod record;
mod region;

ghost use Rattle.std.specs.Prelude.{◌≡◌};
ghost use Rattle.flat_plan.specs.Plan.{plan_from, flat_plan, flat_reply, flat_outcome};

use flat::FlatAccounting;
use lent::turn;
pub use opening::open;
use plan_record::{Outcome, Plan, Region, Reply};
pub use record::FlatRecord;
pub use region::FlatRegion;

#[repr(C)]
#[derive(Clone, Copy)]
pub struct FlatPlan {
    pub log2_block: u8,
    pub table_end: u64,
    pub file_len: u64,
    pub last: u64,
    pub count: usize,
    pub regions: [FlatRegion; 64],
    pub accounts: FlatAccounting,
}

// What a call answers: 0 where it is done, 1 and a byte, or 2 and document 01's refusal, since C reads
// numbers.
#[repr(C)]
#[derive(Clone, Copy)]
pub struct FlatReply {
    pub kind: u8,
    pub value: u64,
}

// The same beside the plan.
#[repr(C)]
#[derive(Clone, Copy)]
pub struct FlatOutcome {
    pub kind: u8,
    pub value: u64,
    pub plan: FlatPlan,
}

impl From<FlatPlan> for Plan {
    ghost from_gives = { λ flat r. r ≡ plan_from flat };

    // No `map` of the regions, here and below: it clears and copies them all.
    fn from(flat: FlatPlan) -> Plan {
        let mut plan = Plan::blank();
        flat.fill(&mut plan);
        plan
    }
}

impl From<Plan> for FlatPlan {
    ghost from_gives = { λ plan r. r ≡ flat_plan plan };

    fn from(plan: Plan) -> FlatPlan {
        let limits = plan.limits;
        let mut flat = FlatPlan {
            log2_block: limits.log2_block,
            table_end: limits.table_end,
            file_len: limits.file_len,
            last: plan.last,
            count: plan.count,
            regions: [FlatRegion::from(Region::blank(0)); 64],
            accounts: plan.accounts.into(),
        };
        turn(&plan.regions, &mut flat.regions);
        flat
    }
}

impl From<Reply> for FlatReply {
    ghost from_gives = { λ reply r. r ≡ flat_reply reply };

    fn from(reply: Reply) -> FlatReply {
        match reply {
            Ok(Some(at)) => FlatReply { kind: 1, value: at },
            Ok(None) => FlatReply { kind: 0, value: 0 },
            Err(refusal) => FlatReply {
                kind: 2,
                value: refusal.number(),
            },
        }
    }
}

impl From<Outcome> for FlatOutcome {
    ghost from_gives = { λ outcome r. r ≡ flat_outcome outcome };

    fn from(outcome: Outcome) -> FlatOutcome {
        let told = FlatReply::from(outcome.reply);
        FlatOutcome {
            kind: told.kind,
            value: told.value,
            plan: outcome.plan.into(),
        }
    }
}
