// Plans and numbers that are lent: nothing is copied on the way.
ghost use Rattle.std.specs.Prelude.{◌≡◌, length};
ghost use Rattle.flat_plan.specs.Plan.{plan_from, flat_plan};
ghost use Rattle.flat_plan.specs.Lent.{Turned};
ghost use Rattle.plan_record.specs.Plan.{blank_plan};

use crate::FlatPlan;
use footprint::Limits;
use plan_record::Plan;

// Turns each item of a list into the item at the same place of another, as far as both go.
pub(crate) fn turn<A: Copy, B: Copy + From<A>>(from: &[A], to: &mut [B])
    ensures { Turned B.from_gives from.now to.old to.new }
{
    for i in 0..from.len().min(to.len()) {
        to[i] = B::from(from[i]);
    }
}

impl FlatPlan {
    // Writes the plan that the numbers stand for over a blank one.
    pub fn fill(&self, plan: &mut Plan)
        ensures { plan.old ≡ blank_plan → plan.new ≡ plan_from self.now }
    {
        plan.limits = Limits {
            log2_block: self.log2_block,
            table_end: self.table_end,
            file_len: self.file_len,
        };
        plan.last = self.last;
        plan.count = self.count;
        turn(&self.regions, &mut plan.regions);
        turn(&self.accounts.rows, &mut plan.accounts.rows);
        plan.accounts.count = self.accounts.count;
        plan.accounts.reserved = self.accounts.reserved;
    }

    // Writes a plan as numbers. Of a plan that is lent, its caller knows that its arrays are full.
    pub fn write(&mut self, plan: &Plan)
        ensures { length plan.now.regions ≡ 64 → length plan.now.accounts.rows ≡ 96 → self.new ≡ flat_plan plan.now }
    {
        self.log2_block = plan.limits.log2_block;
        self.table_end = plan.limits.table_end;
        self.file_len = plan.limits.file_len;
        self.last = plan.last;
        self.count = plan.count;
        turn(&plan.regions, &mut self.regions);
        turn(&plan.accounts.rows, &mut self.accounts.rows);
        self.accounts.count = plan.accounts.count;
        self.accounts.reserved = plan.accounts.reserved;
    }
}
