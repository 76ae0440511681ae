// A caller of the plan. The position theorem stands in specs/Position.antt.
#![tactic(auto)]

ghost use Rattle.position.specs.Caller.{Drives};
ghost use Rattle.plan_open.specs.Open.{opening_from};

use plan::{create, drop, grow, locate, publish};
use plan_open::{Opening, open};
use plan_record::{Plan, Reply};

// What each call answered, and the plan as the last one left it.
#[derive(Clone, Copy)]
pub struct Driven {
    pub opened: Reply,
    pub created: Reply,
    pub grown: Reply,
    pub published: Reply,
    pub located: Reply,
    pub dropped: Reply,
    pub plan: Plan,
}

// Opens a container, creates a region in it, grows it, publishes its first len bytes, locates the
// position pos and drops it again.
pub fn drive(
    opening: Opening<'_>,
    scratch: &mut [u64],
    extents: &mut [u64],
    starts: &mut [u64],
    files: &mut [u64],
    id: u64,
    tag: u32,
    name: &[u8],
    len: u64,
    pos: u64,
) -> Driven
    ensures { Drives (opening_from opening.entry scratch.old extents.old starts.old files.old) id tag name.now len pos extents.new result }
{
    let outcome = open(opening, scratch, extents, starts, files);
    let opened = outcome.reply;
    let mut plan = outcome.plan;
    let created = create(&mut plan, extents, starts, files, id, tag, name);
    let grown = grow(&mut plan, extents, starts, files, id);
    let published = publish(&mut plan, id, len);
    let located = locate(&plan, starts, files, id, pos, 1);
    let dropped = drop(&mut plan, extents, starts, files, id);
    Driven {
        opened,
        created,
        grown,
        published,
        located,
        dropped,
        plan,
    }
}
