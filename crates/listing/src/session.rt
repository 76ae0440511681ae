// The plan that lines are asked of.
ghost use Rattle.std.specs.Prelude.{true, false, Some, None, ◌≡◌, option_map};
ghost use Rattle.footprint.specs.declared.Limits.{Limits};
ghost use Rattle.line.specs.Command.{opening};
ghost use Rattle.line.specs.Meaning.{command_of};
ghost use Rattle.model.specs.Calls.{at_shown};
ghost use Rattle.plan_record.specs.Plan.{reply_of};
ghost use Rattle.listing.specs.Session.{Begins, Asks, Figures, Answers};

use footprint::Limits;
use line::{Answer, Command, read};
use numbers::{Refusal, number_in};
use plan_open::Opening;
use plan_record::{Outcome, Plan, Reply};

// The plan and its lists, once a line has opened it. Lists have 64 rows of 60 places.
#[derive(Drop)]
pub struct Session {
    pub plan: Plan,
    pub opened: bool,
    pub extents: [u64; 7680],
    pub starts: [u64; 3840],
    pub files: [u64; 3840],
}

impl Session {
    // Before the first line.
    pub fn new() -> Session
        ensures { Begins result }
    {
        Session {
            plan: Plan::blank(),
            opened: false,
            extents: [0; 7680],
            starts: [0; 3840],
            files: [0; 3840],
        }
    }

    // Opens a container with no records.
    fn open(&mut self, limits: Limits) -> Reply
        ensures { self.old.opened ≡ false → Asks self.old (Some (opening limits)) self.new result }
    {
        let opening = Opening {
            limits,
            records: &[],
            listed: &[],
        };
        let Outcome { reply, plan } = plan_open::open(
            opening,
            &mut [],
            &mut self.extents,
            &mut self.starts,
            &mut self.files,
        );
        if reply.is_ok() {
            self.plan = plan;
            self.opened = true;
        }
        reply
    }

    // A call on the plan that is open.
    fn call(&mut self, command: Command<'_>) -> Reply
        ensures { self.old.opened ≡ true → Asks self.old (Some (command_of command.entry)) self.new result }
    {
        match command {
            Command::Open(_) => Err(Refusal::Malformed),
            Command::Create { id, tag, name } => plan::create(
                &mut self.plan,
                &mut self.extents,
                &mut self.starts,
                &mut self.files,
                id,
                tag,
                name,
            ),
            Command::Grow { id } => plan::grow(
                &mut self.plan,
                &mut self.extents,
                &mut self.starts,
                &mut self.files,
                id,
            ),
            Command::Publish { id, len } => plan::publish(&mut self.plan, id, len),
            Command::Drop { id } => plan::drop(
                &mut self.plan,
                &mut self.extents,
                &mut self.starts,
                &mut self.files,
                id,
            ),
            Command::Cap { tag, limit } => plan::cap(&mut self.plan, tag, limit),
            Command::Locate { id, pos, n } => {
                plan::locate(&self.plan, &self.starts, &self.files, id, pos, n)
            }
        }
    }

    // A line before a plan is open.
    fn early(&mut self, command: Command<'_>) -> Reply
        ensures { self.old.opened ≡ false → Asks self.old (Some (command_of command.entry)) self.new result }
    {
        if let Command::Open(limits) = command {
            return self.open(limits);
        }
        Err(Refusal::Malformed)
    }

    // What a line asks, or none.
    fn ask(&mut self, command: Option<Command<'_>>) -> Reply
        ensures { Asks self.old (option_map command_of command.entry) self.new result }
    {
        match command {
            None => Err(Refusal::Malformed),
            Some(command) if self.opened => self.call(command),
            Some(command) => self.early(command),
        }
    }

    // Held and free bytes, 0 before a plan is open.
    fn figures(&self) -> (u64, u64)
        ensures { Figures self.now result.0 result.1 }
    {
        if !self.opened {
            return (0, 0);
        }
        self.plan.held_and_free()
    }

    // Answers a line.
    pub fn answer(&mut self, line: &[u8]) -> Answer
        ensures { Answers self.old line.now self.new result }
    {
        let reply = self.ask(read(line));
        let (held, free) = self.figures();
        Answer {
            refusal: number_in(reply),
            at: byte_in(reply),
            held,
            free,
        }
    }
}

// The byte placed or located, else 0.
fn byte_in(reply: Reply) -> u64
    ensures { result ≡ at_shown (reply_of reply) }
{
    match reply {
        Ok(Some(at)) => at,
        _ => 0,
    }
}
