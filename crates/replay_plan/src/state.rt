// What goes from case to case, and which function replays a case.
use crate::{call, look, opening};
use plan_record::Plan;
use sample::Case;
use sample::report::Replay;

#[derive(Clone, Copy)]
pub(crate) enum Kind {
    Open,
    Create,
    Grow,
    Publish,
    Drop,
    Cap,
    Locate,
    Region,
}

impl TryFrom<u64> for Kind {
    type Error = ();

    fn try_from(number: u64) -> Result<Kind, ()> {
        match number {
            1 => Ok(Kind::Open),
            2 => Ok(Kind::Create),
            3 => Ok(Kind::Grow),
            4 => Ok(Kind::Publish),
            5 => Ok(Kind::Drop),
            6 => Ok(Kind::Cap),
            7 => Ok(Kind::Locate),
            8 => Ok(Kind::Region),
            _ => Err(()),
        }
    }
}

// The plan, and the lists that are lent with it: 64 rows each, and eight numbers behind them.
#[derive(Clone, Copy)]
pub(crate) struct State {
    pub(crate) plan: Plan,
    pub(crate) extents: [u64; 7688],
    pub(crate) starts: [u64; 3848],
    pub(crate) files: [u64; 3848],
}

impl State {
    // The state before the first case.
    pub(crate) fn new() -> State {
        State {
            plan: Plan::blank(),
            extents: [7; 7688],
            starts: [7; 3848],
            files: [7; 3848],
        }
    }
}

impl Replay for State {
    fn replay(&mut self, case: Case<'_>) -> Option<bool> {
        let alike = match Kind::try_from(case.kind).ok()? {
            Kind::Open => opening::replay(self, case.call),
            Kind::Region => look::alike(self, case.call),
            kind => call::replay(self, kind, case.call),
        };
        Some(alike)
    }
}
