// What goes from case to case, and which module replays a case.
use crate::accounts;
use crate::free::FreeState;
use crate::region::RegionState;
use accounting::Accounting;
use sample::Case;
use sample::report::Replay;

#[derive(Clone, Copy)]
enum Module {
    RegionMap,
    FreeMap,
    Accounting,
}

impl TryFrom<u64> for Module {
    type Error = ();

    fn try_from(number: u64) -> Result<Module, ()> {
        match number {
            5 => Ok(Module::RegionMap),
            7 => Ok(Module::FreeMap),
            8 => Ok(Module::Accounting),
            _ => Err(()),
        }
    }
}

#[derive(Clone, Copy)]
pub(crate) struct State {
    region: RegionState,
    free: FreeState,
    accounts: Accounting,
}

impl State {
    // The state before the first case.
    pub(crate) fn new() -> State {
        State {
            region: RegionState::new(),
            free: FreeState::new(),
            accounts: Accounting::empty(),
        }
    }
}

impl Replay for State {
    fn replay(&mut self, case: Case<'_>) -> Option<bool> {
        let alike = match Module::try_from(case.kind).ok()? {
            Module::RegionMap => self.region.replay(case.call),
            Module::FreeMap => self.free.replay(case.call),
            Module::Accounting => accounts::replay(&mut self.accounts, case.call),
        };
        Some(alike)
    }
}
