// Replays stored answers of the Rust, each by itself: align_up, sort_pairs, the region check, runs,
// the block log and settlement. Standard input holds cases, each as many numbers as it says, the first of
// them its module's (compare/sample writes it).
#![tactic(auto)]

mod aligned;
mod checked;
mod chosen;
mod joined;
mod settled;
mod sorted;

use sample::report::Replay;
use sample::{Case, report};

fn main(rt: HostRuntime) {
    let modules = [
        ("align", 1),
        ("sort", 2),
        ("checks", 3),
        ("runs", 4),
        ("layout", 5),
        ("settle", 6),
        ("of no module", 0),
    ];
    report::run(&rt, &mut Alone, &modules, "the Rust");
}

// Each case by itself.
#[derive(Drop)]
struct Alone;

impl Replay for Alone {
    fn replay(&mut self, case: Case<'_>) -> Option<bool> {
        let module = Module::try_from(case.kind).ok()?;
        Some(module.alike(case.call))
    }
}

#[derive(Clone, Copy)]
enum Module {
    Align,
    Sort,
    Checks,
    Runs,
    Layout,
    Settle,
}

impl TryFrom<u64> for Module {
    type Error = ();

    fn try_from(number: u64) -> Result<Module, ()> {
        match number {
            1 => Ok(Module::Align),
            2 => Ok(Module::Sort),
            3 => Ok(Module::Checks),
            4 => Ok(Module::Runs),
            5 => Ok(Module::Layout),
            6 => Ok(Module::Settle),
            _ => Err(()),
        }
    }
}

impl Module {
    // Whether a call's answer is the stored one.
    fn alike(self, call: &[u64]) -> bool {
        match self {
            Module::Align => aligned::alike(call),
            Module::Sort => sorted::alike(call),
            Module::Checks => checked::alike(call),
            Module::Runs => joined::alike(call),
            Module::Layout => chosen::alike(call),
            Module::Settle => settled::alike(call),
        }
    }
}
