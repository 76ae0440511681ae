// Replays stored answers of the model, document 01's plan written in Rust, to opens and calls one after
// another on a plan. Standard input holds cases, each as many numbers as it says, the first of them its
// call's (compare/sample writes it).
#![tactic(auto)]

mod call;
mod figures;
mod look;
mod opening;
mod state;

use sample::report;
use state::State;

fn main(rt: HostRuntime) {
    let calls = [
        ("open", 1),
        ("create", 2),
        ("grow", 3),
        ("publish", 4),
        ("drop", 5),
        ("cap", 6),
        ("locate", 7),
        ("region", 8),
        ("of no call", 0),
    ];
    report::run(&rt, &mut State::new(), &calls, "the model");
}
