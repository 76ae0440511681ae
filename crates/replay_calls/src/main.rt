// Replays stored answers of the Rust to calls one after another, on a region map, a free map and
// accounts. Standard input holds cases, each as many numbers as it says, the first of them its module's
// (compare/sample writes it).
#![tactic(auto)]

mod accounts;
mod free;
mod region;
mod state;

use sample::report;
use state::State;

fn main(rt: HostRuntime) {
    let modules = [
        ("regionmap", 5),
        ("freemap", 7),
        ("accounting", 8),
        ("of no module", 0),
    ];
    report::run(&rt, &mut State::new(), &modules, "the Rust");
}
