// The examples of the pool's calls, of size kinds and of priorities, run by the proved calls. Each call is written with what it answers; the file
// `stdout` has what is expected.
#![tactic(auto)]

mod blocks;
mod examples;
mod kinds;
mod priorities;
mod refusals;
mod script;
mod show;
mod start;
mod waiters;

fn main() {
    examples::run();
    refusals::run();
    waiters::run();
    blocks::run();
    kinds::run();
    priorities::run();
}
