// Reads a torn record file from standard input, writes the records that are whole, and says which bytes it skipped.
#![tactic(auto)]

use jobs::Job;

fn main(rt: HostRuntime) {
    filter::run(&rt, Job::Salvage);
}
