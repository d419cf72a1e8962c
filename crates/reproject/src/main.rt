// Reads records from standard input to its end, and writes each with its place, where it is one of kind 3 or 4, brought from the row
// that the kind had to the one that it has.
#![tactic(auto)]

use jobs::Job;

fn main(rt: HostRuntime) {
    filter::run(&rt, Job::Reproject);
}
