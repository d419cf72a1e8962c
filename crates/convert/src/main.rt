// Reads records from standard input to its end, and prints the line of each and the counts.
#![tactic(auto)]

use jobs::Job;

fn main(rt: HostRuntime) {
    filter::run(&rt, Job::Convert);
}
