//! The program: it ends with the status of the answer to its words.
#![tactic(auto)]

use avalon_top::status_of_process;
use std::process::ExitCode;

fn main(rt: HostRuntime) -> ExitCode {
    status_of_process(&rt)
}
