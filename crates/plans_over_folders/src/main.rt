//! The program again, for a stored run that prints plans over the folder of a package (`data`,
//! `args`).
#![tactic(auto)]

use query_tool::start;
use std::process::ExitCode;

fn main(rt: HostRuntime) -> ExitCode {
    ExitCode::from(start(&rt).code())
}
