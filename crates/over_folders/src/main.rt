//! The program again, for a stored run of `query` over the folders of two packages (`data`,
//! `args`).
#![tactic(auto)]

use query_tool::start;
use std::process::ExitCode;

fn main(rt: HostRuntime) -> ExitCode {
    ExitCode::from(start(&rt).code())
}
