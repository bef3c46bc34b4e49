//! The program again, for a stored run over the folders of two packages that are refused together
//! (`data`, `args`, `status`).
#![tactic(auto)]

use query_tool::start;
use std::process::ExitCode;

fn main(rt: HostRuntime) -> ExitCode {
    ExitCode::from(start(&rt).code())
}
