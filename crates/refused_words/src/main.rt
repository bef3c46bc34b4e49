//! The program again, for a stored run whose words name no folder (`args`, `status`). It reports
//! them on standard error, and writes nothing to standard output.
#![tactic(auto)]

use query_tool::start;
use std::process::ExitCode;

fn main(rt: HostRuntime) -> ExitCode {
    ExitCode::from(start(&rt).code())
}
