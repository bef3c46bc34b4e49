//! The program `hosecrag`: it answers queries over a SNOMED CT release, one per line of standard
//! input, describes concepts, and reports the row counts of a release. `query_tool::start` does all
//! of this.
#![tactic(auto)]

use query_tool::start;
use std::process::ExitCode;

fn main(rt: HostRuntime) -> ExitCode {
    ExitCode::from(start(&rt).code())
}
