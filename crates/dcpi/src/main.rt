//! The program `dcpi`.
#![tactic(auto)]

use dcpi_host::serve_process;
use std::process::ExitCode;

fn main(rt: HostRuntime) -> ExitCode {
    ExitCode::from(serve_process(&rt, &rt))
}
