//! The program once more, run with no words: its stored status shows that a status reaches whoever started it.
#![tactic(auto)]

use dcpi_host::serve_process;
use std::process::ExitCode;

fn main(rt: HostRuntime) -> ExitCode {
    ExitCode::from(serve_process(&rt, &rt))
}
