//! The program `plan`: prints the plan of a configuration.
#![tactic(auto)]

use std::io;
use std::process::ExitCode;
use tf_cli_files::run;
use tf_cli_options::Program;
use tf_recovery::plan;

fn main(rt: HostRuntime) -> io::Result<ExitCode> {
    run(
        &rt,
        Program::Plan,
        &mut rt.stdout(),
        &mut rt.stderr(),
        |options, out, err| plan(&rt, options, out, err),
    )
}
