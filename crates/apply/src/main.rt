//! The program `apply`: plans a configuration, carries out the plan and writes the state.
#![tactic(auto)]

use std::io;
use std::process::ExitCode;
use tf_cli_files::run;
use tf_cli_options::Program;
use tf_recovery::apply;

fn main(rt: HostRuntime) -> io::Result<ExitCode> {
    run(
        &rt,
        Program::Apply,
        &mut rt.stdout(),
        &mut rt.stderr(),
        |options, out, err| apply(&rt, &rt, options, out, err),
    )
}
