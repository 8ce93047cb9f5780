// The program, whose exit status is what `pdi_run` answers.
#![tactic(auto)]

use std::process::ExitCode;

fn main(rt: HostRuntime) -> ExitCode {
    let status = program::pdi_run(&mut rt.stdin(), &mut rt.stdout(), &rt);
    ExitCode::from(status as u8)
}
