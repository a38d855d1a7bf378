// The program `sweep`: reads standard input, one byte more than it takes at most, and writes what
// `sweep_text` answers. Where a read fails it writes nothing, where a write fails nothing more, and
// says so on standard error and ends with status 1.
#![tactic(auto)]

use std::process::ExitCode;
use streams::run;
use sweep_text::sweep_text;

fn main(rt: HostRuntime) -> ExitCode {
    run(&rt, sweep_text)
}
