// The program `calls`: reads standard input, one byte more than it takes at most, and writes what
// `calls_text` answers. Where a read fails it writes nothing, where a write fails nothing more, and
// says so on standard error and ends with status 1.
#![tactic(auto)]

use calling::calls_text;
use std::process::ExitCode;
use streams::run;

fn main(rt: HostRuntime) -> ExitCode {
    run(&rt, calls_text)
}
