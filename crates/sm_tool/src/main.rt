//! The program: signed Byzantine agreement, run from standard input to standard output.
#![tactic(auto)]

mod built;

use gen_program::Built;
use std::process::ExitCode;

fn main(rt: HostRuntime) -> ExitCode {
    let built = Built {
        commit: built::COMMIT,
        kit: built::KIT,
        sources: built::SOURCES,
    };
    ExitCode::from(gen_program::run(&rt, &built))
}
