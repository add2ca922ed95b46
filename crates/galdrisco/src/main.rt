// The command line: checks tree files, shows what they hold, looks terms up in them and counts jobs.
#![tactic(auto)]

use std::process::ExitCode;

mod answers;
mod commands;
mod depths;
mod questions;
mod sheets;
mod text;
mod trees;
mod trouble;

fn main(rt: HostRuntime) -> ExitCode {
    match commands::run(&rt) {
        Ok(status) => status,
        Err(error) => {
            // Where this cannot be written either, the status alone tells it.
            let _ = eprintln!(rt; "galdrisco: {error}");
            ExitCode::FAILURE
        }
    }
}
