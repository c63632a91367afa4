//! cabinet FILE: puts the commands of a session file to a cabinet, and prints the answer to each.
#![tactic(auto)]

use files::print_made;
use sessions::print::print_session;
use std::process::ExitCode;

fn main(rt: HostRuntime) -> ExitCode {
    print_made(&rt, "cabinet", print_session)
}
