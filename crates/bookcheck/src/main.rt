//! bookcheck FILE: prints how many conditions a book has, and for each its truth through a day.
#![tactic(auto)]

use files::print_made;
use std::process::ExitCode;
use timetables::print_book;

fn main(rt: HostRuntime) -> ExitCode {
    print_made(&rt, "bookcheck", print_book)
}
