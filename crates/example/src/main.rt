//! The example of README.md, which uses the crates as a library; and the machine of one account by
//! itself.
#![tactic(auto)]

mod fault;
mod machine;
mod quota;

use crate::fault::Fault;
use crate::machine::first_answers;
use crate::quota::quota_of_alice;
use input_lines::print_answer;
use std::io::Write;
use std::process::ExitCode;

/// Prints what is answered: alice's quota, and then a line for each event of the machine.
fn main(rt: HostRuntime) -> ExitCode {
    match print_answers(&rt) {
        Ok(()) => ExitCode::SUCCESS,
        Err(fault) => {
            let _ = writeln!(rt.stderr(), "example: {fault}");
            ExitCode::FAILURE
        }
    }
}

/// Runs both examples, and prints their replies.
fn print_answers(rt: &HostRuntime) -> Result<(), Fault> {
    let quota = quota_of_alice(rt.alloc())?;
    print_answer(&mut rt.stdout(), Some(&quota))?;
    for reply in first_answers(rt.alloc())?.iter() {
        print_answer(&mut rt.stdout(), Some(reply))?;
    }
    Ok(())
}
