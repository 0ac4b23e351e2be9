//! Judges reports of running components against a CSP specification.
#![tactic(auto)]

use command_line::{run, tell_no_memory, words_of};
use std::process::ExitCode;

fn main(rt: HostRuntime) -> ExitCode {
    let mut errors = rt.stderr();
    let status = match words_of(&rt, rt.alloc()) {
        Ok(words) => run(
            &rt,
            words.as_slice(),
            &mut rt.stdin(),
            &mut rt.stdout(),
            &mut errors,
        ),
        Err(_) => tell_no_memory(&mut errors),
    };
    ExitCode::from(status)
}
