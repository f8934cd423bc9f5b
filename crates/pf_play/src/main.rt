//! The program: texts of scenes and events in, worlds out.
#![tactic(auto)]

use pf_program::{program, words_of};
use pf_text::{Input, Output};
use std::io::{Stderr, Stdin, Stdout};
use std::process::ExitCode;

fn main(rt: HostRuntime) -> ExitCode {
    // The types keep the three streams apart.
    let mut input: Input<Stdin> = Input::new(rt.stdin());
    let mut output: Output<Stdout> = Output::new(rt.stdout());
    let mut errors: Output<Stderr> = Output::new(rt.stderr());
    program(
        rt,
        rt.alloc(),
        words_of(&rt),
        &mut input,
        &mut output,
        &mut errors,
    )
}
