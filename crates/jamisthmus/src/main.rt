// jamisthmus: the program on an engineer's desk. It quotes texts for a shell, reads quoted texts back, lists scripts,
// checks templates, and replays journals of calls.
#![tactic(auto)]

mod command;
mod input;
mod quoting_commands;
mod reading_commands;
mod replay;
mod runs;
mod sheets;

use command::{ABOUT, ABOUT_ALL, Command, QUOTING, REST, REST_ALL};
use quoting_commands::{quote, unquote};
use reading_commands::{check, list};
use replay::replay;
use std::process::ExitCode;

fn run(rt: &HostRuntime) -> anyhow::Result<()> {
    match command::parse(rt)? {
        Command::Help => print!(rt; "{ABOUT}{QUOTING}{REST}")?,
        Command::HelpAll => print!(rt; "{ABOUT_ALL}{QUOTING}{REST_ALL}")?,
        Command::Quote { style, explain } => quote(rt, style, explain)?,
        Command::Unquote { explain } => unquote(rt, explain)?,
        Command::List(text) => list(rt, &text)?,
        Command::Check(text) => check(rt, &text)?,
        Command::Replay(file) => replay(rt, &file)?,
    }
    Ok(())
}

fn main(rt: HostRuntime) -> ExitCode {
    match run(&rt) {
        Ok(()) => ExitCode::SUCCESS,
        Err(e) => {
            let _ = eprintln!(rt; "jamisthmus: {e}");
            ExitCode::FAILURE
        }
    }
}
