//! The command line.
ghost use Rattle.std.specs.Prelude.{◌≡◌, false, map, codes, option_and_then, IfOk};
ghost use Rattle.clap.specs.Words.{app_of, found_of, rows_of, rule_of, subcommand_rows_of};
ghost use Rattle.clap.specs.declared.builder.command.Command.TheViews.{out-Command};
ghost use Rattle.command_words.specs.Program.{nodes, program, with_workers, workers};
ghost use Rattle.command_words.specs.Asked.{words_request, gen_in, nodes_in, request_of, workers_in};

use crate::number::number;
use crate::request::Request;
use clap::error::ErrorKind;
use clap::{Arg, ArgMatches, Command};
use std::alloc::{AllocError, Global};

/// What the words ask for, those of the command line after the program's name: None exactly where
/// they are none of its forms.
pub fn asked(alloc: Global, words: &[&str]) -> Result<Option<Request>, AllocError>
    ensures { IfOk result (λ request. request ≡ words_request (map (λ w. w.now) words.now)) }
{
    let command = command(alloc)?;
    match command.try_get_matches_from(words) {
        Ok(matches) => Ok(requested(&matches)),
        Err(error) => match error.kind() {
            ErrorKind::OutOfMemory => Err(AllocError),
            _ => Ok(None),
        },
    }
}

/// `--workers`, with a number from 0 to 16.
fn workers_option<'a>(alloc: Global) -> Arg<'a>
    ensures rule { rule_of result ≡ workers }
    ensures local { result.global ≡ false }
{
    Arg::new(alloc, "workers")
        .long("workers")
        .value_parser(clap::value_parser!(u32).range(0..=16))
}

/// A number from 1 to 1,000.
fn nodes_number<'a>(alloc: Global) -> Arg<'a>
    ensures rule { rule_of result ≡ nodes }
    ensures local { result.global ≡ false }
{
    Arg::new(alloc, "nodes")
        .required(true)
        .value_parser(clap::value_parser!(u32).range(1..=1_000))
}

/// A command of this name, with workers.
fn with_workers<'a>(alloc: Global, name: &'a str) -> Result<Command<'a>, AllocError>
    ensures app { IfOk result (λ command. app_of command ≡ with_workers name.entry.now) }
    ensures local { IfOk result (λ command. (out-Command command).has_globals ≡ false) }
{
    Command::new(alloc, name).arg(workers_option(alloc))
}

/// The program's command line.
fn command<'a>(alloc: Global) -> Result<Command<'a>, AllocError>
    ensures { IfOk result (λ command. app_of command ≡ program) }
{
    let serve = with_workers(alloc, "serve")?;
    let build = with_workers(alloc, "build")?;
    let made = with_workers(alloc, "gen")?.arg(nodes_number(alloc))?;
    let bare = Command::new(alloc, "pide")
        .no_binary_name(true)
        .subcommand_required(true);
    bare.subcommand(serve)?
        .subcommand(Command::new(alloc, "replay"))?
        .subcommand(Command::new(alloc, "mirror"))?
        .subcommand(Command::new(alloc, "check"))?
        .subcommand(build)?
        .subcommand(made)
}

/// What was asked for, by the command that was used.
fn requested(matches: &ArgMatches<'_>) -> Option<Request>
    ensures { result ≡ option_and_then request_of (subcommand_rows_of matches.now) }
{
    let (name, options) = matches.subcommand()?;
    match name {
        "serve" => Some(Request::Serve {
            workers: workers(options)?,
        }),
        "replay" => Some(Request::Replay),
        "mirror" => Some(Request::Mirror),
        "check" => Some(Request::Check),
        "build" => Some(Request::Build {
            workers: workers(options)?,
        }),
        "gen" => generated(options),
        _ => None,
    }
}

/// A request for a document that is made, by its number and options.
fn generated(options: &ArgMatches<'_>) -> Option<Request>
    ensures { result ≡ gen_in (rows_of (found_of options.now)) }
{
    let nodes = nodes(options)?;
    let workers = workers(options)?;
    Some(Request::Gen { nodes, workers })
}

/// The number of nodes.
fn nodes(options: &ArgMatches<'_>) -> Option<u32>
    ensures { result ≡ nodes_in (rows_of (found_of options.now)) }
{
    number(options.get_str("nodes")?)
}

/// The number of workers.
fn workers(options: &ArgMatches<'_>) -> Option<u32>
    ensures { result ≡ workers_in (rows_of (found_of options.now)) }
{
    match options.get_str("workers") {
        Some(text) => number(text),
        None => Some(0),
    }
}
