//! The command line: which words it takes, and what they ask for.
ghost use Rattle.std.specs.Prelude.{◌≡◌, false, map, [], codes, Some, IfOk, IfErr, IfSome, string_bytes};
ghost use Rattle.clap.specs.Faults.{fault_of};
ghost use Rattle.clap.specs.Kinds.{HasKind};
ghost use Rattle.clap.specs.Matches.{found_of};
ghost use Rattle.clap.specs.Simple.{app_of};
ghost use Rattle.clap.specs.Walk.{rows_of, rule_of};
ghost use Rattle.eqc_words.specs.CommandLine.{eqc_app, with_numbers, with_choices, with_files, number_rule, text_rule, names_rule, flag_rule, path_rule, number_of, all_of, rows_asked, IsAsked};

use crate::help::{
    ABOUT, ALL, ASSUME, BYTES, CELLS, CONFLICTS, EXPLAIN, FIRST, FIRST_MODEL, FORKS, INPUTS,
    LOCATE, NODES, ORDER, OUTPUT, PROGRESS, SECOND, SECOND_MODEL, USAGE, WORKERS, answers,
};
use crate::version::VERSION;
use clap::error::ErrorKind;
use clap::{Arg, ArgAction, ArgMatches, Command, Error, value_parser};
use eqc_report::Options;
use std::alloc::{AllocError, Global};

/// What the words of a command line ask for.
#[derive(Drop)]
pub struct Request<'a> {
    pub options: Options,
    /// Whether a refusal or a stop is to be explained.
    pub explain: bool,
    /// Whether it is to be told where differences begin.
    pub locate: bool,
    /// Whether it is to be shown how far the run is.
    pub progress: bool,
    /// The path of the order text.
    pub order: Option<&'a str>,
    /// The path of the assumption's text; without it, all assignments count.
    pub assume: Option<&'a str>,
    /// The names of the outputs that are compared; without one, all are.
    pub outputs: Vec<&'a [u8]>,
    /// The name of the first model that is compared; without it, the place decides.
    pub first_model: Option<&'a str>,
    /// The name of the second.
    pub second_model: Option<&'a str>,
    /// The path of the first text; without it, standard input is read.
    pub first: Option<&'a str>,
    /// The path of the second text.
    pub second: Option<&'a str>,
}

/// An option with a number.
fn number<'a>(alloc: Global, name: &'a str, default: &'a str, help: &'a str) -> Arg<'a>
    ensures rule { rule_of result ≡ number_rule name.now default.now }
    ensures own { result.global ≡ false }
{
    Arg::new(alloc, name)
        .long(name)
        .value_name("N")
        .value_parser(value_parser!(u32))
        .default_value(default)
        .help(help)
}

/// A path without an option's name.
fn path<'a>(alloc: Global, name: &'a str, help: &'a str) -> Arg<'a>
    ensures rule { rule_of result ≡ path_rule name.now }
    ensures own { result.global ≡ false }
{
    Arg::new(alloc, name).value_name("FILE").help(help)
}

/// An option with a text, which the help shows as `shown`.
fn text<'a>(alloc: Global, name: &'a str, shown: &'a str, help: &'a str) -> Arg<'a>
    ensures rule { rule_of result ≡ text_rule name.now }
    ensures own { result.global ≡ false }
{
    Arg::new(alloc, name)
        .long(name)
        .value_name(shown)
        .help(help)
}

/// An option with a name, which may be given as often as wanted.
fn names<'a>(alloc: Global, name: &'a str, help: &'a str) -> Arg<'a>
    ensures rule { rule_of result ≡ names_rule name.now }
    ensures own { result.global ≡ false }
{
    text(alloc, name, "NAME", help).action(ArgAction::Append)
}

/// An option without a value.
fn flag<'a>(alloc: Global, name: &'a str, help: &'a str) -> Arg<'a>
    ensures rule { rule_of result ≡ flag_rule name.now }
    ensures own { result.global ≡ false }
{
    Arg::new(alloc, name)
        .long(name)
        .action(ArgAction::SetTrue)
        .help(help)
}

/// A command, and the options with a number. They stand apart from the others for their proofs'
/// sake: each adds an exit.
fn with_numbers<'a>(alloc: Global, command: Command<'a>) -> Result<Command<'a>, AllocError>
    ensures { IfOk result (λ c. app_of c ≡ with_numbers (app_of command.entry)) }
{
    command
        .arg(number(alloc, "workers", "2", WORKERS))?
        .arg(number(alloc, "nodes", "65536", NODES))?
        .arg(number(alloc, "cells", "8192", CELLS))?
        .arg(number(alloc, "forks", "0", FORKS))?
        .arg(number(alloc, "conflicts", "100000", CONFLICTS))?
        .arg(number(alloc, "inputs", "2048", INPUTS))?
        .arg(number(alloc, "bytes", "16777216", BYTES))
}

/// A command, and the options that say what is compared.
fn with_choices<'a>(alloc: Global, command: Command<'a>) -> Result<Command<'a>, AllocError>
    ensures { IfOk result (λ c. app_of c ≡ with_choices (app_of command.entry)) }
{
    command
        .arg(text(alloc, "order", "FILE", ORDER))?
        .arg(text(alloc, "assume", "FILE", ASSUME))?
        .arg(flag(alloc, "all", ALL))?
        .arg(names(alloc, "output", OUTPUT))?
        .arg(text(alloc, "first-model", "NAME", FIRST_MODEL))?
        .arg(text(alloc, "second-model", "NAME", SECOND_MODEL))
}

/// A command, the options that say what is shown, and the files.
fn with_files<'a>(alloc: Global, command: Command<'a>) -> Result<Command<'a>, AllocError>
    ensures { IfOk result (λ c. app_of c ≡ with_files (app_of command.entry)) }
{
    command
        .arg(flag(alloc, "explain", EXPLAIN))?
        .arg(flag(alloc, "locate", LOCATE))?
        .arg(flag(alloc, "progress", PROGRESS))?
        .arg(path(alloc, "first", FIRST))?
        .arg(path(alloc, "second", SECOND))
}

/// The command line of the program; its help ends with `answers`.
fn command<'a>(alloc: Global, answers: &'a str) -> Result<Command<'a>, AllocError>
    ensures { IfOk result (λ c. app_of c ≡ eqc_app) }
{
    let command = Command::new(alloc, "eqc")
        .version(VERSION)
        .about(ABOUT)
        .override_usage(USAGE)
        .after_help(answers);
    let command = with_numbers(alloc, command)?;
    let command = with_choices(alloc, command)?;
    with_files(alloc, command)
}

/// The number of an option.
fn number_given(matches: &ArgMatches<'_>, name: &str) -> Option<u32>
    ensures { IfSome result (λ n. number_of name.now (rows_of (found_of matches.now)) ≡ Some n) }
{
    matches.get_one(name)
}

/// The bytes of texts. Fails where memory is refused.
fn bytes_of_all<'a>(alloc: Global, given: &[&'a str]) -> Result<Vec<&'a [u8]>, AllocError>
    ensures { IfOk result (λ all. map (λ s. s.now) all.items ≡ map (λ s. s.now) given.now) }
{
    let mut all = Vec::with_capacity(alloc, given.len())?;
    for value in given {
        all.push(value.as_bytes())?;
    }
    Ok(all)
}

/// All values of an option. Fails where memory is refused.
fn all_given<'a>(
    alloc: Global,
    matches: &ArgMatches<'a>,
    name: &str,
) -> Result<Vec<&'a [u8]>, AllocError>
    ensures { IfOk result (λ all. map (λ s. s.now) all.items ≡ all_of name.now (rows_of (found_of matches.now))) }
{
    match matches.get_strs(name) {
        Some(given) => bytes_of_all(alloc, given),
        None => Ok(Vec::new(alloc)),
    }
}

/// What the words ask for, with these names of outputs.
fn request_of<'a>(matches: &ArgMatches<'a>, outputs: Vec<&'a [u8]>) -> Option<Request<'a>>
    requires { map (λ s. s.now) outputs.items ≡ all_of (codes "output") (rows_of (found_of matches.now)) }
    ensures { IfSome result (IsAsked (rows_of (found_of matches.now))) }
{
    Some(Request {
        options: Options {
            workers: number_given(matches, "workers")?,
            nodes: number_given(matches, "nodes")?,
            cells: number_given(matches, "cells")?,
            forks: number_given(matches, "forks")?,
            conflicts: number_given(matches, "conflicts")?,
            inputs: number_given(matches, "inputs")?,
            bytes: number_given(matches, "bytes")?,
            every: matches.get_flag("all"),
        },
        explain: matches.get_flag("explain"),
        locate: matches.get_flag("locate"),
        progress: matches.get_flag("progress"),
        order: matches.get_str("order"),
        assume: matches.get_str("assume"),
        outputs,
        first_model: matches.get_str("first-model"),
        second_model: matches.get_str("second-model"),
        first: matches.get_str("first"),
        second: matches.get_str("second"),
    })
}

/// Reads a command line whose help ends with `answers`.
fn read_with<'a>(alloc: Global, answers: &'a str, words: &'a [String]) -> Result<Request<'a>, Error>
    ensures taken { IfOk result (λ _. fault_of eqc_app (map string_bytes words.now) ≡ []) }
    ensures asked { IfOk result (IsAsked (rows_asked (map string_bytes words.now))) }
    ensures refused { IfErr result (HasKind (fault_of eqc_app (map string_bytes words.now))) }
{
    let matches = command(alloc, answers)?.try_get_matches_from(words)?;
    let outputs = all_given(alloc, &matches, "output")?;
    match request_of(&matches, outputs) {
        Some(request) => Ok(request),
        // Each number has a default and has passed its parser, so none is missing.
        None => Err(Error::from(AllocError)),
    }
}

/// The text that only the help shows, or an empty one where memory was refused for it: the help is
/// shown without.
fn shown(text: &Result<String, AllocError>) -> &str {
    match text {
        Ok(text) => text.as_str(),
        Err(_) => "",
    }
}

/// What words come to that ask for help: the help, whole. Its text is made for these alone.
fn whole_help(alloc: Global, words: &[String]) -> Error
    ensures { HasKind (fault_of eqc_app (map string_bytes words.now)) result }
{
    let answers = answers(alloc);
    match read_with(alloc, shown(&answers), words) {
        Err(error) => error,
        // The same words asked for help before.
        Ok(_) => Error::from(AllocError),
    }
}

/// Reads a command line, the program's name first. A bad one, a request for help or the version and
/// want of memory are errors.
pub fn read_words<'a>(alloc: Global, words: &'a [String]) -> Result<Request<'a>, Error>
    ensures taken { IfOk result (λ _. fault_of eqc_app (map string_bytes words.now) ≡ []) }
    ensures asked { IfOk result (IsAsked (rows_asked (map string_bytes words.now))) }
    ensures refused { IfErr result (HasKind (fault_of eqc_app (map string_bytes words.now))) }
{
    let error = match read_with(alloc, "", words) {
        Ok(request) => return Ok(request),
        Err(error) => error,
    };
    if error.kind() == ErrorKind::DisplayHelp {
        return Err(whole_help(alloc, words));
    }
    Err(error)
}
