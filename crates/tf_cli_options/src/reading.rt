//! Reading of a command line.

ghost use Rattle.std.specs.Prelude.{◌≡◌, ◌≤◌, false, IfOk, IfSome, codes, map, option_and_then, option_map, string_bytes};
ghost use Rattle.clap.specs.Words.{FailsBy, app_of, fault_of, first_of, found_of, matches_of, one_of, rows_of, rule_of};
ghost use Rattle.tf_cli_options.specs.Command.{apply_app, AreForms, default_rule, Forms, flag_rule, graph_rule, option_rule, options_app, plan_app, repeated_rule, shared_app, stop_rule, workers_rule};
ghost use Rattle.tf_cli_options.specs.Reads.{IsFlag, IsStop, IsWorkers, Reads, form_named, given_or};

use crate::sources::sources_in;
use crate::texts::texts_of;
use crate::words::{GraphForm, Options, Program};
use clap::{Arg, ArgAction, ArgMatches, Command, Error};
use std::alloc::{AllocError, Global};

const CONFIG: &str = "main.tf.json";

const STATE: &str = "terraform.tfstate";

const DOT: &str = "dot";

const LINEAGE: &str = "00000000-0000-0000-0000-000000000000";

/// The version that `--version` prints. `./bixundor --version` reads it here.
const VERSION: &str = "0.1.0";

/// The forms in which `--graph` prints the order.
const FORMS: [&str; 1] = [DOT];

/// Reads the words of a program's command line, the program's name first. Fails with `clap`'s error if it refuses the
/// words, if they ask for help or for the version, or if memory runs out.
pub fn options(alloc: Global, program: Program, words: &[String]) -> Result<Options, Error>
    ensures reads { IfOk result (λ o. (forms : Forms) × AreForms forms × Reads o (matches_of (options_app program forms) (map (λ w. string_bytes w) words.now))) }
    ensures workers { IfOk result (λ o. (1 ≤ o.parallelism) × (o.parallelism ≤ 64)) }
    ensures stop { IfOk result (λ o. IfSome o.stop_after (λ n. n ≤ 2000)) }
    ensures refuses { (forms : Forms) × AreForms forms × FailsBy (fault_of (options_app program forms) (map (λ w. string_bytes w) words.now)) result }
{
    let forms = FORMS;
    let matches = parsed(alloc, program, &forms, words)?;
    Ok(options_in(alloc, &matches)?)
}

fn parsed<'a>(
    alloc: Global,
    program: Program,
    forms: &'a [&'a str],
    words: &'a [String],
) -> Result<ArgMatches<'a>, Error>
    ensures reads { IfOk result (λ m. rows_of (found_of m) ≡ matches_of (options_app program forms.entry) (map (λ w. string_bytes w) words.now)) }
    ensures refuses { FailsBy (fault_of (options_app program forms.entry) (map (λ w. string_bytes w) words.now)) result }
{
    command(alloc, program, forms)?.try_get_matches_from(words)
}

/// Returns the command of a program: the shared options, and the program's own ones.
fn command<'a>(
    alloc: Global,
    program: Program,
    forms: &'a [&'a str],
) -> Result<Command<'a>, AllocError>
    ensures { IfOk result (λ c. app_of c ≡ options_app program forms.entry) }
{
    match program {
        Program::Plan => plan_command(alloc, forms),
        Program::Apply => apply_command(alloc),
    }
}

/// Returns the command of `plan`.
fn plan_command<'a>(alloc: Global, forms: &'a [&'a str]) -> Result<Command<'a>, AllocError>
    ensures { IfOk result (λ c. app_of c ≡ plan_app forms.entry) }
{
    shared_command(alloc)?
        .arg(graph_option(alloc, forms))?
        .arg(flag_option(
            alloc,
            "detailed-exitcode",
            "Exits with 2 if the plan has changes",
        ))
}

/// Returns the command of `apply`.
fn apply_command<'a>(alloc: Global) -> Result<Command<'a>, AllocError>
    ensures { IfOk result (λ c. app_of c ≡ apply_app) }
{
    shared_command(alloc)?
        .arg(progress_option(alloc))?
        .arg(flag_option(
            alloc,
            "auto-approve",
            "Doesn't ask for approval of the plan at a terminal",
        ))?
        .arg(option(
            alloc,
            "stop-file",
            "FILE",
            "Begins no further call once this file exists",
        ))?
        .arg(option(
            alloc,
            "in-flight",
            "FILE",
            "The results of the calls that were in flight when an apply ended; retry if they were not made",
        ))
}

/// Returns the command with the options that the programs share.
fn shared_command<'a>(alloc: Global) -> Result<Command<'a>, AllocError>
    ensures { IfOk result (λ c. app_of c ≡ shared_app) }
{
    Command::new(alloc, "bixundor")
        .version(VERSION)
        .arg(default_option(alloc, "config", "FILE", CONFIG, "The configuration"))?
        .arg(repeated_option(
            alloc,
            "vars",
            "FILE",
            "A file with values of variables; may be given several times",
        ))?
        .arg(repeated_option(
            alloc,
            "var",
            "NAME=VALUE",
            "The value of a variable, in JSON unless its type is string; may be given several times",
        ))?
        .arg(default_option(alloc, "state", "FILE", STATE, "The state"))?
        .arg(default_option(
            alloc,
            "lineage",
            "TEXT",
            LINEAGE,
            "The lineage of a new state",
        ))?
        .arg(workers_option(alloc))?
        .arg(stop_option(alloc))?
        .arg(explain_option(alloc))?
        .arg(flag_option(
            alloc,
            "diff",
            "Prints the plan with the old values next to the new ones",
        ))?
        .arg(flag_option(
            alloc,
            "json",
            "Prints JSON in the forms of Terraform: plan the plan, apply what happens, one event a line",
        ))?
        .arg(provider_option(alloc))
}

fn graph_option<'a>(alloc: Global, forms: &'a [&'a str]) -> Arg<'a>
    ensures rule { rule_of result ≡ graph_rule forms.entry }
    ensures local { result.global ≡ false }
{
    option(
        alloc,
        "graph",
        "FORM",
        "Prints the order of the actions for Graphviz in place of the plan",
    )
    .value_parser(forms)
}

fn progress_option<'a>(alloc: Global) -> Arg<'a>
    ensures rule { rule_of result ≡ flag_rule (codes "progress") }
    ensures local { result.global ≡ false }
{
    flag_option(
        alloc,
        "progress",
        "Prints a line as each provider call begins and ends, even if standard error is not a terminal",
    )
}

fn explain_option<'a>(alloc: Global) -> Arg<'a>
    ensures rule { rule_of result ≡ flag_rule (codes "explain") }
    ensures local { result.global ≡ false }
{
    flag_option(
        alloc,
        "explain",
        "Shows where an error is and what is wrong, even if standard error is not a terminal",
    )
}

fn flag_option<'a>(alloc: Global, name: &'a str, help: &'a str) -> Arg<'a>
    ensures rule { rule_of result ≡ flag_rule name.now }
    ensures local { result.global ≡ false }
{
    Arg::new(alloc, name)
        .long(name)
        .help(help)
        .action(ArgAction::SetTrue)
}

fn provider_option<'a>(alloc: Global) -> Arg<'a>
    ensures rule { rule_of result ≡ repeated_rule (codes "provider") }
    ensures local { result.global ≡ false }
{
    repeated_option(
        alloc,
        "provider",
        "DIR",
        "The folder of a provider outside the program; may be given several times",
    )
}

fn repeated_option<'a>(alloc: Global, name: &'a str, value: &'a str, help: &'a str) -> Arg<'a>
    ensures rule { rule_of result ≡ repeated_rule name.now }
    ensures local { result.global ≡ false }
{
    option(alloc, name, value, help).action(ArgAction::Append)
}

fn workers_option<'a>(alloc: Global) -> Arg<'a>
    ensures rule { rule_of result ≡ workers_rule }
    ensures local { result.global ≡ false }
{
    default_option(alloc, "parallelism", "N", "10", "How many workers, 1 to 64").value_parser(
        clap::value_parser!(u64).range(1..=64),
    )
}

fn stop_option<'a>(alloc: Global) -> Arg<'a>
    ensures rule { rule_of result ≡ stop_rule }
    ensures local { result.global ≡ false }
{
    option(
        alloc,
        "stop-after",
        "N",
        "After how many calls to stop, 0 to 2000",
    )
    .value_parser(clap::value_parser!(u64).range(0..=2000))
}

fn default_option<'a>(
    alloc: Global,
    name: &'a str,
    value: &'a str,
    default: &'a str,
    help: &'a str,
) -> Arg<'a>
    ensures rule { rule_of result ≡ default_rule name.now default.now }
    ensures local { result.global ≡ false }
{
    option(alloc, name, value, help).default_value(default)
}

fn option<'a>(alloc: Global, name: &'a str, value: &'a str, help: &'a str) -> Arg<'a>
    ensures rule { rule_of result ≡ option_rule name.now }
    ensures local { result.global ≡ false }
{
    Arg::new(alloc, name)
        .long(name)
        .value_name(value)
        .help(help)
}

fn options_in(alloc: Global, matches: &ArgMatches<'_>) -> Result<Options, AllocError>
    ensures reads { IfOk result (λ o. Reads o (rows_of (found_of matches.now))) }
    ensures workers { IfOk result (λ o. (1 ≤ o.parallelism) × (o.parallelism ≤ 64)) }
    ensures stop { IfOk result (λ o. IfSome o.stop_after (λ n. n ≤ 2000)) }
{
    Ok(Options {
        config: value_or(alloc, matches, "config", CONFIG)?,
        variables: sources_in(alloc, matches)?,
        state: value_or(alloc, matches, "state", STATE)?,
        lineage: value_or(alloc, matches, "lineage", LINEAGE)?,
        parallelism: workers_in(matches),
        stop_after: stop_in(matches),
        graph: graph_in(matches),
        json: flag_in(matches, "json"),
        detailed_exitcode: flag_in(matches, "detailed-exitcode"),
        progress: flag_in(matches, "progress"),
        auto_approve: flag_in(matches, "auto-approve"),
        stop_file: value_of(alloc, matches, "stop-file")?,
        in_flight: value_of(alloc, matches, "in-flight")?,
        explain: flag_in(matches, "explain"),
        diff: flag_in(matches, "diff"),
        providers: texts_of(alloc, matches, "provider")?,
    })
}

fn value_or(
    alloc: Global,
    matches: &ArgMatches<'_>,
    name: &str,
    default: &str,
) -> Result<String, AllocError>
    ensures { IfOk result (λ text. string_bytes text ≡ given_or name.now default.now (rows_of (found_of matches.now))) }
{
    String::from_str(alloc, matches.get_str(name).unwrap_or(default))
}

fn value_of(
    alloc: Global,
    matches: &ArgMatches<'_>,
    name: &str,
) -> Result<Option<String>, AllocError>
    ensures { IfOk result (λ text. option_map (λ t. string_bytes t) text ≡ first_of name.now (rows_of (found_of matches.now))) }
{
    match matches.get_str(name) {
        Some(value) => Ok(Some(String::from_str(alloc, value)?)),
        None => Ok(None),
    }
}

fn workers_in(matches: &ArgMatches<'_>) -> usize
    ensures within { (1 ≤ result) × (result ≤ 64) }
    ensures reads { IsWorkers (one_of (codes "parallelism") (rows_of (found_of matches.now))) result }
{
    match matches.get_one::<usize>("parallelism") {
        Some(workers) if workers >= 1 && workers <= 64 => workers,
        _ => 10,
    }
}

fn stop_in(matches: &ArgMatches<'_>) -> Option<usize>
    ensures within { IfSome result (λ n. n ≤ 2000) }
    ensures reads { IsStop (one_of (codes "stop-after") (rows_of (found_of matches.now))) result }
{
    match matches.get_one::<usize>("stop-after") {
        Some(calls) if calls <= 2000 => Some(calls),
        _ => None,
    }
}

fn graph_in(matches: &ArgMatches<'_>) -> Option<GraphForm>
    ensures { result ≡ option_and_then form_named (first_of (codes "graph") (rows_of (found_of matches.now))) }
{
    match matches.get_str("graph") {
        Some(name) => form_named(name),
        None => None,
    }
}

/// Returns the form of a name, if there is one.
fn form_named(name: &str) -> Option<GraphForm>
    ensures { result ≡ form_named name.now }
{
    if name == DOT {
        Some(GraphForm::Dot)
    } else {
        None
    }
}

fn flag_in(matches: &ArgMatches<'_>, name: &str) -> bool
    ensures { IsFlag (one_of name.now (rows_of (found_of matches.now))) result }
{
    matches.get_flag(name)
}
