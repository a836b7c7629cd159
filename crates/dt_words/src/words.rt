ghost use Rattle.std.specs.Prelude.{◌≡◌, ◌≤◌, false, IfErr, IfOk, Some, None, Err, map, option_map};
ghost use Rattle.std.specs.String.{string_bytes};
ghost use Rattle.clap.specs.Walk.{byte_or_zero};
ghost use Rattle.clap.specs.Words.{app_of, found_of, kind_of, rows_of, rule_of};
ghost use Rattle.dt_words.specs.Table.{app_of_task, asked_by, asked_for, asked_in, flag_in, number_in, path_rule, sources_rule, task_named, values_of, version_rule, within, workers_rule};

use crate::commands::{Command, Task, WordsRefusal};
use clap::error::ErrorKind;
use clap::{Arg, ArgAction, ArgMatches, value_parser};
use std::alloc::{AllocError, Global};

/// The task that a first word names.
fn task_named(word: &str) -> Option<Task>
    ensures { result ≡ task_named word.now }
{
    match word {
        "pass" => Some(Task::Pass),
        "check" => Some(Task::Check),
        "dump" => Some(Task::Dump),
        "convert" => Some(Task::Convert),
        _ => None,
    }
}

/// A path, which has to be there.
fn path<'a>(alloc: Global, id: &'a str) -> Arg<'a>
    ensures rule { rule_of result ≡ path_rule id.entry.now }
    ensures local { result.global ≡ false }
{
    Arg::new(alloc, id).required(true)
}

/// `--to N`, which has to be there.
fn version<'a>(alloc: Global) -> Arg<'a>
    ensures rule { rule_of result ≡ version_rule }
    ensures local { result.global ≡ false }
{
    Arg::new(alloc, "to")
        .long("to")
        .value_parser(value_parser!(u64).range(1..=2))
        .required(true)
}

/// `--workers N`, which may be there.
fn workers<'a>(alloc: Global) -> Arg<'a>
    ensures rule { rule_of result ≡ workers_rule }
    ensures local { result.global ≡ false }
{
    Arg::new(alloc, "workers")
        .long("workers")
        .value_parser(value_parser!(u64).range(1..=8))
}

/// `--sources`, which may be there.
fn sources<'a>(alloc: Global) -> Arg<'a>
    ensures rule { rule_of result ≡ sources_rule }
    ensures local { result.global ≡ false }
{
    Arg::new(alloc, "sources")
        .long("sources")
        .action(ArgAction::SetTrue)
}

/// What `clap` is to take for a task.
fn command_for<'a>(alloc: Global, task: Task) -> Result<clap::Command<'a>, AllocError>
    ensures { IfOk result (λ command. app_of command ≡ app_of_task task) }
{
    match task {
        Task::Pass => clap::Command::new(alloc, "pass")
            .arg(sources(alloc))?
            .arg(path(alloc, "image"))?
            .arg(path(alloc, "probes")),
        Task::Check => clap::Command::new(alloc, "check")
            .arg(workers(alloc))?
            .arg(sources(alloc))?
            .arg(path(alloc, "image"))?
            .arg(path(alloc, "probes")),
        Task::Dump => clap::Command::new(alloc, "dump").arg(path(alloc, "probes")),
        Task::Convert => clap::Command::new(alloc, "convert")
            .arg(version(alloc))?
            .arg(path(alloc, "probes")),
    }
}

/// What a refusal of `clap` means here: whatever it is but want of memory, the words are not in
/// the table.
fn refusal_of(error: &clap::Error) -> WordsRefusal
    ensures memory { kind_of error.now ≡ ErrorKind.OutOfMemory → result ≡ WordsRefusal.OutOfMemory }
    ensures usage { result ≡ WordsRefusal.OutOfMemory → kind_of error.now ≡ ErrorKind.OutOfMemory }
{
    match error.kind() {
        ErrorKind::OutOfMemory => WordsRefusal::OutOfMemory,
        _ => WordsRefusal::Usage,
    }
}

/// The values of the words after the first, as `clap` finds them.
fn values<'a>(
    alloc: Global,
    task: Task,
    words: &'a [String],
) -> Result<ArgMatches<'a>, WordsRefusal>
    ensures found { IfOk result (λ matches.
        values_of task (map string_bytes words.entry.now) ≡ Some (rows_of (found_of matches))) }
    ensures usage { IfErr result (λ refusal. refusal ≡ WordsRefusal.Usage
        → values_of task (map string_bytes words.entry.now) ≡ None) }
{
    match command_for(alloc, task)?.try_get_matches_from(words) {
        Ok(matches) => Ok(matches),
        Err(error) => Err(refusal_of(&error)),
    }
}

/// A text of its own, where there is one.
fn owned(alloc: Global, text: Option<&str>) -> Result<Option<String>, AllocError>
    ensures { IfOk result (λ copy. option_map string_bytes copy ≡ option_map (λ t. t.now) text.entry) }
{
    match text {
        Some(text) => Ok(Some(String::from_str(alloc, text)?)),
        None => Ok(None),
    }
}

/// The number of a text, and 0 where it is none.
fn byte_of(text: &str) -> u8
    ensures { result ≡ byte_or_zero text.now }
{
    text.parse::<u8>().unwrap_or(0)
}

/// A number that is within its range, and another in its place.
fn within(least: u8, most: u8, otherwise: u8, number: u8) -> u8
    ensures { result ≡ within least most otherwise number }
{
    if least <= number && number <= most {
        number
    } else {
        otherwise
    }
}

/// The number that an option gives, and another where it is not there.
fn number_in(matches: &ArgMatches<'_>, name: &str, least: u8, most: u8, otherwise: u8) -> u8
    ensures { result ≡ number_in name.now least most otherwise (rows_of (found_of matches.now)) }
{
    match matches.get_str(name) {
        Some(text) => within(least, most, otherwise, byte_of(text)),
        None => otherwise,
    }
}

/// Whether a flag is there.
fn flag_in(matches: &ArgMatches<'_>, name: &str) -> bool
    ensures { result ≡ flag_in name.now (rows_of (found_of matches.now)) }
{
    match matches.get_str(name) {
        Some(text) => text == "true",
        None => false,
    }
}

/// What the values of a task say.
fn command_of(alloc: Global, task: Task, matches: &ArgMatches<'_>) -> Result<Command, AllocError>
    ensures says { IfOk result (λ command. asked_by command ≡ asked_for task (rows_of (found_of matches.now))) }
    ensures workers { IfOk result (λ command. (1 ≤ command.workers) × (command.workers ≤ 8)) }
{
    Ok(Command {
        task,
        to: number_in(matches, "to", 1, 2, 0),
        workers: number_in(matches, "workers", 1, 8, 2),
        sources: flag_in(matches, "sources"),
        image: owned(alloc, matches.get_str("image"))?,
        probes: owned(alloc, matches.get_str("probes"))?,
    })
}

/// Reads the words that follow the program's name: `pass [--sources] IMAGE PROBES`,
/// `check [--workers N] [--sources] IMAGE PROBES`, `dump PROBES` or `convert --to N PROBES`. A request
/// for help is no command.
pub fn parse_words(alloc: Global, words: &[String]) -> Result<Command, WordsRefusal>
    ensures says { IfOk result (λ command. asked_in words.now ≡ Some (asked_by command)) }
    ensures usage { result ≡ Err WordsRefusal.Usage → asked_in words.now ≡ None }
    ensures workers { IfOk result (λ command. (1 ≤ command.workers) × (command.workers ≤ 8)) }
{
    let Some(first) = words.first() else {
        return Err(WordsRefusal::Usage);
    };
    let Some(task) = task_named(first.as_str()) else {
        return Err(WordsRefusal::Usage);
    };
    let matches = values(alloc, task, words)?;
    Ok(command_of(alloc, task, &matches)?)
}
