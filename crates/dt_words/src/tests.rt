use crate::{Command, Task, WordsRefusal, parse_words};
use std::alloc::{AllocError, Global};
use std::test::Fail;

fn words_of(alloc: Global, line: &str) -> Result<Vec<String>, AllocError> {
    let mut words = Vec::new(alloc);
    for word in line.split(' ') {
        words.push(String::from_str(alloc, word)?)?;
    }
    Ok(words)
}

fn parsed(alloc: Global, line: &str) -> Result<Command, WordsRefusal> {
    let words = words_of(alloc, line)?;
    parse_words(alloc, words.as_slice())
}

fn says(command: &Command, task: Task, to: u8, image: Option<&str>, probes: Option<&str>) -> bool {
    command.task == task
        && command.to == to
        && command.workers == 2
        && !command.sources
        && command.image.as_ref().map(|path| path.as_str()) == image
        && command.probes.as_ref().map(|path| path.as_str()) == probes
}

#[test]
fn reads_each_command(rt: HostRuntime) -> Result<(), Fail> {
    for (line, task, to, image, probes) in [
        ("pass a b", Task::Pass, 0, Some("a"), "b"),
        ("pass -- -a b", Task::Pass, 0, Some("-a"), "b"),
        ("pass a -- -b", Task::Pass, 0, Some("a"), "-b"),
        ("pass - -", Task::Pass, 0, Some("-"), "-"),
        ("check a b", Task::Check, 0, Some("a"), "b"),
        (
            "check -- --workers 4",
            Task::Check,
            0,
            Some("--workers"),
            "4",
        ),
        ("dump b", Task::Dump, 0, None, "b"),
        ("dump -- --to", Task::Dump, 0, None, "--to"),
        ("dump -- --", Task::Dump, 0, None, "--"),
        ("convert --to 1 b", Task::Convert, 1, None, "b"),
        ("convert --to=2 b", Task::Convert, 2, None, "b"),
        ("convert b --to +2", Task::Convert, 2, None, "b"),
        ("convert --to 0002 b", Task::Convert, 2, None, "b"),
    ] {
        let Ok(command) = parsed(rt.alloc(), line) else {
            panic!(rt; "{line}");
        };
        assert!(rt; says(&command, task, to, image, Some(probes)), "{line}");
    }
    Ok(())
}

#[test]
fn reads_a_wish_for_sources(rt: HostRuntime) -> Result<(), Fail> {
    for (line, sources) in [
        ("pass a b", false),
        ("pass --sources a b", true),
        ("pass a b --sources", true),
        ("pass a -- --sources", false),
        ("check --sources a b", true),
    ] {
        let Ok(command) = parsed(rt.alloc(), line) else {
            panic!(rt; "{line}");
        };
        assert_eq!(rt; command.sources, sources, "{line}");
    }
    Ok(())
}

#[test]
fn reads_a_number_of_workers(rt: HostRuntime) -> Result<(), Fail> {
    for (line, workers) in [
        ("check a b", 2),
        ("check --workers 1 a b", 1),
        ("check a --workers=8 --sources b", 8),
        ("check a b --workers +0004", 4),
        ("pass a b", 2),
    ] {
        let Ok(command) = parsed(rt.alloc(), line) else {
            panic!(rt; "{line}");
        };
        assert_eq!(rt; command.workers, workers, "{line}");
    }
    Ok(())
}

#[test]
fn other_words_are_usage(rt: HostRuntime) {
    for line in [
        "",
        "pass",
        "pass a",
        "pass a b c",
        "pass -a b",
        "pass --sources a",
        "pass --sources --sources a b",
        "pass --sources=true a b",
        "dump --sources b",
        "pass --to 1 a b",
        "pass --help",
        "pass -h",
        "pass --version",
        "pass -- a -- b",
        "PASS a b",
        "help",
        "--help",
        "dump",
        "dump a b",
        "dump --help",
        "dump -x",
        "convert b",
        "convert --to 2",
        "convert --to b",
        "convert --to 0 b",
        "convert --to 3 b",
        "convert --to -1 b",
        "convert --to two b",
        "convert --to 1 --to 2 b",
        "convert --to= b",
        "convert -to 1 b",
        "convert --t 1 b",
        "convert --to 1 a b",
        "convert --to=-0 b",
        "check a",
        "check --workers a b",
        "check --workers 0 a b",
        "check --workers 9 a b",
        "check --workers=-0 a b",
        "check --workers 1 --workers 1 a b",
        "check --to 1 a b",
        "pass --workers 1 a b",
        "dump --workers 1 b",
        "replay a b",
        "live a",
        "gen-image random 1",
        "selftest 1",
    ] {
        assert!(rt;
            matches!(parsed(rt.alloc(), line), Err(WordsRefusal::Usage)),
            "{line}"
        );
    }
    assert!(rt; matches!(parse_words(rt.alloc(), &[]), Err(WordsRefusal::Usage)));
}
