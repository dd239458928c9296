use crate::{Chosen, Task, Ways, WordsFault, command};
use std::alloc::Global;
use std::test::Fail;

/// What words mean, with the words of `lookup` as text.
#[derive(Clone, Copy)]
enum Meaning {
    Refused,
    Install(&'static str),
    Update(&'static str),
    DumpAutoload(&'static str),
    Lookup(&'static str),
    Files,
    Check,
    Recover,
    Demo(u32),
}

/// Words with `|` between them, the project, and what they mean there. The flags are those of `oan` that hold.
type Row = (&'static str, &'static str, Meaning);

static ROWS: [Row; 84] = [
    ("lookup|App\\Home", ".", Meaning::Lookup("App\\Home")),
    ("lookup|\\App\\Home", ".", Meaning::Lookup("\\App\\Home")),
    ("lookup|App\\..\\X", ".", Meaning::Lookup("App\\..\\X")),
    ("lookup", ".", Meaning::Refused),
    (
        "-d|app|dump-autoload|-o|--no-dev",
        "app",
        Meaning::DumpAutoload("on"),
    ),
    ("install|-x", ".", Meaning::Refused),
    ("install", ".", Meaning::Install("")),
    ("install|-o", ".", Meaning::Install("o")),
    ("install|-a", ".", Meaning::Install("a")),
    ("install|--no-dev", ".", Meaning::Install("n")),
    ("install|--no-dev|-a|-o", ".", Meaning::Install("oan")),
    ("install|-oa", ".", Meaning::Install("oa")),
    ("install|-ao", ".", Meaning::Install("oa")),
    ("install|-o|-o", ".", Meaning::Refused),
    ("install|-oo", ".", Meaning::Refused),
    ("install|--no-dev|--no-dev", ".", Meaning::Refused),
    ("install|-o=1", ".", Meaning::Refused),
    ("install|--no-dev=1", ".", Meaning::Refused),
    ("install|--no-de", ".", Meaning::Refused),
    ("install|--optimised", ".", Meaning::Refused),
    ("install|--no-dev|--", ".", Meaning::Install("n")),
    ("install|--|-o", ".", Meaning::Refused),
    ("install|--|--", ".", Meaning::Refused),
    ("install|-", ".", Meaning::Refused),
    ("install|x", ".", Meaning::Refused),
    ("install|", ".", Meaning::Refused),
    ("install|-do", ".", Meaning::Refused),
    ("install|-d|app", ".", Meaning::Refused),
    ("install|install", ".", Meaning::Refused),
    ("update", ".", Meaning::Update("")),
    ("update|-a|--no-dev", ".", Meaning::Update("an")),
    ("update|a/b", ".", Meaning::Refused),
    ("dump-autoload", ".", Meaning::DumpAutoload("")),
    ("dump-autoload|-oa", ".", Meaning::DumpAutoload("oa")),
    ("dumpautoload", ".", Meaning::Refused),
    ("dump", ".", Meaning::Refused),
    ("-d|app|install", "app", Meaning::Install("")),
    ("-dapp|install", "app", Meaning::Install("")),
    ("-d=app|install", "app", Meaning::Install("")),
    ("-d=|install", ".", Meaning::Install("")),
    ("-d||install", ".", Meaning::Install("")),
    ("-d|./a//b/../c/|files", "a/c", Meaning::Files),
    ("-d|/srv/app|files", "srv/app", Meaning::Files),
    ("-d|..|files", ".", Meaning::Refused),
    ("-d|a/../..|files", ".", Meaning::Refused),
    ("-d|-x|files", ".", Meaning::Refused),
    ("-d|--|files", ".", Meaning::Refused),
    ("-d|a|-d|b|files", ".", Meaning::Refused),
    ("-d", ".", Meaning::Refused),
    ("-d|files", ".", Meaning::Refused),
    ("-d|files|files", "files", Meaning::Files),
    ("-do|install", "o", Meaning::Install("")),
    ("-o|install", ".", Meaning::Refused),
    ("--|install", ".", Meaning::Refused),
    ("", ".", Meaning::Refused),
    ("|install", ".", Meaning::Refused),
    ("composer|install", ".", Meaning::Refused),
    ("Install", ".", Meaning::Refused),
    ("inst", ".", Meaning::Refused),
    ("--help", ".", Meaning::Refused),
    ("-h", ".", Meaning::Refused),
    ("help", ".", Meaning::Refused),
    ("help|install", ".", Meaning::Refused),
    ("install|--help", ".", Meaning::Refused),
    ("install|-oh", ".", Meaning::Refused),
    ("lookup|-h", ".", Meaning::Refused),
    ("--version", ".", Meaning::Refused),
    ("-V", ".", Meaning::Refused),
    ("lookup|", ".", Meaning::Lookup("")),
    ("lookup|-App", ".", Meaning::Refused),
    ("lookup|--|-App", ".", Meaning::Lookup("-App")),
    ("lookup|A|B", ".", Meaning::Refused),
    ("lookup|-o|A", ".", Meaning::Refused),
    ("lookup|help", ".", Meaning::Lookup("help")),
    ("files|--no-dev", ".", Meaning::Refused),
    ("check", ".", Meaning::Check),
    ("recover", ".", Meaning::Recover),
    ("demo|32", ".", Meaning::Demo(32)),
    ("demo|001", ".", Meaning::Demo(1)),
    ("demo|400", ".", Meaning::Demo(400)),
    ("demo|0", ".", Meaning::Refused),
    ("demo|401", ".", Meaning::Refused),
    ("demo|0001", ".", Meaning::Refused),
    ("demo|+5", ".", Meaning::Refused),
];

fn ways_of(flags: &str) -> Ways {
    Ways {
        optimised: flags.contains('o'),
        authoritative: flags.contains('a'),
        no_dev: flags.contains('n'),
    }
}

fn is_meant(task: &Task, meaning: Meaning) -> bool {
    match (task, meaning) {
        (Task::Install(ways), Meaning::Install(flags)) => *ways == ways_of(flags),
        (Task::Update(ways), Meaning::Update(flags)) => *ways == ways_of(flags),
        (Task::DumpAutoload(ways), Meaning::DumpAutoload(flags)) => *ways == ways_of(flags),
        (Task::Lookup(name), Meaning::Lookup(text)) => name.as_slice() == text.as_bytes(),
        (Task::Files, Meaning::Files) => true,
        (Task::Check, Meaning::Check) => true,
        (Task::Recover, Meaning::Recover) => true,
        (Task::Demo(packages), Meaning::Demo(number)) => *packages == number,
        _ => false,
    }
}

fn is_answered(answer: &Result<Chosen, WordsFault>, row: Row) -> bool {
    match answer {
        Ok(chosen) => { chosen.project.text() == row.1.as_bytes() && is_meant(&chosen.task, row.2) }
        Err(WordsFault::Usage) => matches!(row.2, Meaning::Refused),
        Err(WordsFault::OutOfMemory) => false,
    }
}

/// Words, and what they mean.
#[test]
fn words(rt: HostRuntime) -> Result<(), Fail> {
    let alloc = rt.alloc();
    for row in &ROWS {
        let mut words: Vec<String> = Vec::new(alloc);
        for word in row.0.split('|') {
            words.push(String::from_str(alloc, word)?)?;
        }
        let answer = command(alloc, words.as_slice());
        let words = row.0;
        assert!(rt; is_answered(&answer, *row), "{words} mean {answer:?}");
    }
    assert_eq!(rt; command(alloc, &[]).err(), Some(WordsFault::Usage));
    Ok(())
}
