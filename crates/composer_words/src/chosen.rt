//! What words mean.

use path_name::{Path, Text};

/// A command, and the project that it is for.
#[derive(Debug, PartialEq, Eq, Drop)]
pub struct Chosen {
    /// The project's folder, counted from the folder in which the program runs: `-d`'s DIR, and without it
    /// that folder itself.
    pub project: Path,
    /// What to do there.
    pub task: Task,
}

/// What a command does.
#[derive(Debug, PartialEq, Eq, Drop)]
pub enum Task {
    /// Installs the packages of the lock, or of a new plan where there is none.
    Install(Ways),
    /// Makes a new plan, writes its lock and installs it.
    Update(Ways),
    /// Writes the autoload tables anew.
    DumpAutoload(Ways),
    /// Looks up the file of a class. The word is the class's name as written, of any text.
    Lookup(Text),
    /// Lists the files that are loaded always.
    Files,
    /// Checks the lock against the root's manifest.
    Check,
    /// Finishes or removes an install that was stopped.
    Recover,
    /// Makes a project of so many packages in memory, 1 to 400, installs it and looks its classes up.
    Demo(u32),
}

/// In which way packages are installed and tables are written.
#[derive(Clone, Copy, Debug, PartialEq, Eq)]
pub struct Ways {
    /// `-o`: classes of PSR-4 and PSR-0 folders are listed in the class map too.
    pub optimised: bool,
    /// `-a`: a class is looked for in the class map alone.
    pub authoritative: bool,
    /// `--no-dev`: without the root's development requirements and development autoload.
    pub no_dev: bool,
}
