//! Jobs that are staged, what stands before them and after them, and trees that hold them.

use install_world::{Journal, Target};
use path_name::{Items, Path, Text};
use std::alloc::Global;
use std::test::Fail;
use tree_dev::{Entry, MemoryTree};

/// A file at or below a target: its bytes before the job and after it; none where it does not stand.
pub struct Place {
    /// Its path.
    pub at: &'static str,
    /// Its bytes in the old project.
    pub old: Option<&'static str>,
    /// Its bytes in the new one.
    pub new: Option<&'static str>,
}

/// A job that is staged whole.
pub struct Staged {
    /// What it puts over what.
    pub name: &'static str,
    /// Each target, and whether what stands there is to be gone.
    pub targets: &'static [(&'static str, bool)],
    /// The staged files. Each holds `new`.
    pub files: &'static [&'static str],
    /// Folders in which no file stands.
    pub folders: &'static [&'static str],
    /// The files at and below the targets.
    pub places: &'static [Place],
}

/// Files that no job touches: the project's, and those around it.
pub static KEPT: [(&str, &str); 3] = [
    ("app.php", "app"),
    ("src/A.php", "a"),
    ("vendor/kept/f", "kept"),
];

/// All that may stand beside each other once no install is at work.
pub static BESIDE: [&str; 5] = ["app.php", "composer.lock", "empty", "src", "vendor"];

/// Jobs of one part: what is put over a file.
pub static OVER_FILES: [Staged; 4] = [
    Staged {
        name: "a file over a file",
        targets: &[("composer.lock", false)],
        files: &[".install/new/0"],
        folders: &[],
        places: &[Place {
            at: "composer.lock",
            old: Some("old"),
            new: Some("new"),
        }],
    },
    Staged {
        name: "a folder over a file",
        targets: &[("vendor/a", false)],
        files: &[".install/new/0/f", ".install/new/0/g/h"],
        folders: &[],
        places: &[
            Place {
                at: "vendor/a",
                old: Some("old"),
                new: None,
            },
            Place {
                at: "vendor/a/f",
                old: None,
                new: Some("new"),
            },
            Place {
                at: "vendor/a/g/h",
                old: None,
                new: Some("new"),
            },
        ],
    },
    Staged {
        name: "an empty folder over a file",
        targets: &[("vendor/a", false)],
        files: &[],
        folders: &[".install/new/0"],
        places: &[Place {
            at: "vendor/a",
            old: Some("old"),
            new: None,
        }],
    },
    Staged {
        name: "a file that is to be gone",
        targets: &[("vendor/a/f", true)],
        files: &[],
        folders: &[],
        places: &[
            Place {
                at: "vendor/a/f",
                old: Some("old"),
                new: None,
            },
            Place {
                at: "vendor/a/g",
                old: Some("old"),
                new: Some("old"),
            },
        ],
    },
];

/// The same over a folder.
pub static OVER_FOLDERS: [Staged; 4] = [
    Staged {
        name: "a file over a folder",
        targets: &[("vendor/a", false)],
        files: &[".install/new/0"],
        folders: &[],
        places: &[
            Place {
                at: "vendor/a",
                old: None,
                new: Some("new"),
            },
            Place {
                at: "vendor/a/f",
                old: Some("old"),
                new: None,
            },
        ],
    },
    Staged {
        name: "a folder over a folder",
        targets: &[("vendor/a", false)],
        files: &[".install/new/0/f", ".install/new/0/g"],
        folders: &[],
        places: &[
            Place {
                at: "vendor/a/f",
                old: Some("old"),
                new: Some("new"),
            },
            Place {
                at: "vendor/a/g",
                old: None,
                new: Some("new"),
            },
            Place {
                at: "vendor/a/h/i",
                old: Some("old"),
                new: None,
            },
        ],
    },
    Staged {
        name: "an empty folder over a folder",
        targets: &[("vendor/a", false)],
        files: &[],
        folders: &[".install/new/0"],
        places: &[Place {
            at: "vendor/a/f",
            old: Some("old"),
            new: None,
        }],
    },
    Staged {
        name: "a folder that is to be gone",
        targets: &[("vendor/a", true)],
        files: &[],
        folders: &[],
        places: &[
            Place {
                at: "vendor/a/f",
                old: Some("old"),
                new: None,
            },
            Place {
                at: "vendor/a/g/h",
                old: Some("old"),
                new: None,
            },
        ],
    },
];

/// The same where nothing is.
pub static OVER_NOTHING: [Staged; 5] = [
    Staged {
        name: "a file over nothing",
        targets: &[("composer.lock", false)],
        files: &[".install/new/0"],
        folders: &[],
        places: &[Place {
            at: "composer.lock",
            old: None,
            new: Some("new"),
        }],
    },
    Staged {
        name: "a folder over nothing",
        targets: &[("vendor/a", false)],
        files: &[".install/new/0/f"],
        folders: &[],
        places: &[Place {
            at: "vendor/a/f",
            old: None,
            new: Some("new"),
        }],
    },
    Staged {
        name: "nothing that is to be gone",
        targets: &[("vendor/a", true)],
        files: &[],
        folders: &[],
        places: &[Place {
            at: "vendor/a",
            old: None,
            new: None,
        }],
    },
    Staged {
        name: "a folder below folders that were made",
        targets: &[("vendor/a/b/c", false)],
        files: &[".install/new/0/f"],
        folders: &["vendor/a/b"],
        places: &[Place {
            at: "vendor/a/b/c/f",
            old: None,
            new: Some("new"),
        }],
    },
    Staged {
        name: "a folder below folders that are missing",
        targets: &[("vendor/a/b/c", false)],
        files: &[".install/new/0/f"],
        folders: &[],
        places: &[Place {
            at: "vendor/a/b/c/f",
            old: None,
            new: Some("new"),
        }],
    },
];

/// Jobs of several parts.
pub static SEVERAL: [Staged; 2] = [
    Staged {
        name: "a package renewed, one that is gone, one that is new, and the lock",
        targets: &[
            ("vendor/a", false),
            ("vendor/b", true),
            ("vendor/c/d", false),
            ("composer.lock", false),
        ],
        files: &[".install/new/0/f", ".install/new/2/f", ".install/new/3"],
        folders: &["vendor/c"],
        places: &[
            Place {
                at: "vendor/a/f",
                old: Some("old"),
                new: Some("new"),
            },
            Place {
                at: "vendor/a/g",
                old: Some("old"),
                new: None,
            },
            Place {
                at: "vendor/b/f",
                old: Some("old"),
                new: None,
            },
            Place {
                at: "vendor/c/d/f",
                old: None,
                new: Some("new"),
            },
            Place {
                at: "composer.lock",
                old: Some("old"),
                new: Some("new"),
            },
        ],
    },
    Staged {
        name: "a file over a folder, and a folder over a file",
        targets: &[("vendor/a", false), ("vendor/b", false)],
        files: &[".install/new/0", ".install/new/1/f"],
        folders: &[],
        places: &[
            Place {
                at: "vendor/a",
                old: None,
                new: Some("new"),
            },
            Place {
                at: "vendor/a/f",
                old: Some("old"),
                new: None,
            },
            Place {
                at: "vendor/b",
                old: Some("old"),
                new: None,
            },
            Place {
                at: "vendor/b/f",
                old: None,
                new: Some("new"),
            },
        ],
    },
];

fn put(alloc: Global, tree: &mut MemoryTree, at: &str, text: &str) -> Result<(), Fail> {
    let entry = Entry::File(Text::copy_of(alloc, text.as_bytes())?);
    tree.put(alloc, &Path::read(alloc, at.as_bytes())?, entry)?;
    Ok(())
}

fn put_folder(alloc: Global, tree: &mut MemoryTree, at: &str) -> Result<(), Fail> {
    tree.put(alloc, &Path::read(alloc, at.as_bytes())?, Entry::Folder)?;
    Ok(())
}

fn put_old(alloc: Global, tree: &mut MemoryTree, places: &[Place]) -> Result<(), Fail> {
    for place in places {
        if let Some(text) = place.old {
            put(alloc, tree, place.at, text)?;
        }
    }
    Ok(())
}

fn put_staged(alloc: Global, tree: &mut MemoryTree, staged: &Staged) -> Result<(), Fail> {
    for at in staged.folders {
        put_folder(alloc, tree, *at)?;
    }
    for at in staged.files {
        put(alloc, tree, *at, "new")?;
    }
    Ok(())
}

/// The project in which a job is staged.
pub fn tree_of(alloc: Global, staged: &Staged) -> Result<MemoryTree, Fail> {
    let mut tree = MemoryTree::new(alloc)?;
    for (at, text) in &KEPT {
        put(alloc, &mut tree, *at, *text)?;
    }
    put_folder(alloc, &mut tree, "empty")?;
    put_folder(alloc, &mut tree, ".install/new")?;
    put_folder(alloc, &mut tree, ".install/old")?;
    put_old(alloc, &mut tree, staged.places)?;
    put_staged(alloc, &mut tree, staged)?;
    Ok(tree)
}

/// The journal of a job.
pub fn journal(alloc: Global, staged: &Staged) -> Result<Journal, Fail> {
    let mut targets = Vec::new(alloc);
    for (at, gone) in staged.targets {
        let path = Path::read(alloc, at.as_bytes())?;
        targets.push(Target { path, gone: *gone })?;
    }
    Ok(Journal {
        generation: 7,
        targets: Items::of(targets),
    })
}
