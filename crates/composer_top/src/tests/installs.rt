//! Runs of `install` and `update`, and what the other commands say of the projects that they leave.

use super::{Content, NOT_FOUND, Put, Row, gives, tree_of};
use path_name::Path;
use std::alloc::Global;
use std::process::Abort;
use std::test::Fail;
use tree_dev::{Kind, MemoryTree, Tree};

/// A project, and commands one after another.
struct Course {
    project: &'static [Put],
    steps: &'static [Step],
}

/// Words, and what they answer well; nothing where a class is not found.
struct Step(&'static str, &'static [u8]);

const SITE: Put = (
    b"composer.json",
    Content::Bytes(
        b"{\"name\":\"shop/site\",\"require\":{\"php\":\">=8.1\",\"acme/log\":\"^1.2\"},\"repositories\":[{\"type\":\"path\",\"url\":\"packages/*\"}],\"autoload\":{\"psr-4\":{\"App\\\\\":\"src/\"}}}",
    ),
);

const SITE_IN_APP: Put = (
    b"app/composer.json",
    Content::Bytes(
        b"{\"name\":\"shop/site\",\"require\":{\"php\":\">=8.1\",\"acme/log\":\"^1.2\"},\"repositories\":[{\"type\":\"path\",\"url\":\"../packages/*\"}],\"autoload\":{\"psr-4\":{\"App\\\\\":\"src/\"}}}",
    ),
);

const CLOCK: Put = (
    b"packages/clock/composer.json",
    Content::Bytes(
        b"{\"name\":\"acme/clock\",\"version\":\"2.0.1\",\"autoload\":{\"psr-4\":{\"Acme\\\\Clock\\\\\":\"src\"}}}",
    ),
);

const LOG: Put = (
    b"packages/log/composer.json",
    Content::Bytes(
        b"{\"name\":\"acme/log\",\"version\":\"1.2.5\",\"require\":{\"acme/clock\":\"^2.0\"},\"autoload\":{\"psr-4\":{\"Acme\\\\Log\\\\\":\"src\"},\"files\":[\"boot.php\"]}}",
    ),
);

const MAIL: Put = (
    b"packages/mail/composer.json",
    Content::Bytes(b"{\"name\":\"acme/mail\",\"version\":\"1.0.0\"}"),
);

const HOME: Put = (
    b"src/Home.php",
    Content::Bytes(b"<?php namespace App; class Home {}"),
);

const FILE: Put = (
    b"packages/log/src/File.php",
    Content::Bytes(b"<?php namespace Acme\\Log; class File {}"),
);

const BOOT: Put = (b"packages/log/boot.php", Content::Bytes(b"<?php // boot"));

const UTC: Put = (
    b"packages/clock/src/Utc.php",
    Content::Bytes(b"<?php namespace Acme\\Clock; class Utc {}"),
);

const APP_ROWS: Put = (
    b"composer.json",
    Content::Bytes(b"{\"autoload\":{\"psr-4\":{\"App\\\\\":\"src\"}}}"),
);

/// An ordinary project, with two files by which no row of PSR-4 declares a class.
pub static SHOP: [Put; 10] = [
    SITE,
    CLOCK,
    LOG,
    MAIL,
    HOME,
    FILE,
    BOOT,
    UTC,
    (
        b"src/Foo.inc",
        Content::Bytes(b"<?php namespace App; class Foo {}"),
    ),
    (b"src/helpers.php", Content::Bytes(b"<?php // helpers")),
];

/// Projects, and what is found in them.
static COURSES: [Course; 7] = [
    // An ordinary project.
    Course {
        project: &[SITE, CLOCK, LOG, MAIL, HOME, FILE, BOOT, UTC],
        steps: &[
            Step(
                "install",
                b"package acme/clock 2.0.1\npackage acme/log 1.2.5\nclasses 0\ngeneration 1\n",
            ),
            Step("lookup Acme\\Log\\File", b"vendor/acme/log/src/File.php\n"),
            Step("lookup App\\Home", b"src/Home.php\n"),
            Step("files", b"vendor/acme/log/boot.php\n"),
            Step("check", b"hash current\nmeets\n"),
            Step(
                "update -o",
                b"package acme/clock 2.0.1\npackage acme/log 1.2.5\nclasses 3\ngeneration 2\n",
            ),
            Step(
                "lookup Acme\\Clock\\Utc",
                b"vendor/acme/clock/src/Utc.php\n",
            ),
        ],
    },
    // A project in a folder beside its packages.
    Course {
        project: &[SITE_IN_APP, CLOCK, LOG, MAIL, FILE, BOOT, UTC],
        steps: &[
            Step(
                "-d app install",
                b"package acme/clock 2.0.1\npackage acme/log 1.2.5\nclasses 0\ngeneration 1\n",
            ),
            Step(
                "-d app lookup Acme\\Log\\File",
                b"app/vendor/acme/log/src/File.php\n",
            ),
        ],
    },
    // A manifest that says nothing.
    Course {
        project: &[(b"composer.json", Content::Bytes(b"{}"))],
        steps: &[
            Step("update", b"classes 0\ngeneration 1\n"),
            Step("check", b"hash current\nmeets\n"),
            Step("lookup App\\Home", b""),
        ],
    },
    // Two packages that require each other declare one class: it is that of the later one.
    Course {
        project: &[
            (
                b"composer.json",
                Content::Bytes(
                    b"{\"require\":{\"a/a\":\"*\"},\"repositories\":[{\"type\":\"path\",\"url\":\"p/*\"}]}",
                ),
            ),
            (
                b"p/a/composer.json",
                Content::Bytes(
                    b"{\"name\":\"a/a\",\"version\":\"1.0.0\",\"require\":{\"b/b\":\"*\"},\"autoload\":{\"classmap\":[\"X.php\"]}}",
                ),
            ),
            (
                b"p/b/composer.json",
                Content::Bytes(
                    b"{\"name\":\"b/b\",\"version\":\"1.0.0\",\"require\":{\"a/a\":\"*\"},\"autoload\":{\"classmap\":[\"X.php\"]}}",
                ),
            ),
            (b"p/a/X.php", Content::Bytes(b"<?php class X {}")),
            (b"p/b/X.php", Content::Bytes(b"<?php class X {}")),
        ],
        steps: &[
            Step(
                "install",
                b"package a/a 1.0.0\npackage b/b 1.0.0\nclasses 1\ngeneration 1\n",
            ),
            Step("lookup X", b"vendor/b/b/X.php\n"),
        ],
    },
    // What is for development, and what is left without it.
    Course {
        project: &[
            (
                b"composer.json",
                Content::Bytes(
                    b"{\"require\":{\"a/a\":\"*\"},\"require-dev\":{\"b/b\":\"*\"},\"repositories\":[{\"type\":\"path\",\"url\":\"p/*\"}],\"autoload-dev\":{\"psr-4\":{\"T\\\\\":\"tests\"}}}",
                ),
            ),
            (
                b"p/a/composer.json",
                Content::Bytes(b"{\"name\":\"a/a\",\"version\":\"1.0.0\"}"),
            ),
            (
                b"p/b/composer.json",
                Content::Bytes(b"{\"name\":\"b/b\",\"version\":\"1.0.0\"}"),
            ),
            (
                b"tests/A.php",
                Content::Bytes(b"<?php namespace T; class A {}"),
            ),
        ],
        steps: &[
            Step(
                "install",
                b"package a/a 1.0.0\npackage b/b 1.0.0\nclasses 0\ngeneration 1\n",
            ),
            Step("lookup T\\A", b"tests/A.php\n"),
            Step(
                "install --no-dev",
                b"package a/a 1.0.0\nclasses 0\ngeneration 2\n",
            ),
            Step("lookup T\\A", b""),
        ],
    },
    // A version that is not stable, which the root allows.
    Course {
        project: &[
            (
                b"composer.json",
                Content::Bytes(
                    b"{\"require\":{\"a/a\":\"^1.0\",\"b/b\":\"^1.0@beta\"},\"repositories\":[{\"type\":\"path\",\"url\":\"p/*\"}]}",
                ),
            ),
            (
                b"p/a/composer.json",
                Content::Bytes(
                    b"{\"name\":\"a/a\",\"version\":\"1.0.0\",\"require\":{\"b/b\":\"^1.0@beta\"}}",
                ),
            ),
            (
                b"p/b/composer.json",
                Content::Bytes(b"{\"name\":\"b/b\",\"version\":\"1.0.0-beta1\"}"),
            ),
        ],
        steps: &[Step(
            "update",
            b"package a/a 1.0.0\npackage b/b 1.0.0-beta1\nclasses 0\ngeneration 1\n",
        )],
    },
    // A file as deep below its folder as a scan goes.
    Course {
        project: &[
            APP_ROWS,
            (
                b"src/d/d/d/d/d/d/d/d/d/d/d/d/d/d/d/d/d/d/d/d/d/d/d/d/d/d/d/d/d/d/d/d/d/d/d/d/d/d/d/d/d/d/d/d/d/d/d/d/d/d/d/d/d/d/d/d/d/d/d/d/d/d/d/A.php",
                Content::Bytes(b"<?php class A {}"),
            ),
        ],
        steps: &[Step("dump-autoload -o", b"classes 0\ngeneration 1\n")],
    },
];

/// Commands that are refused, whenever they are given.
static REFUSED: [Row; 9] = [
    // A lock that breaks a rule.
    Row {
        project: &[
            (
                b"composer.json",
                Content::Bytes(b"{\"require\":{\"a/a\":\"^2.0\"}}"),
            ),
            (
                b"composer.lock",
                Content::Bytes(
                    b"{\"content-hash\":\"x\",\"packages\":[{\"name\":\"a/a\",\"version\":\"1.0.0\",\"dist\":{\"type\":\"path\",\"url\":\"p/a\"}}],\"packages-dev\":[]}",
                ),
            ),
        ],
        words: "install",
        status: 6,
        out: b"",
        errs: b"warning: composer.lock is out of date\nerror: lock breaks unmet __root__ a/a\n",
    },
    // No package of a name.
    Row {
        project: &[(
            b"composer.json",
            Content::Bytes(b"{\"require\":{\"a/a\":\"*\"}}"),
        )],
        words: "update",
        status: 5,
        out: b"",
        errs: b"error: no plan\n",
    },
    // A package that stands for another version than is required.
    Row {
        project: &[
            (
                b"composer.json",
                Content::Bytes(
                    b"{\"require\":{\"x/old\":\"^1.0\",\"x/new\":\"*\"},\"repositories\":[{\"type\":\"path\",\"url\":\"p/*\"}]}",
                ),
            ),
            (
                b"p/new/composer.json",
                Content::Bytes(
                    b"{\"name\":\"x/new\",\"version\":\"1.0.0\",\"replace\":{\"x/old\":\"2.0.0\"}}",
                ),
            ),
            (
                b"p/old/composer.json",
                Content::Bytes(b"{\"name\":\"x/old\",\"version\":\"1.0.0\"}"),
            ),
        ],
        words: "update",
        status: 5,
        out: b"",
        errs: b"error: no plan\n",
    },
    // A package whose files would stand where the tables do.
    Row {
        project: &[
            SITE,
            (
                b"packages/a/composer.json",
                Content::Bytes(b"{\"name\":\"composer/autoload_psr4.php\",\"version\":\"1.0.0\"}"),
            ),
        ],
        words: "update",
        status: 3,
        out: b"",
        errs: b"error: packages/a/composer.json: reserved name composer/autoload_psr4.php\n",
    },
    // A listed path that is not there.
    Row {
        project: &[(
            b"composer.json",
            Content::Bytes(b"{\"autoload\":{\"classmap\":[\"nowhere\"]}}"),
        )],
        words: "install",
        status: 15,
        out: b"",
        errs: b"error: missing nowhere\n",
    },
    // A repository of another type.
    Row {
        project: &[(
            b"composer.json",
            Content::Bytes(b"{\"repositories\":[{\"type\":\"vcs\",\"url\":\"x\"}]}"),
        )],
        words: "install",
        status: 13,
        out: b"",
        errs: b"error: composer.json: not offered /repositories/0/type\n",
    },
    // A url without a folder.
    Row {
        project: &[(
            b"composer.json",
            Content::Bytes(b"{\"repositories\":[{\"type\":\"path\",\"url\":\"gone\"}]}"),
        )],
        words: "install",
        status: 15,
        out: b"",
        errs: b"error: missing gone\n",
    },
    // Something that is neither file nor folder in a package.
    Row {
        project: &[SITE, CLOCK, LOG, (b"packages/log/pipe", Content::Other)],
        words: "install",
        status: 15,
        out: b"",
        errs: b"error: wrong kind packages/log/pipe\n",
    },
    // A file deeper below its folder than a scan goes.
    Row {
        project: &[
            APP_ROWS,
            (
                b"src/d/d/d/d/d/d/d/d/d/d/d/d/d/d/d/d/d/d/d/d/d/d/d/d/d/d/d/d/d/d/d/d/d/d/d/d/d/d/d/d/d/d/d/d/d/d/d/d/d/d/d/d/d/d/d/d/d/d/d/d/d/d/d/d/A.php",
                Content::Bytes(b"<?php class A {}"),
            ),
        ],
        words: "dump-autoload -o",
        status: 12,
        out: b"",
        errs: b"error: limit Depth src/d/d/d/d/d/d/d/d/d/d/d/d/d/d/d/d/d/d/d/d/d/d/d/d/d/d/d/d/d/d/d/d/d/d/d/d/d/d/d/d/d/d/d/d/d/d/d/d/d/d/d/d/d/d/d/d/d/d/d/d/d/d/d/d/A.php\n",
    },
];

/// A run over a project.
fn row(
    project: &'static [Put],
    words: &'static str,
    status: u8,
    out: &'static [u8],
    errs: &'static [u8],
) -> Row {
    Row {
        project,
        words,
        status,
        out,
        errs,
    }
}

/// The run of a step.
fn run_of(project: &'static [Put], step: &Step) -> Row {
    if step.1.is_empty() {
        return row(project, step.0, 1, b"", NOT_FOUND);
    }
    row(project, step.0, 0, step.1, b"")
}

/// Runs steps one after another over a project.
fn ends_well(rt: &impl Abort, alloc: Global, course: &Course) -> Result<(), Fail> {
    let mut tree = tree_of(rt, alloc, &row(course.project, "", 0, b"", b""))?;
    for step in course.steps {
        gives(rt, alloc, &run_of(course.project, step), &mut tree)?;
    }
    assert_eq!(rt; tree.short(), 0);
    Ok(())
}

#[test]
fn installed_projects_are_read(rt: HostRuntime) -> Result<(), Fail> {
    for course in &COURSES {
        ends_well(&rt, rt.alloc(), course)?;
    }
    Ok(())
}

/// Runs words twice over a project of their own: nothing that is refused leaves a claim.
fn ends_twice(rt: &impl Abort, alloc: Global, row: &Row) -> Result<(), Fail> {
    let mut tree = tree_of(rt, alloc, row)?;
    gives(rt, alloc, row, &mut tree)?;
    gives(rt, alloc, row, &mut tree)
}

#[test]
fn refused_installs(rt: HostRuntime) -> Result<(), Fail> {
    for row in &REFUSED {
        ends_twice(&rt, rt.alloc(), row)?;
    }
    Ok(())
}

/// Whether nothing is at a path.
fn is_absent(alloc: Global, tree: &mut MemoryTree, at: &[u8]) -> Result<bool, Fail> {
    Ok(tree.stat(&Path::read(alloc, at)?)? == Kind::Absent)
}

/// Whether nothing is at `vendor`, and no lock.
fn is_uninstalled(alloc: Global, tree: &mut MemoryTree) -> Result<bool, Fail> {
    Ok(is_absent(alloc, tree, b"vendor")? && is_absent(alloc, tree, b"composer.lock")?)
}

#[test]
fn failing_install_is_taken_away(rt: HostRuntime) -> Result<(), Fail> {
    let alloc = rt.alloc();
    let failing = row(&SHOP, "install", 8, b"", b"error: device fault\n");
    let mut tree = tree_of(&rt, alloc, &failing)?;
    tree.fail_at(alloc, &[7])?;
    gives(&rt, alloc, &failing, &mut tree)?;
    gives(
        &rt,
        alloc,
        &row(&SHOP, "recover", 0, b"removed\n", b""),
        &mut tree,
    )?;
    assert!(rt; is_uninstalled(alloc, &mut tree)?);
    Ok(())
}
