//! Projects, and how commands end over them.

/// One command, and how it ends.
pub struct Run {
    /// Whether it is `update`, and else `install`.
    pub update: bool,
    /// Whether it is without what is for development.
    pub no_dev: bool,
    /// Files that are put before.
    pub puts: &'static [(&'static str, &'static str)],
    /// Its lines, or that of its refusal.
    pub answer: &'static str,
    /// What it warns of.
    pub errs: &'static str,
    /// Pieces of files afterwards; no piece where no file is.
    pub holds: &'static [(&'static str, &'static str)],
}

/// A project, and commands one after another.
pub struct Project {
    /// The project's folder.
    pub at: &'static str,
    /// Files with their texts.
    pub files: &'static [(&'static str, &'static str)],
    /// Entries that are neither files nor folders.
    pub others: &'static [&'static str],
    /// The commands.
    pub runs: &'static [Run],
}

/// An ordinary project: the packages that are needed are copied, the others are not.
pub static SHOP: Project = Project {
    at: "",
    files: &[
        (
            "composer.json",
            "{\"name\":\"shop/site\",\"require\":{\"php\":\">=8.1\",\"acme/log\":\"^1.2\"},\"repositories\":[{\"type\":\"path\",\"url\":\"packages/*\"}],\"autoload\":{\"psr-4\":{\"App\\\\\":\"src/\"}}}",
        ),
        (
            "packages/clock/composer.json",
            "{\"name\":\"acme/clock\",\"version\":\"2.0.1\",\"autoload\":{\"psr-4\":{\"Acme\\\\Clock\\\\\":\"src\"}}}",
        ),
        (
            "packages/log/composer.json",
            "{\"name\":\"acme/log\",\"version\":\"1.2.5\",\"require\":{\"acme/clock\":\"^2.0\"},\"autoload\":{\"psr-4\":{\"Acme\\\\Log\\\\\":\"src\"},\"files\":[\"boot.php\"]}}",
        ),
        (
            "packages/mail/composer.json",
            "{\"name\":\"acme/mail\",\"version\":\"1.0.0\"}",
        ),
        ("src/Home.php", "<?php namespace App; class Home {}"),
        (
            "packages/log/src/File.php",
            "<?php namespace Acme\\Log; class File {}",
        ),
        ("packages/log/boot.php", "<?php // boot"),
        (
            "packages/clock/src/Utc.php",
            "<?php namespace Acme\\Clock; class Utc {}",
        ),
    ],
    others: &[],
    runs: &[Run {
        update: false,
        no_dev: false,
        puts: &[],
        answer: "package acme/clock 2.0.1\npackage acme/log 1.2.5\nclasses 0\ngeneration 1\n",
        errs: "",
        holds: &[
            (
                "vendor/composer/autoload_psr4.php",
                "return array(\n    'App\\\\' => array($baseDir . '/src'),\n    'Acme\\\\Log\\\\' => array($vendorDir . '/acme/log/src'),\n    'Acme\\\\Clock\\\\' => array($vendorDir . '/acme/clock/src'),\n);\n",
            ),
            ("vendor/acme/log/boot.php", "<?php // boot"),
            ("vendor/acme/log/src/File.php", "class File"),
            ("vendor/acme/clock/src/Utc.php", "class Utc"),
            ("vendor/acme/mail/composer.json", ""),
            (
                "vendor/composer/autoload_files.php",
                "$vendorDir . '/acme/log/boot.php'",
            ),
            ("composer.lock", "\"name\": \"acme/log\""),
            ("vendor/autoload.php", "<?php"),
            (
                "vendor/composer/installed.json",
                "\"install-path\": \"../acme/log\"",
            ),
            (".install/journal", ""),
        ],
    }],
};

/// Projects that are installed for the first time.
pub static FRESH: [Project; 3] = [ // An empty manifest has the empty lock.
    Project {
        at: "",
        files: &[("composer.json", "{}")],
        others: &[],
        runs: &[Run {
            update: true,
            no_dev: false,
            puts: &[],
            answer: "classes 0\ngeneration 1\n",
            errs: "",
            holds: &[(
                "composer.lock",
                "{\n    \"_readme\": [\n        \"This file locks the dependencies of your project to a known state\",\n        \"Read more about it at https://getcomposer.org/doc/01-basic-usage.md#installing-dependencies\",\n        \"This file is @generated automatically\"\n    ],\n    \"content-hash\": \"d751713988987e9331980363e24189ce\",\n    \"packages\": [],\n    \"packages-dev\": [],\n    \"aliases\": [],\n    \"minimum-stability\": \"stable\",\n    \"stability-flags\": {},\n    \"prefer-stable\": false,\n    \"prefer-lowest\": false,\n    \"platform\": {},\n    \"platform-dev\": {},\n    \"plugin-api-version\": \"2.6.0\"\n}\n",
            )],
        }],
    },
    // Two packages that require each other declare one class: the row is that of the later one.
    Project {
        at: "",
        files: &[
            (
                "composer.json",
                "{\"require\":{\"a/a\":\"*\"},\"repositories\":[{\"type\":\"path\",\"url\":\"p/*\"}]}",
            ),
            (
                "p/a/composer.json",
                "{\"name\":\"a/a\",\"version\":\"1.0.0\",\"require\":{\"b/b\":\"*\"},\"autoload\":{\"classmap\":[\"X.php\"]}}",
            ),
            (
                "p/b/composer.json",
                "{\"name\":\"b/b\",\"version\":\"v1.0\",\"require\":{\"a/a\":\"*\"},\"autoload\":{\"classmap\":[\"X.php\"]}}",
            ),
            ("p/a/X.php", "<?php class X {}"),
            ("p/b/X.php", "<?php class X {}"),
        ],
        others: &[],
        runs: &[Run {
            update: false,
            no_dev: false,
            puts: &[],
            answer: "package a/a 1.0.0\npackage b/b v1.0\nclasses 1\ngeneration 1\n",
            errs: "",
            holds: &[(
                "vendor/composer/autoload_classmap.php",
                "'X' => $vendorDir . '/b/b/X.php',",
            )],
        }],
    },
    // A project in a folder beside its packages.
    Project {
        at: "app",
        files: &[
            (
                "app/composer.json",
                "{\"name\":\"shop/site\",\"require\":{\"php\":\">=8.1\",\"acme/log\":\"^1.2\"},\"repositories\":[{\"type\":\"path\",\"url\":\"../packages/*\"}],\"autoload\":{\"psr-4\":{\"App\\\\\":\"src/\"}}}",
            ),
            (
                "packages/clock/composer.json",
                "{\"name\":\"acme/clock\",\"version\":\"2.0.1\",\"autoload\":{\"psr-4\":{\"Acme\\\\Clock\\\\\":\"src\"}}}",
            ),
            (
                "packages/log/composer.json",
                "{\"name\":\"acme/log\",\"version\":\"1.2.5\",\"require\":{\"acme/clock\":\"^2.0\"},\"autoload\":{\"psr-4\":{\"Acme\\\\Log\\\\\":\"src\"},\"files\":[\"boot.php\"]}}",
            ),
            (
                "packages/mail/composer.json",
                "{\"name\":\"acme/mail\",\"version\":\"1.0.0\"}",
            ),
            ("app/src/Home.php", "<?php namespace App; class Home {}"),
            (
                "packages/log/src/File.php",
                "<?php namespace Acme\\Log; class File {}",
            ),
            ("packages/log/boot.php", "<?php // boot"),
            (
                "packages/clock/src/Utc.php",
                "<?php namespace Acme\\Clock; class Utc {}",
            ),
        ],
        others: &[],
        runs: &[Run {
            update: false,
            no_dev: false,
            puts: &[],
            answer: "package acme/clock 2.0.1\npackage acme/log 1.2.5\nclasses 0\ngeneration 1\n",
            errs: "",
            holds: &[
                ("app/vendor/acme/log/src/File.php", "class File"),
                ("app/composer.lock", "\"url\": \"../packages/log\""),
                ("composer.lock", ""),
            ],
        }],
    },
];

/// Projects that are installed more than once.
pub static TWICE: [Project; 2] = [ // Without what is for development its packages and rows go, and the lock keeps them.
    Project {
        at: "",
        files: &[
            (
                "composer.json",
                "{\"require\":{\"a/a\":\"*\"},\"require-dev\":{\"b/b\":\"*\"},\"repositories\":[{\"type\":\"path\",\"url\":\"p/*\"}],\"autoload-dev\":{\"psr-4\":{\"T\\\\\":\"tests\"}}}",
            ),
            (
                "p/a/composer.json",
                "{\"name\":\"a/a\",\"version\":\"1.0.0\"}",
            ),
            (
                "p/b/composer.json",
                "{\"name\":\"b/b\",\"version\":\"1.0.0\"}",
            ),
        ],
        others: &[],
        runs: &[
            Run {
                update: false,
                no_dev: false,
                puts: &[],
                answer: "package a/a 1.0.0\npackage b/b 1.0.0\nclasses 0\ngeneration 1\n",
                errs: "",
                holds: &[
                    ("vendor/b/b/composer.json", "b/b"),
                    ("vendor/composer/autoload_psr4.php", "'T\\\\'"),
                    (
                        "composer.lock",
                        "\"packages-dev\": [\n        {\n            \"name\": \"b/b\"",
                    ),
                ],
            },
            Run {
                update: false,
                no_dev: true,
                puts: &[],
                answer: "package a/a 1.0.0\nclasses 0\ngeneration 2\n",
                errs: "",
                holds: &[
                    ("vendor/b/b/composer.json", ""),
                    ("vendor/composer/autoload_psr4.php", "return array(\n);\n"),
                    ("composer.lock", "\"name\": \"b/b\""),
                    ("vendor/composer/installed.json", "\"dev\": false"),
                ],
            },
        ],
    },
    // An update takes the new version; an install over the old lock says that it is out of date.
    Project {
        at: "",
        files: &[
            (
                "composer.json",
                "{\"name\":\"shop/site\",\"require\":{\"php\":\">=8.1\",\"acme/log\":\"^1.2\"},\"repositories\":[{\"type\":\"path\",\"url\":\"packages/*\"}],\"autoload\":{\"psr-4\":{\"App\\\\\":\"src/\"}}}",
            ),
            (
                "packages/clock/composer.json",
                "{\"name\":\"acme/clock\",\"version\":\"2.0.1\",\"autoload\":{\"psr-4\":{\"Acme\\\\Clock\\\\\":\"src\"}}}",
            ),
            (
                "packages/log/composer.json",
                "{\"name\":\"acme/log\",\"version\":\"1.2.5\",\"require\":{\"acme/clock\":\"^2.0\"},\"autoload\":{\"psr-4\":{\"Acme\\\\Log\\\\\":\"src\"},\"files\":[\"boot.php\"]}}",
            ),
            (
                "packages/mail/composer.json",
                "{\"name\":\"acme/mail\",\"version\":\"1.0.0\"}",
            ),
            ("src/Home.php", "<?php namespace App; class Home {}"),
            (
                "packages/log/src/File.php",
                "<?php namespace Acme\\Log; class File {}",
            ),
            ("packages/log/boot.php", "<?php // boot"),
            (
                "packages/clock/src/Utc.php",
                "<?php namespace Acme\\Clock; class Utc {}",
            ),
        ],
        others: &[],
        runs: &[
            Run {
                update: false,
                no_dev: false,
                puts: &[],
                answer: "package acme/clock 2.0.1\npackage acme/log 1.2.5\nclasses 0\ngeneration 1\n",
                errs: "",
                holds: &[],
            },
            Run {
                update: true,
                no_dev: false,
                puts: &[(
                    "packages/log/composer.json",
                    "{\"name\":\"acme/log\",\"version\":\"1.3.0\",\"require\":{\"acme/clock\":\"^2.0\"},\"autoload\":{\"psr-4\":{\"Acme\\\\Log\\\\\":\"src\"},\"files\":[\"boot.php\"]}}",
                )],
                answer: "package acme/clock 2.0.1\npackage acme/log 1.3.0\nclasses 0\ngeneration 2\n",
                errs: "",
                holds: &[("vendor/acme/log/composer.json", "1.3.0")],
            },
            Run {
                update: false,
                no_dev: false,
                puts: &[(
                    "composer.json",
                    "{\"name\":\"shop/site\",\"require\":{\"php\":\">=8.1\",\"acme/log\":\"^1.3\"},\"repositories\":[{\"type\":\"path\",\"url\":\"packages/*\"}],\"autoload\":{\"psr-4\":{\"App\\\\\":\"src/\"}}}",
                )],
                answer: "package acme/clock 2.0.1\npackage acme/log 1.3.0\nclasses 0\ngeneration 3\n",
                errs: "warning: composer.lock is out of date\n",
                holds: &[],
            },
        ],
    },
];

/// Commands that are refused, and then do what they would have done without that.
pub static REFUSED: [Project; 9] = [ // A classmap path that is not there.
    Project {
        at: "",
        files: &[
            (
                "composer.json",
                "{\"autoload\":{\"classmap\":[\"tests\",\"nowhere\"],\"exclude-from-classmap\":[\"tests/*/fix\"]}}",
            ),
            ("tests/unit/fix/A.php", "<?php class A {}"),
        ],
        others: &[],
        runs: &[
            Run {
                update: false,
                no_dev: false,
                puts: &[],
                answer: "error: missing nowhere\n",
                errs: "",
                holds: &[("composer.lock", ""), ("vendor/autoload.php", "")],
            },
            Run {
                update: true,
                no_dev: false,
                puts: &[
                    (
                        "composer.json",
                        "{\"autoload\":{\"classmap\":[\"tests\"],\"exclude-from-classmap\":[\"tests/*/fix\"]}}",
                    ),
                    ("tests/fix/A.php", "<?php class B {}"),
                    ("tests/unit/fixture/A.php", "<?php class C {}"),
                ],
                answer: "classes 2\ngeneration 1\n",
                errs: "",
                holds: &[],
            },
        ],
    },
    // A repository of another type.
    Project {
        at: "",
        files: &[(
            "composer.json",
            "{\"repositories\":[{\"type\":\"vcs\",\"url\":\"x\"}]}",
        )],
        others: &[],
        runs: &[Run {
            update: false,
            no_dev: false,
            puts: &[],
            answer: "error: composer.json: not offered /repositories/0/type\n",
            errs: "",
            holds: &[],
        }],
    },
    // A url without a folder.
    Project {
        at: "",
        files: &[(
            "composer.json",
            "{\"repositories\":[{\"type\":\"path\",\"url\":\"gone\"}]}",
        )],
        others: &[],
        runs: &[Run {
            update: false,
            no_dev: false,
            puts: &[],
            answer: "error: missing gone\n",
            errs: "",
            holds: &[],
        }],
    },
    // No plan.
    Project {
        at: "",
        files: &[("composer.json", "{\"require\":{\"a/a\":\"*\"}}")],
        others: &[],
        runs: &[Run {
            update: false,
            no_dev: false,
            puts: &[],
            answer: "error: no plan\n",
            errs: "",
            holds: &[],
        }],
    },
    // No composer.json, and none where there is no project.
    Project {
        at: "app",
        files: &[("src/A.php", "x")],
        others: &[],
        runs: &[Run {
            update: false,
            no_dev: false,
            puts: &[],
            answer: "error: no composer.json\n",
            errs: "",
            holds: &[],
        }],
    },
    // Another install has begun.
    Project {
        at: "",
        files: &[("composer.json", "{}"), (".install/new/0", "x")],
        others: &[],
        runs: &[
            Run {
                update: false,
                no_dev: false,
                puts: &[],
                answer: "error: unfinished install\n",
                errs: "",
                holds: &[],
            },
            Run {
                update: true,
                no_dev: false,
                puts: &[],
                answer: "error: unfinished install\n",
                errs: "",
                holds: &[],
            },
        ],
    },
    // A lock whose package no longer meets the root: the warning comes before the refusal.
    Project {
        at: "",
        files: &[
            ("composer.json", "{\"require\":{\"a/a\":\"^2.0\"}}"),
            (
                "composer.lock",
                "{\"content-hash\":\"x\",\"packages\":[{\"name\":\"a/a\",\"version\":\"1.0.0\",\"dist\":{\"type\":\"path\",\"url\":\"p/a\"}}],\"packages-dev\":[]}",
            ),
        ],
        others: &[],
        runs: &[Run {
            update: false,
            no_dev: false,
            puts: &[],
            answer: "error: lock breaks unmet __root__ a/a\n",
            errs: "warning: composer.lock is out of date\n",
            holds: &[],
        }],
    },
    // A package of a lock whose folder is gone, and one that is a file.
    Project {
        at: "",
        files: &[
            ("composer.json", "{}"),
            (
                "composer.lock",
                "{\"content-hash\":\"x\",\"packages\":[{\"name\":\"a/a\",\"version\":\"1.0.0\",\"dist\":{\"type\":\"path\",\"url\":\"p/a\"}}],\"packages-dev\":[]}",
            ),
        ],
        others: &[],
        runs: &[
            Run {
                update: false,
                no_dev: false,
                puts: &[],
                answer: "error: missing p/a\n",
                errs: "warning: composer.lock is out of date\n",
                holds: &[],
            },
            Run {
                update: false,
                no_dev: false,
                puts: &[("p/a", "x")],
                answer: "error: wrong kind p/a\n",
                errs: "warning: composer.lock is out of date\n",
                holds: &[],
            },
        ],
    },
    // Something that is neither file nor folder in a package.
    Project {
        at: "",
        files: &[
            (
                "composer.json",
                "{\"require\":{\"a/a\":\"*\"},\"repositories\":[{\"type\":\"path\",\"url\":\"p/*\"}]}",
            ),
            (
                "p/a/composer.json",
                "{\"name\":\"a/a\",\"version\":\"1.0.0\"}",
            ),
        ],
        others: &["p/a/pipe"],
        runs: &[Run {
            update: false,
            no_dev: false,
            puts: &[],
            answer: "error: wrong kind p/a/pipe\n",
            errs: "",
            holds: &[],
        }],
    },
];
