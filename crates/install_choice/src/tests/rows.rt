//! Projects, and what is chosen of them.

/// A project, and what a command chooses there.
#[derive(Drop)]
pub struct Row {
    /// Files with their texts.
    pub files: &'static [(&'static str, &'static str)],
    /// Whether it is `update`, and else `install`.
    pub update: bool,
    /// The packages of the lock, and whether it is new; or the line of the refusal.
    pub answer: &'static str,
    /// What is warned of.
    pub errs: &'static str,
}

/// New plans.
pub static PLANNED: [Row; 6] = [
    // The highest version excludes what else is required.
    Row {
        files: &[
            (
                "composer.json",
                "{\"require\":{\"a/a\":\"*\",\"b/b\":\"*\"},\"repositories\":[{\"type\":\"path\",\"url\":\"p/*\"}]}",
            ),
            (
                "p/a1/composer.json",
                "{\"name\":\"a/a\",\"version\":\"1.0.0\"}",
            ),
            (
                "p/a2/composer.json",
                "{\"name\":\"a/a\",\"version\":\"2.0.0\",\"conflict\":{\"b/b\":\"*\"}}",
            ),
            (
                "p/b/composer.json",
                "{\"name\":\"b/b\",\"version\":\"1.0.0\"}",
            ),
        ],
        update: true,
        answer: "package a/a 1.0.0\npackage b/b 1.0.0\nnew\n",
        errs: "",
    },
    // A package that stands for another.
    Row {
        files: &[
            (
                "composer.json",
                "{\"require\":{\"x/old\":\"*\",\"x/new\":\"*\"},\"repositories\":[{\"type\":\"path\",\"url\":\"p/*\"}]}",
            ),
            (
                "p/new/composer.json",
                "{\"name\":\"x/new\",\"version\":\"1.0.0\",\"replace\":{\"x/old\":\"*\"}}",
            ),
            (
                "p/old/composer.json",
                "{\"name\":\"x/old\",\"version\":\"1.0.0\"}",
            ),
        ],
        update: true,
        answer: "package x/new 1.0.0\nnew\n",
        errs: "",
    },
    // A stability that the root allows.
    Row {
        files: &[
            (
                "composer.json",
                "{\"require\":{\"a/a\":\"^1.0\",\"b/b\":\"^1.0@beta\"},\"repositories\":[{\"type\":\"path\",\"url\":\"p/*\"}]}",
            ),
            (
                "p/a/composer.json",
                "{\"name\":\"a/a\",\"version\":\"1.0.0\",\"require\":{\"b/b\":\"^1.0@beta\"}}",
            ),
            (
                "p/b/composer.json",
                "{\"name\":\"b/b\",\"version\":\"1.0.0-beta1\"}",
            ),
        ],
        update: true,
        answer: "package a/a 1.0.0\npackage b/b 1.0.0-beta1\nnew\n",
        errs: "",
    },
    // What is required for development; without a lock a plan is made.
    Row {
        files: &[
            (
                "composer.json",
                "{\"require\":{\"a/a\":\"*\"},\"require-dev\":{\"b/b\":\"*\"},\"repositories\":[{\"type\":\"path\",\"url\":\"p/*\"}]}",
            ),
            (
                "p/a/composer.json",
                "{\"name\":\"a/a\",\"version\":\"1.0.0\"}",
            ),
            (
                "p/b/composer.json",
                "{\"name\":\"b/b\",\"version\":\"v1.2\"}",
            ),
        ],
        update: false,
        answer: "package a/a 1.0.0\ndev b/b v1.2\nnew\n",
        errs: "",
    },
    // Nothing is required.
    Row {
        files: &[("composer.json", "{}")],
        update: true,
        answer: "new\n",
        errs: "",
    },
    // `update` does not look at the lock that stands.
    Row {
        files: &[
            (
                "composer.json",
                "{\"require\":{\"a/a\":\"*\"},\"repositories\":[{\"type\":\"path\",\"url\":\"p/*\"}]}",
            ),
            ("composer.lock", "["),
            (
                "p/a/composer.json",
                "{\"name\":\"a/a\",\"version\":\"1.0.0\"}",
            ),
        ],
        update: true,
        answer: "package a/a 1.0.0\nnew\n",
        errs: "",
    },
];

/// Locks that stand.
pub static LOCKED: [Row; 2] = [
    // Another content hash; folders of packages are not looked at.
    Row {
        files: &[
            (
                "composer.json",
                "{\"require\":{\"a/a\":\"*\"},\"require-dev\":{\"b/b\":\"^1.0\"}}",
            ),
            (
                "composer.lock",
                "{\"content-hash\":\"x\",\"packages\":[{\"name\":\"a/a\",\"version\":\"1.0.0\",\"dist\":{\"type\":\"path\",\"url\":\"p/a\"}}],\"packages-dev\":[{\"name\":\"b/b\",\"version\":\"v1.2\",\"dist\":{\"type\":\"path\",\"url\":\"p/b\"}}]}",
            ),
        ],
        update: false,
        answer: "package a/a 1.0.0\ndev b/b v1.2\n",
        errs: "warning: composer.lock is out of date\n",
    },
    // The content hash of composer.json.
    Row {
        files: &[
            ("composer.json", "{}"),
            (
                "composer.lock",
                "{\"content-hash\":\"d751713988987e9331980363e24189ce\",\"packages\":[],\"packages-dev\":[]}",
            ),
        ],
        update: false,
        answer: "",
        errs: "",
    },
];

/// Refusals.
pub static REFUSED: [Row; 8] = [
    // A package that stands for another, at a version that is not allowed.
    Row {
        files: &[
            (
                "composer.json",
                "{\"require\":{\"x/old\":\"^1.0\",\"x/new\":\"*\"},\"repositories\":[{\"type\":\"path\",\"url\":\"p/*\"}]}",
            ),
            (
                "p/new/composer.json",
                "{\"name\":\"x/new\",\"version\":\"1.0.0\",\"replace\":{\"x/old\":\"2.0.0\"}}",
            ),
            (
                "p/old/composer.json",
                "{\"name\":\"x/old\",\"version\":\"1.0.0\"}",
            ),
        ],
        update: true,
        answer: "error: no plan\n",
        errs: "",
    },
    // A stability that the root does not allow.
    Row {
        files: &[
            (
                "composer.json",
                "{\"require\":{\"a/a\":\"^1.0\"},\"repositories\":[{\"type\":\"path\",\"url\":\"p/*\"}]}",
            ),
            (
                "p/a/composer.json",
                "{\"name\":\"a/a\",\"version\":\"1.0.0\",\"require\":{\"b/b\":\"^1.0@beta\"}}",
            ),
            (
                "p/b/composer.json",
                "{\"name\":\"b/b\",\"version\":\"1.0.0-beta1\"}",
            ),
        ],
        update: true,
        answer: "error: no plan\n",
        errs: "",
    },
    // A url without a folder.
    Row {
        files: &[(
            "composer.json",
            "{\"repositories\":[{\"type\":\"path\",\"url\":\"gone\"}]}",
        )],
        update: false,
        answer: "error: missing gone\n",
        errs: "",
    },
    // A name that is kept for a table.
    Row {
        files: &[
            (
                "composer.json",
                "{\"repositories\":[{\"type\":\"path\",\"url\":\"p/*\"}]}",
            ),
            (
                "p/a/composer.json",
                "{\"name\":\"composer/autoload_psr4.php\",\"version\":\"1.0.0\"}",
            ),
        ],
        update: true,
        answer: "error: p/a/composer.json: reserved name composer/autoload_psr4.php\n",
        errs: "",
    },
    // A lock whose package no longer meets the root: the warning comes before the refusal.
    Row {
        files: &[
            ("composer.json", "{\"require\":{\"a/a\":\"^2.0\"}}"),
            (
                "composer.lock",
                "{\"content-hash\":\"x\",\"packages\":[{\"name\":\"a/a\",\"version\":\"1.0.0\",\"dist\":{\"type\":\"path\",\"url\":\"p/a\"}}],\"packages-dev\":[{\"name\":\"b/b\",\"version\":\"v1.2\",\"dist\":{\"type\":\"path\",\"url\":\"p/b\"}}]}",
            ),
        ],
        update: false,
        answer: "error: lock breaks unmet __root__ a/a\n",
        errs: "warning: composer.lock is out of date\n",
    },
    // The same of a package for development.
    Row {
        files: &[
            ("composer.json", "{\"require-dev\":{\"b/b\":\"^2.0\"}}"),
            (
                "composer.lock",
                "{\"content-hash\":\"x\",\"packages\":[{\"name\":\"a/a\",\"version\":\"1.0.0\",\"dist\":{\"type\":\"path\",\"url\":\"p/a\"}}],\"packages-dev\":[{\"name\":\"b/b\",\"version\":\"v1.2\",\"dist\":{\"type\":\"path\",\"url\":\"p/b\"}}]}",
            ),
        ],
        update: false,
        answer: "error: lock breaks unmet __root__ b/b\n",
        errs: "warning: composer.lock is out of date\n",
    },
    // A lock that can not be read is not none, and not warned of.
    Row {
        files: &[("composer.json", "{}"), ("composer.lock/x", "")],
        update: false,
        answer: "error: wrong kind composer.lock\n",
        errs: "",
    },
    // composer.json comes before the lock.
    Row {
        files: &[("src/A.php", "x"), ("composer.lock", "[")],
        update: false,
        answer: "error: no composer.json\n",
        errs: "",
    },
];
