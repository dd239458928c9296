//! Projects with path repositories that Composer 2.5.5 locked: vectors/composer_locks.sh makes them.

use super::{Content, Put, found, gives, tree_of};
use std::test::Fail;

const PLAIN: &[u8] =
    br#"{"name": "shop/site", "require": {"php": ">=8.1", "acme/log": "^1.2"}, "autoload": {"psr-4": {"App\\": "src/"}},
 "repositories": [{"type": "path", "url": "packages/*"}, {"packagist.org": false}]}
"#;

const PLAIN_LOCK: &[u8] = br#"{
    "_readme": [
        "This file locks the dependencies of your project to a known state",
        "Read more about it at https://getcomposer.org/doc/01-basic-usage.md#installing-dependencies",
        "This file is @generated automatically"
    ],
    "content-hash": "fb1bc72b44995ffb929b8b6de8d67b2a",
    "packages": [
        {
            "name": "acme/clock",
            "version": "2.0.1",
            "dist": {
                "type": "path",
                "url": "packages/clock",
                "reference": "01060a3bf6d697020fff42e7835e9d07908aa752"
            },
            "type": "library",
            "autoload": {
                "psr-4": {
                    "Acme\\Clock\\": "src"
                }
            },
            "transport-options": {
                "relative": true
            }
        },
        {
            "name": "acme/log",
            "version": "1.2.5",
            "dist": {
                "type": "path",
                "url": "packages/log",
                "reference": "959eb6f71e2166ccdced1cc966fdc9e214cde586"
            },
            "require": {
                "acme/clock": "^2.0",
                "php": ">=8.0"
            },
            "type": "library",
            "autoload": {
                "psr-4": {
                    "Acme\\Log\\": "src"
                },
                "files": [
                    "boot.php"
                ]
            },
            "transport-options": {
                "relative": true
            }
        }
    ],
    "packages-dev": [],
    "aliases": [],
    "minimum-stability": "stable",
    "stability-flags": [],
    "prefer-stable": false,
    "prefer-lowest": false,
    "platform": {
        "php": ">=8.1"
    },
    "platform-dev": [],
    "plugin-api-version": "2.3.0"
}
"#;

const FULL: &[u8] =
    br#"{"name": "shop/app", "require": {"full/all": "1.*", "full/edge": "dev-main", "ext-json": "*", "php": "^8.1"},
 "require-dev": {"full/tool": "^0.3@beta", "ext-mbstring": "*"}, "minimum-stability": "beta", "prefer-stable": true,
 "repositories": [{"type": "path", "url": "../packages/*"}, {"packagist.org": false}]}
"#;

const FULL_LOCK: &[u8] = br#"{
    "_readme": [
        "This file locks the dependencies of your project to a known state",
        "Read more about it at https://getcomposer.org/doc/01-basic-usage.md#installing-dependencies",
        "This file is @generated automatically"
    ],
    "content-hash": "0eb4c6fb531afb0a57eac2164de6191f",
    "packages": [
        {
            "name": "full/all",
            "version": "v1.0.2",
            "dist": {
                "type": "path",
                "url": "../packages/all",
                "reference": "3de7534260e75be039b41fcde6a6215fc8150059"
            },
            "require": {
                "php": ">=8.0",
                "virtual/log": "^1.0 || ^2.0"
            },
            "conflict": {
                "full/old": "<2.0"
            },
            "provide": {
                "virtual/cache": "1.0"
            },
            "replace": {
                "full/part": "self.version"
            },
            "suggest": {
                "full/more": "for more"
            },
            "bin": [
                "run"
            ],
            "type": "project",
            "extra": {
                "x": {
                    "y": [
                        1,
                        2.5,
                        null
                    ]
                }
            },
            "autoload": {
                "psr-4": {
                    "": "any/",
                    "Full\\All\\": [
                        "src",
                        "more/"
                    ]
                },
                "psr-0": {
                    "Full_": "old/"
                },
                "classmap": [
                    "models",
                    "one.php"
                ],
                "files": [
                    "start.php",
                    "end.php"
                ],
                "exclude-from-classmap": [
                    "/tests/",
                    "**/no*"
                ]
            },
            "license": [
                "MIT"
            ],
            "description": "Has all",
            "keywords": [
                "a",
                "b"
            ],
            "transport-options": {
                "relative": true
            }
        },
        {
            "name": "full/edge",
            "version": "dev-main",
            "dist": {
                "type": "path",
                "url": "../packages/edge",
                "reference": "99fc0a9a9be0835e14ab0c833eb1ae34d7cbf5f0"
            },
            "provide": {
                "virtual/log": "2.1"
            },
            "type": "library",
            "transport-options": {
                "relative": true
            }
        }
    ],
    "packages-dev": [
        {
            "name": "full/helper",
            "version": "1.0.0",
            "dist": {
                "type": "path",
                "url": "../packages/helper",
                "reference": "dba18c73a782e5bf22540f8ad98596f221239ebb"
            },
            "type": "library",
            "transport-options": {
                "relative": true
            }
        },
        {
            "name": "full/tool",
            "version": "0.3.1-beta2",
            "dist": {
                "type": "path",
                "url": "../packages/tool",
                "reference": "b47ea8c3e498e2d7ed299ba6af6992b29b7b6cc3"
            },
            "require": {
                "full/helper": "*"
            },
            "type": "library",
            "transport-options": {
                "relative": true
            }
        }
    ],
    "aliases": [],
    "minimum-stability": "beta",
    "stability-flags": {
        "full/edge": 20,
        "full/tool": 10
    },
    "prefer-stable": true,
    "prefer-lowest": false,
    "platform": {
        "ext-json": "*",
        "php": "^8.1"
    },
    "platform-dev": {
        "ext-mbstring": "*"
    },
    "plugin-api-version": "2.3.0"
}
"#;

/// A root that requires a package, which requires another one.
static PLAIN_PROJECT: [Put; 2] = [
    (b"composer.json", Content::Bytes(PLAIN)),
    (b"composer.lock", Content::Bytes(PLAIN_LOCK)),
];

/// A root below the tree's, with packages for development, flags, and virtual packages.
static FULL_PROJECT: [Put; 2] = [
    (b"app/composer.json", Content::Bytes(FULL)),
    (b"app/composer.lock", Content::Bytes(FULL_LOCK)),
];

#[test]
fn locks_of_composer(rt: HostRuntime) -> Result<(), Fail> {
    let plain = found(&PLAIN_PROJECT, "check", b"hash current\nmeets\n");
    let mut tree = tree_of(&rt, rt.alloc(), &plain)?;
    gives(&rt, rt.alloc(), &plain, &mut tree)?;
    let full = found(&FULL_PROJECT, "-d app check", b"hash current\nmeets\n");
    let mut tree = tree_of(&rt, rt.alloc(), &full)?;
    gives(&rt, rt.alloc(), &full, &mut tree)
}
