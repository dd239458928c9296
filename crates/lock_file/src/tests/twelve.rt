//! A plan of twelve packages with every field of an entry, and its lock by hand. What `acme/cache` requires at run time is
//! met by the name that `acme/log` replaces, and what that requires by the one that `psr/log` provides.

pub static ROOT: &str =
    r#"{"require": {"acme/zip": "^1.4", "acme/cache": "dev-main", "acme/html": "*", "php": ">=8.1", "ext-mbstring": "*"}, "require-dev": {"dev/bench": "^4.0", "dev/doc": "@RC", "dev/style": "*", "ext-xdebug": "^3.0"}, "minimum-stability": "beta", "prefer-stable": true}"#;

pub static MEMBERS: [&str; 12] = [
    r#"{"name": "acme/zip", "version": "1.4.0", "type": "library", "require": {"acme/stream": "^2.0", "ext-zlib": "*"}, "autoload": {"psr-4": {"Acme\\Zip\\": "src/"}}}"#,
    r#"{"name": "acme/stream", "version": "v2.1.0", "require": {"php": ">=8.0"}, "autoload": {"psr-0": {"Acme_Stream_": ["lib", "more/"]}, "files": ["stream.php"]}}"#,
    r#"{"name": "acme/log", "version": "3.0.0-beta2", "require": {"psr/log-interface": "^3.0"}, "conflict": {"acme/old-log": "<3.0"}, "replace": {"acme/logger": "self.version"}, "autoload": {"psr-4": {"Acme\\Log\\": ["src", "extra"]}, "exclude-from-classmap": ["/tests/"]}}"#,
    r#"{"name": "psr/log", "version": "3.0.1", "provide": {"psr/log-interface": "3.0.0"}, "autoload": {"psr-4": {"Psr\\Log\\": "src"}}}"#,
    r#"{"name": "acme/cache", "version": "dev-main", "require": {"acme/logger": "^3.0@beta"}, "type": "project", "autoload": {"classmap": ["src/", "one.php"]}}"#,
    r#"{"name": "acme/html", "version": "0.9.5", "require": {"acme/text": "~1.2"}, "autoload": {"psr-4": {"": "any"}}}"#,
    r#"{"name": "acme/text", "version": "1.2.7"}"#,
    r#"{"name": "dev/test", "version": "9.5.1", "require": {"dev/assert": ">=1.0 <2.0", "acme/text": "^1.0"}, "autoload": {"psr-4": {"Dev\\Test\\": "src/"}, "files": ["f.php"]}}"#,
    r#"{"name": "dev/assert", "version": "1.11.0", "conflict": {"dev/mock": "*"}}"#,
    r#"{"name": "dev/style", "version": "2.0.0", "replace": {"dev/fixer": "1.0", "dev/sniffer": "3.7"}, "require": {"ext-tokenizer": "*"}}"#,
    r#"{"name": "dev/doc", "version": "1.0.0-RC1", "provide": {"dev/doc-tool": "1.0"}, "autoload": {"classmap": ["doc"]}}"#,
    r#"{"name": "dev/bench", "version": "4.0.0", "require": {"dev/test": "^9.0", "dev/fixer": "*"}}"#,
];

pub static LOCK: &str = r#"{
    "_readme": [
        "This file locks the dependencies of your project to a known state",
        "Read more about it at https://getcomposer.org/doc/01-basic-usage.md#installing-dependencies",
        "This file is @generated automatically"
    ],
    "content-hash": "d751713988987e9331980363e24189ce",
    "packages": [
        {
            "name": "acme/cache",
            "version": "dev-main",
            "dist": {
                "type": "path",
                "url": "acme/cache",
                "reference": "r"
            },
            "require": {
                "acme/logger": "^3.0@beta"
            },
            "type": "project",
            "autoload": {
                "classmap": [
                    "src/",
                    "one.php"
                ]
            }
        },
        {
            "name": "acme/html",
            "version": "0.9.5",
            "dist": {
                "type": "path",
                "url": "acme/html",
                "reference": "r"
            },
            "require": {
                "acme/text": "~1.2"
            },
            "type": "library",
            "autoload": {
                "psr-4": {
                    "": "any"
                }
            }
        },
        {
            "name": "acme/log",
            "version": "3.0.0-beta2",
            "dist": {
                "type": "path",
                "url": "acme/log",
                "reference": "r"
            },
            "require": {
                "psr/log-interface": "^3.0"
            },
            "conflict": {
                "acme/old-log": "<3.0"
            },
            "replace": {
                "acme/logger": "self.version"
            },
            "type": "library",
            "autoload": {
                "psr-4": {
                    "Acme\\Log\\": [
                        "src",
                        "extra"
                    ]
                },
                "exclude-from-classmap": [
                    "/tests/"
                ]
            }
        },
        {
            "name": "acme/stream",
            "version": "v2.1.0",
            "dist": {
                "type": "path",
                "url": "acme/stream",
                "reference": "r"
            },
            "require": {
                "php": ">=8.0"
            },
            "type": "library",
            "autoload": {
                "psr-0": {
                    "Acme_Stream_": [
                        "lib",
                        "more/"
                    ]
                },
                "files": [
                    "stream.php"
                ]
            }
        },
        {
            "name": "acme/text",
            "version": "1.2.7",
            "dist": {
                "type": "path",
                "url": "acme/text",
                "reference": "r"
            },
            "type": "library"
        },
        {
            "name": "acme/zip",
            "version": "1.4.0",
            "dist": {
                "type": "path",
                "url": "acme/zip",
                "reference": "r"
            },
            "require": {
                "acme/stream": "^2.0",
                "ext-zlib": "*"
            },
            "type": "library",
            "autoload": {
                "psr-4": {
                    "Acme\\Zip\\": "src/"
                }
            }
        },
        {
            "name": "psr/log",
            "version": "3.0.1",
            "dist": {
                "type": "path",
                "url": "psr/log",
                "reference": "r"
            },
            "provide": {
                "psr/log-interface": "3.0.0"
            },
            "type": "library",
            "autoload": {
                "psr-4": {
                    "Psr\\Log\\": "src"
                }
            }
        }
    ],
    "packages-dev": [
        {
            "name": "dev/assert",
            "version": "1.11.0",
            "dist": {
                "type": "path",
                "url": "dev/assert",
                "reference": "r"
            },
            "conflict": {
                "dev/mock": "*"
            },
            "type": "library"
        },
        {
            "name": "dev/bench",
            "version": "4.0.0",
            "dist": {
                "type": "path",
                "url": "dev/bench",
                "reference": "r"
            },
            "require": {
                "dev/test": "^9.0",
                "dev/fixer": "*"
            },
            "type": "library"
        },
        {
            "name": "dev/doc",
            "version": "1.0.0-RC1",
            "dist": {
                "type": "path",
                "url": "dev/doc",
                "reference": "r"
            },
            "provide": {
                "dev/doc-tool": "1.0"
            },
            "type": "library",
            "autoload": {
                "classmap": [
                    "doc"
                ]
            }
        },
        {
            "name": "dev/style",
            "version": "2.0.0",
            "dist": {
                "type": "path",
                "url": "dev/style",
                "reference": "r"
            },
            "require": {
                "ext-tokenizer": "*"
            },
            "replace": {
                "dev/fixer": "1.0",
                "dev/sniffer": "3.7"
            },
            "type": "library"
        },
        {
            "name": "dev/test",
            "version": "9.5.1",
            "dist": {
                "type": "path",
                "url": "dev/test",
                "reference": "r"
            },
            "require": {
                "dev/assert": ">=1.0 <2.0",
                "acme/text": "^1.0"
            },
            "type": "library",
            "autoload": {
                "psr-4": {
                    "Dev\\Test\\": "src/"
                },
                "files": [
                    "f.php"
                ]
            }
        }
    ],
    "aliases": [],
    "minimum-stability": "beta",
    "stability-flags": {
        "acme/cache": 20,
        "dev/doc": 5
    },
    "prefer-stable": true,
    "prefer-lowest": false,
    "platform": {
        "php": ">=8.1",
        "ext-mbstring": "*"
    },
    "platform-dev": {
        "ext-xdebug": "^3.0"
    },
    "plugin-api-version": "2.6.0"
}
"#;
