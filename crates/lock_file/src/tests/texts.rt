//! Texts of locks, by hand.

/// The lock of an empty project's composer.json.
pub const EMPTY_LOCK: &str = r#"{
    "_readme": [
        "This file locks the dependencies of your project to a known state",
        "Read more about it at https://getcomposer.org/doc/01-basic-usage.md#installing-dependencies",
        "This file is @generated automatically"
    ],
    "content-hash": "d751713988987e9331980363e24189ce",
    "packages": [],
    "packages-dev": [],
    "aliases": [],
    "minimum-stability": "stable",
    "stability-flags": {},
    "prefer-stable": false,
    "prefer-lowest": false,
    "platform": {},
    "platform-dev": {},
    "plugin-api-version": "2.6.0"
}
"#;

/// What of Composer's lock with every key is kept, in this program's order of keys.
pub const FULL_LOCK_PRINTED: &str = r#"{
    "_readme": [
        "This file locks the dependencies of your project to a known state",
        "Read more about it at https://getcomposer.org/doc/01-basic-usage.md#installing-dependencies",
        "This file is @generated automatically"
    ],
    "content-hash": "0eb4c6fb531afb0a57eac2164de6191f",
    "packages": [
        {
            "name": "full/all",
            "version": "v1.0.2",
            "dist": {
                "type": "path",
                "url": "../packages/all",
                "reference": "3de7534260e75be039b41fcde6a6215fc8150059"
            },
            "require": {
                "php": ">=8.0",
                "virtual/log": "^1.0 || ^2.0"
            },
            "conflict": {
                "full/old": "<2.0"
            },
            "replace": {
                "full/part": "self.version"
            },
            "provide": {
                "virtual/cache": "1.0"
            },
            "type": "project",
            "autoload": {
                "psr-4": {
                    "": "any/",
                    "Full\\All\\": [
                        "src",
                        "more/"
                    ]
                },
                "psr-0": {
                    "Full_": "old/"
                },
                "classmap": [
                    "models",
                    "one.php"
                ],
                "files": [
                    "start.php",
                    "end.php"
                ],
                "exclude-from-classmap": [
                    "/tests/",
                    "**/no*"
                ]
            }
        },
        {
            "name": "full/edge",
            "version": "dev-main",
            "dist": {
                "type": "path",
                "url": "../packages/edge",
                "reference": "99fc0a9a9be0835e14ab0c833eb1ae34d7cbf5f0"
            },
            "provide": {
                "virtual/log": "2.1"
            },
            "type": "library"
        }
    ],
    "packages-dev": [
        {
            "name": "full/helper",
            "version": "1.0.0",
            "dist": {
                "type": "path",
                "url": "../packages/helper",
                "reference": "dba18c73a782e5bf22540f8ad98596f221239ebb"
            },
            "type": "library"
        },
        {
            "name": "full/tool",
            "version": "0.3.1-beta2",
            "dist": {
                "type": "path",
                "url": "../packages/tool",
                "reference": "b47ea8c3e498e2d7ed299ba6af6992b29b7b6cc3"
            },
            "require": {
                "full/helper": "*"
            },
            "type": "library"
        }
    ],
    "aliases": [],
    "minimum-stability": "beta",
    "stability-flags": {
        "full/edge": 20,
        "full/tool": 10
    },
    "prefer-stable": true,
    "prefer-lowest": false,
    "platform": {
        "ext-json": "*",
        "php": "^8.1"
    },
    "platform-dev": {
        "ext-mbstring": "*"
    },
    "plugin-api-version": "2.6.0"
}
"#;

/// What of Composer's installed.json of that project is kept, in this program's order of keys.
pub const FULL_INSTALLED_PRINTED: &str = r#"{
    "packages": [
        {
            "name": "full/all",
            "version": "v1.0.2",
            "dist": {
                "type": "path",
                "url": "../packages/all",
                "reference": "3de7534260e75be039b41fcde6a6215fc8150059"
            },
            "require": {
                "php": ">=8.0",
                "virtual/log": "^1.0 || ^2.0"
            },
            "conflict": {
                "full/old": "<2.0"
            },
            "replace": {
                "full/part": "self.version"
            },
            "provide": {
                "virtual/cache": "1.0"
            },
            "type": "project",
            "autoload": {
                "psr-4": {
                    "": "any/",
                    "Full\\All\\": [
                        "src",
                        "more/"
                    ]
                },
                "psr-0": {
                    "Full_": "old/"
                },
                "classmap": [
                    "models",
                    "one.php"
                ],
                "files": [
                    "start.php",
                    "end.php"
                ],
                "exclude-from-classmap": [
                    "/tests/",
                    "**/no*"
                ]
            },
            "version_normalized": "1.0.2.0",
            "install-path": "../full/all"
        },
        {
            "name": "full/edge",
            "version": "dev-main",
            "dist": {
                "type": "path",
                "url": "../packages/edge",
                "reference": "99fc0a9a9be0835e14ab0c833eb1ae34d7cbf5f0"
            },
            "provide": {
                "virtual/log": "2.1"
            },
            "type": "library",
            "version_normalized": "dev-main",
            "install-path": "../full/edge"
        },
        {
            "name": "full/helper",
            "version": "1.0.0",
            "dist": {
                "type": "path",
                "url": "../packages/helper",
                "reference": "dba18c73a782e5bf22540f8ad98596f221239ebb"
            },
            "type": "library",
            "version_normalized": "1.0.0.0",
            "install-path": "../full/helper"
        },
        {
            "name": "full/tool",
            "version": "0.3.1-beta2",
            "dist": {
                "type": "path",
                "url": "../packages/tool",
                "reference": "b47ea8c3e498e2d7ed299ba6af6992b29b7b6cc3"
            },
            "require": {
                "full/helper": "*"
            },
            "type": "library",
            "version_normalized": "0.3.1.0-beta2",
            "install-path": "../full/tool"
        }
    ],
    "dev": true,
    "dev-package-names": [
        "full/helper",
        "full/tool"
    ]
}
"#;

/// The same, without what is for development.
pub const FULL_NO_DEV_INSTALLED_PRINTED: &str = r#"{
    "packages": [
        {
            "name": "full/all",
            "version": "v1.0.2",
            "dist": {
                "type": "path",
                "url": "../packages/all",
                "reference": "3de7534260e75be039b41fcde6a6215fc8150059"
            },
            "require": {
                "php": ">=8.0",
                "virtual/log": "^1.0 || ^2.0"
            },
            "conflict": {
                "full/old": "<2.0"
            },
            "replace": {
                "full/part": "self.version"
            },
            "provide": {
                "virtual/cache": "1.0"
            },
            "type": "project",
            "autoload": {
                "psr-4": {
                    "": "any/",
                    "Full\\All\\": [
                        "src",
                        "more/"
                    ]
                },
                "psr-0": {
                    "Full_": "old/"
                },
                "classmap": [
                    "models",
                    "one.php"
                ],
                "files": [
                    "start.php",
                    "end.php"
                ],
                "exclude-from-classmap": [
                    "/tests/",
                    "**/no*"
                ]
            },
            "version_normalized": "1.0.2.0",
            "install-path": "../full/all"
        },
        {
            "name": "full/edge",
            "version": "dev-main",
            "dist": {
                "type": "path",
                "url": "../packages/edge",
                "reference": "99fc0a9a9be0835e14ab0c833eb1ae34d7cbf5f0"
            },
            "provide": {
                "virtual/log": "2.1"
            },
            "type": "library",
            "version_normalized": "dev-main",
            "install-path": "../full/edge"
        }
    ],
    "dev": false,
    "dev-package-names": []
}
"#;
