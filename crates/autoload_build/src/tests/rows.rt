//! Projects and their tables.

use table_scan::Mode;

/// A project in the folder `app` or at the root of the tree, with its packages below `store`, seen as their copies in
/// `vendor` will be.
#[derive(Drop)]
pub struct Built {
    /// The project's folder.
    pub project: &'static str,
    /// Its composer.json.
    pub root: &'static str,
    /// The composer.json of each package.
    pub packages: &'static [&'static str],
    /// Files with their texts.
    pub files: &'static [(&'static str, &'static str)],
    /// How classes are to be looked up.
    pub mode: Mode,
    /// Whether what is for development counts.
    pub dev: bool,
    /// The rows of PSR-4, of PSR-0, of the class map and of files, each table with its mark.
    pub tables: &'static [&'static str],
}

/// The rows of a project of ten packages with every kind of row.
pub const SHOP: &str =
    "{\"name\":\"shop/site\",\"autoload\":{\"psr-4\":{\"App\\\\\":[\"src/\",\"lib\"],\"\":\"any\"},\"psr-0\":{\"Old_\":\"old\"},\"classmap\":[\"maps\",\"one.inc\"],\"files\":[\"boot.php\"],\"exclude-from-classmap\":[\"maps/skip\"]},\"autoload-dev\":{\"psr-4\":{\"App\\\\Tests\\\\\":\"tests\",\"App\\\\\":\"src\"},\"classmap\":[\"devmaps\"],\"files\":[\"dev.php\"]}}";

/// The ten packages. Some require each other.
pub const TEN: &[&str] = &[
    "{\"name\":\"p/a\",\"require\":{\"p/b\":\"*\"},\"autoload\":{\"psr-4\":{\"P\\\\A\\\\\":\"src\"}}}",
    "{\"name\":\"p/b\",\"autoload\":{\"psr-4\":{\"P\\\\B\\\\\":[\"src\",\"more\"]},\"files\":[\"f.php\",\"g.php\"]}}",
    "{\"name\":\"p/c\",\"require\":{\"p/a\":\"*\"},\"autoload\":{\"psr-0\":{\"P_C_\":\"lib\"}}}",
    "{\"name\":\"p/d\",\"require\":{\"p/e\":\"*\"},\"autoload\":{\"classmap\":[\"X.php\"]}}",
    "{\"name\":\"p/e\",\"autoload\":{\"classmap\":[\"X.php\"]}}",
    "{\"name\":\"p/f\",\"autoload\":{\"psr-0\":{\"\":\"src\"}}}",
    "{\"name\":\"p/g\",\"autoload\":{\"psr-4\":{\"P\\\\\":\"src\",\"App\\\\\":\"app\"},\"exclude-from-classmap\":[\"src/Gone\"]}}",
    "{\"name\":\"p/h\",\"autoload\":{\"files\":[\"h.php\",\"h.php\",\"/h.php\"]}}",
    "{\"name\":\"p/i\",\"require\":{\"p/j\":\"*\"},\"autoload\":{\"psr-4\":{\"P\\\\I\\\\\":\"src\"}}}",
    "{\"name\":\"p/j\",\"require\":{\"p/i\":\"*\"},\"autoload\":{\"psr-4\":{\"P\\\\J\\\\\":\"\"}}}",
];

/// Their files.
pub const SHOP_FILES: &[(&str, &str)] = &[
    ("app/src/Home.php", "<?php namespace App; class Home {}"),
    ("app/lib/Home.php", "<?php namespace App; class Home {}"),
    ("app/src/Other.php", "<?php namespace App; class Else {}"),
    ("app/any/Any.php", "<?php class Any {}"),
    ("app/old/Old/Thing.php", "<?php class Old_Thing {}"),
    ("app/maps/M.php", "<?php namespace Maps; class M {}"),
    ("app/maps/skip/S.php", "<?php class S {}"),
    ("app/maps/.h/H.php", "<?php class H {}"),
    ("app/one.inc", "<?php interface One {}"),
    ("app/devmaps/D.php", "<?php trait D {}"),
    ("app/tests/T.php", "<?php namespace App\\Tests; class T {}"),
    ("app/vendor/any/V.php", "<?php class V {}"),
    (
        "store/p/a/src/Over.php",
        "<?php namespace P\\A; class Over {}",
    ),
    (
        "store/p/b/more/Two.php",
        "<?php namespace P\\B; class Two {} class Extra {}",
    ),
    ("store/p/c/lib/P/C/Deep.php", "<?php class P_C_Deep {}"),
    ("store/p/d/X.php", "<?php class X {}"),
    ("store/p/e/X.php", "<?php class X {} class Y {}"),
    ("store/p/f/src/Zed.php", "<?php class Zed {}"),
    (
        "store/p/g/src/A/Over.php",
        "<?php namespace P\\A; class Over {}",
    ),
    (
        "store/p/g/src/Gone/Q.php",
        "<?php namespace P\\Gone; class Q {}",
    ),
    (
        "store/p/j/vendor/V.php",
        "<?php namespace P\\J\\vendor; class V {}",
    ),
];

const PSR4_DEV: &str =
    "P\\J\\ app/vendor/p/j, P\\I\\ app/vendor/p/i/src, P\\B\\ app/vendor/p/b/src app/vendor/p/b/more, P\\A\\ app/vendor/p/a/src, P\\ app/vendor/p/g/src, App\\Tests\\ app/tests, App\\ app/src app/lib app/vendor/p/g/app,  app/any";

const PSR4_NO_DEV: &str =
    "P\\J\\ app/vendor/p/j, P\\I\\ app/vendor/p/i/src, P\\B\\ app/vendor/p/b/src app/vendor/p/b/more, P\\A\\ app/vendor/p/a/src, P\\ app/vendor/p/g/src, App\\ app/src app/lib app/vendor/p/g/app,  app/any";

const PSR0: &str = "P_C_ app/vendor/p/c/lib, Old_ app/old,  app/vendor/p/f/src";

const LISTED_NO_DEV: &str =
    "Maps\\M app/maps/M.php, One app/one.inc, X app/vendor/p/d/X.php, Y app/vendor/p/e/X.php";

const ALL_DEV: &str =
    "Any app/any/Any.php, App\\Home app/src/Home.php, App\\Tests\\T app/tests/T.php, D app/devmaps/D.php, Maps\\M app/maps/M.php, Old_Thing app/old/Old/Thing.php, One app/one.inc, P\\A\\Over app/vendor/p/a/src/Over.php, P\\B\\Two app/vendor/p/b/more/Two.php, P_C_Deep app/vendor/p/c/lib/P/C/Deep.php, X app/vendor/p/d/X.php, Y app/vendor/p/e/X.php, Zed app/vendor/p/f/src/Zed.php";

const FILES_NO_DEV: &str =
    "763e5a38c31a56de83e0b3df787469c7 app/vendor/p/b/f.php, f6b96f918bdc0067196f57682e0afcc6 app/vendor/p/b/g.php, fa0fd42b6fce045910be73f85b6c52ff app/vendor/p/h/h.php, 320021b12b794c0fca467cc0efd63309 app/vendor/p/h/h.php, d4e9f70b26311715f3072d2cb48197bf app/boot.php";

const FILES_DEV: &str =
    "763e5a38c31a56de83e0b3df787469c7 app/vendor/p/b/f.php, f6b96f918bdc0067196f57682e0afcc6 app/vendor/p/b/g.php, fa0fd42b6fce045910be73f85b6c52ff app/vendor/p/h/h.php, 320021b12b794c0fca467cc0efd63309 app/vendor/p/h/h.php, d4e9f70b26311715f3072d2cb48197bf app/boot.php, 428878c81558f247a5753547a3e4f7fa app/dev.php";

/// Projects with their four tables.
pub static BUILT: [Built; 5] = [
    Built {
        project: "app",
        root: SHOP,
        packages: TEN,
        files: SHOP_FILES,
        mode: Mode::Plain,
        dev: false,
        tables: &[PSR4_NO_DEV, PSR0, LISTED_NO_DEV, FILES_NO_DEV],
    },
    Built {
        project: "app",
        root: SHOP,
        packages: TEN,
        files: SHOP_FILES,
        mode: Mode::Optimised,
        dev: true,
        tables: &[PSR4_DEV, PSR0, ALL_DEV, FILES_DEV],
    },
    // Two packages that require each other declare one class: the one that comes later in package order is asked first.
    Built {
        project: "",
        root: "{}",
        packages: &[
            "{\"name\":\"a/a\",\"require\":{\"b/b\":\"*\"},\"autoload\":{\"classmap\":[\"X.php\"]}}",
            "{\"name\":\"b/b\",\"require\":{\"a/a\":\"*\"},\"autoload\":{\"classmap\":[\"X.php\"]}}",
        ],
        files: &[
            ("store/a/a/X.php", "<?php class X {}"),
            ("store/b/b/X.php", "<?php class X {}"),
        ],
        mode: Mode::Plain,
        dev: true,
        tables: &["", "", "X vendor/b/b/X.php", ""],
    },
    // PSR-4 comes before PSR-0 for one prefix.
    Built {
        project: "",
        root: "{\"autoload\":{\"psr-0\":{\"A\\\\\":\"q\"},\"psr-4\":{\"A\\\\\":\"p\"}}}",
        packages: &[],
        files: &[
            ("p/B.php", "<?php namespace A; class B {}"),
            ("q/A/B.php", "<?php namespace A; class B {}"),
        ],
        mode: Mode::Optimised,
        dev: true,
        tables: &["A\\ p", "A\\ q", "A\\B p/B.php", ""],
    },
    // Files that are always loaded are known by the name of their package and their path.
    Built {
        project: "",
        root: "{\"name\":\"x/y\",\"autoload\":{\"files\":[\"b.php\"]}}",
        packages: &[],
        files: &[],
        mode: Mode::Authoritative,
        dev: true,
        tables: &["", "", "", "3cf845a8d9487feb34da6e66037f8d9c b.php"],
    },
];

/// Which file each class opens, in the three modes.
#[derive(Drop)]
pub struct Opened {
    /// The composer.json of a project at the root of the tree.
    pub root: &'static str,
    /// The composer.json of each package.
    pub packages: &'static [&'static str],
    /// Files with their texts.
    pub files: &'static [(&'static str, &'static str)],
    /// A class, and the file that it opens by plain, optimised and authoritative tables; none where the text is empty.
    pub classes: &'static [(&'static str, [&'static str; 3])],
}

/// The files of an ordinary project, which shows its packages in their places.
const HOME: &[(&str, &str)] = &[
    ("src/Home.php", "<?php namespace App; class Home {}"),
    ("src/Foo.inc", "<?php namespace App; class Foo {}"),
    ("src/helpers.php", "<?php function help() {}"),
    (
        "vendor/acme/log/src/File.php",
        "<?php namespace Acme\\Log; class File {}",
    ),
    (
        "store/acme/log/src/File.php",
        "<?php namespace Acme\\Log; class File {}",
    ),
    (
        "vendor/acme/clock/src/Utc.php",
        "<?php namespace Acme\\Clock; class Utc {}",
    ),
    (
        "store/acme/clock/src/Utc.php",
        "<?php namespace Acme\\Clock; class Utc {}",
    ),
];

/// Projects with what their classes open.
pub static OPENED: [Opened; 6] = [
    Opened {
        root: "{\"name\":\"shop/site\",\"autoload\":{\"psr-4\":{\"App\\\\\":\"src/\"}}}",
        packages: &[
            "{\"name\":\"acme/log\",\"require\":{\"acme/clock\":\"^2.0\"},\"autoload\":{\"psr-4\":{\"Acme\\\\Log\\\\\":\"src\"}}}",
            "{\"name\":\"acme/clock\",\"autoload\":{\"psr-4\":{\"Acme\\\\Clock\\\\\":\"src\"}}}",
        ],
        files: HOME,
        classes: &[
            (
                "App\\Home",
                ["src/Home.php", "src/Home.php", "src/Home.php"],
            ),
            ("App\\Foo", ["", "", ""]),
            // A file that declares no class is none that the class map knows.
            ("App\\helpers", ["src/helpers.php", "src/helpers.php", ""]),
            (
                "Acme\\Log\\File",
                [
                    "vendor/acme/log/src/File.php",
                    "vendor/acme/log/src/File.php",
                    "vendor/acme/log/src/File.php",
                ],
            ),
            (
                "Acme\\Clock\\Utc",
                [
                    "vendor/acme/clock/src/Utc.php",
                    "vendor/acme/clock/src/Utc.php",
                    "vendor/acme/clock/src/Utc.php",
                ],
            ),
        ],
    },
    // Empty prefixes: PSR-4 before PSR-0.
    Opened {
        root: "{\"autoload\":{\"psr-4\":{\"\":\"a\"},\"psr-0\":{\"Q\":\"b\"}}}",
        packages: &[],
        files: &[
            ("a/Q.php", "<?php class Q {}"),
            ("b/Q.php", "<?php class Q {}"),
        ],
        // The class is ambiguous: its map has the greater prefix.
        classes: &[("Q", ["a/Q.php", "b/Q.php", "b/Q.php"])],
    },
    // An excluded file is out of reach of the scan.
    Opened {
        root: "{\"autoload\":{\"psr-4\":{\"App\\\\\":\"src\"},\"exclude-from-classmap\":[\"src/X.php\"]}}",
        packages: &[],
        files: &[("src/X.php", "<?php namespace App; class X {}")],
        classes: &[("App\\X", ["src/X.php", "src/X.php", ""])],
    },
    // A class in `vendor` to which a row of the root leads is out of reach too.
    Opened {
        root: "{\"autoload\":{\"psr-4\":{\"\":\"\"}}}",
        packages: &[],
        files: &[("vendor/X.php", "<?php namespace vendor; class X {}")],
        classes: &[("vendor\\X", ["vendor/X.php", "vendor/X.php", ""])],
    },
    // So is one whose file has no name before the ending.
    Opened {
        root: "{\"autoload\":{\"psr-0\":{\"App_\":\"old\"}}}",
        packages: &[],
        files: &[("old/App/.php", "<?php class App_ {}")],
        classes: &[("App_", ["old/App/.php", "old/App/.php", ""])],
    },
    // The first file at which an ambiguous class is looked for declares another one.
    Opened {
        root: "{\"autoload\":{\"psr-4\":{\"A\\\\\":[\"one\",\"two\"]}}}",
        packages: &[],
        files: &[
            ("one/B.php", "<?php namespace A; class C {}"),
            ("two/B.php", "<?php namespace A; class B {}"),
        ],
        classes: &[("A\\B", ["one/B.php", "two/B.php", "two/B.php"])],
    },
];
