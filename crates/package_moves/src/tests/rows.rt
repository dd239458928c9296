//! Trees with their jobs by hand, and what is refused.

use super::trees::Content;

/// What is not there, what is there besides, and the job, a part a line.
#[derive(Clone, Copy)]
pub struct Row(
    pub &'static [u8],
    pub &'static [(&'static [u8], Content)],
    pub &'static [u8],
);

/// Why there is no job.
#[derive(Clone, Copy)]
pub enum Outcome {
    MissingPath(&'static [u8]),
    OtherEntry(&'static [u8]),
    TooLong(&'static [u8]),
    TooMany,
}

/// What is not there, what is there besides, the folder of the first package, how many entries may be listed, and the refusal.
#[derive(Clone, Copy)]
pub struct Refused(
    pub &'static [u8],
    pub &'static [(&'static [u8], Content)],
    pub &'static [u8],
    pub u32,
    pub Outcome,
);

/// The part that stages the package `log` again.
const LOG: &[u8] = b"vendor/acme/log<r/log\n";

pub static ROWS: [Row; 26] = [
    // All stands.
    Row(b"", &[], b""),
    // A file with other bytes, or more of them.
    Row(
        b"",
        &[(b"p/vendor/acme/log/x.php", Content::File(b"y"))],
        LOG,
    ),
    Row(
        b"",
        &[(b"p/vendor/acme/log/x.php", Content::File(b"xx"))],
        LOG,
    ),
    Row(
        b"p/vendor/acme/log/x.php",
        &[(b"p/vendor/acme/log/x.php", Content::Long)],
        LOG,
    ),
    // A file more, far below or at the top, or one that is left out of copies.
    Row(
        b"",
        &[(b"p/vendor/acme/log/src/more", Content::File(b""))],
        LOG,
    ),
    Row(b"", &[(b"p/vendor/acme/log/z", Content::File(b""))], LOG),
    Row(
        b"",
        &[(b"p/vendor/acme/log/.git/HEAD", Content::File(b"h"))],
        LOG,
    ),
    // A file or an empty folder less.
    Row(b"p/vendor/acme/log/src/a", &[], LOG),
    Row(b"p/vendor/acme/log/empty", &[], LOG),
    // Another kind of entry.
    Row(
        b"p/vendor/acme/log/x.php",
        &[(b"p/vendor/acme/log/x.php/q", Content::File(b"x"))],
        LOG,
    ),
    Row(
        b"p/vendor/acme/log/x.php",
        &[(b"p/vendor/acme/log/x.php", Content::Other)],
        LOG,
    ),
    Row(
        b"p/vendor/acme/log/empty",
        &[(b"p/vendor/acme/log/empty", Content::File(b""))],
        LOG,
    ),
    // No target, or a file there.
    Row(b"p/vendor/acme/log", &[], LOG),
    Row(
        b"p/vendor/acme/log",
        &[(b"p/vendor/acme/log", Content::File(b""))],
        LOG,
    ),
    // Strangers, in path order, behind what is wanted. One below a package is no part of its own.
    Row(
        b"",
        &[
            (b"p/vendor/zed/q", Content::File(b"")),
            (b"p/vendor/composer/old.php", Content::Other),
            (b"p/vendor/acme/old/src/f", Content::File(b"")),
            (b"p/vendor/aaa", Content::File(b"")),
        ],
        b"vendor/aaa gone\nvendor/acme/old gone\nvendor/composer/old.php gone\nvendor/zed gone\n",
    ),
    Row(
        b"",
        &[
            (b"p/vendor/aaa/b", Content::Folder),
            (b"p/vendor/acme/log/old", Content::File(b"")),
            (b"p/vendor/autoload.php", Content::File(b"")),
        ],
        b"vendor/acme/log<r/log\nvendor/autoload.php=auto\nvendor/aaa gone\n",
    ),
    // No `vendor`, or one that is no folder.
    Row(
        b"p/vendor",
        &[],
        b"vendor/acme/file<r/file\nvendor/acme/log<r/log\nvendor/b/one<r/one\nvendor/composer/installed.json=i\nvendor/autoload.php=auto\n",
    ),
    Row(
        b"p/vendor",
        &[(b"p/vendor", Content::File(b""))],
        b"vendor: acme/file<r/file acme/log<r/log b/one<r/one composer/installed.json=i autoload.php=auto\n",
    ),
    Row(
        b"p/vendor",
        &[
            (b"p/vendor", Content::Other),
            (b"p/composer.lock", Content::File(b"k")),
        ],
        b"vendor: acme/file<r/file acme/log<r/log b/one<r/one composer/installed.json=i autoload.php=auto\ncomposer.lock=l\n",
    ),
    // A name of `vendor` that is needed and is no folder, or is not there.
    Row(
        b"p/vendor/acme",
        &[(b"p/vendor/acme", Content::File(b"f"))],
        b"vendor/acme: file<r/file log<r/log\n",
    ),
    Row(
        b"p/vendor/composer",
        &[
            (b"p/vendor/composer", Content::Other),
            (b"p/vendor/a", Content::Other),
            (b"p/vendor/b/one/f", Content::File(b"2")),
        ],
        b"vendor/b/one<r/one\nvendor/composer: installed.json=i\nvendor/a gone\n",
    ),
    Row(b"p/vendor/b", &[], b"vendor/b/one<r/one\n"),
    // Written files: other bytes, none, and what is no file.
    Row(
        b"",
        &[(b"p/composer.lock", Content::File(b"m"))],
        b"composer.lock=l\n",
    ),
    Row(
        b"p/composer.lock",
        &[(b"p/composer.lock/q", Content::Folder)],
        b"composer.lock=l\n",
    ),
    Row(
        b"p/vendor/autoload.php",
        &[(b"p/vendor/autoload.php", Content::Long)],
        b"vendor/autoload.php=auto\n",
    ),
    Row(
        b"p/vendor/autoload.php",
        &[(b"p/vendor/autoload.php/q", Content::File(b"auto"))],
        b"vendor/autoload.php=auto\n",
    ),
];

/// Sources are refused before the entries of targets count.
pub static REFUSED: [Refused; 10] = [
    Refused(b"", &[], b"absent", 99, Outcome::MissingPath(b"absent")),
    Refused(b"", &[], b"s/f", 99, Outcome::OtherEntry(b"s/f")),
    Refused(b"", &[], b"link", 99, Outcome::OtherEntry(b"link")),
    Refused(b"", &[], b"linked", 99, Outcome::OtherEntry(b"linked/l")),
    Refused(
        b"",
        &[(b"long/f", Content::Long)],
        b"long",
        99,
        Outcome::TooLong(b"long/f"),
    ),
    Refused(b"r/one", &[], b"r/file", 99, Outcome::MissingPath(b"r/one")),
    Refused(b"r/one", &[], b"r/file", 12, Outcome::MissingPath(b"r/one")),
    Refused(b"r/one", &[], b"r/file", 9, Outcome::TooMany),
    Refused(b"", &[], b"r/file", 26, Outcome::TooMany),
    Refused(b"", &[], b"r/file", 11, Outcome::TooMany),
];
