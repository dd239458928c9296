//! Projects with path repositories, and what is told of their pools.

use std::alloc::Global;
use std::test::Fail;

/// What a test puts at a path.
#[derive(Clone, Copy)]
pub enum Content {
    Bytes(&'static [u8]),
    Folder,
    Other,
}

/// A path, and what is put there.
pub type Put = (&'static [u8], Content);

/// A project's folder, its composer.json, the other entries of the tree, and what is told of the pool: a line for each
/// candidate, with its name, its version as written, its folder, its url and the number of its repository; or the
/// refusal.
#[derive(Clone, Copy)]
pub struct Row {
    pub project: &'static [u8],
    pub root: &'static [u8],
    pub entries: &'static [Put],
    pub told: &'static [u8],
}

const CLOCK: Content = Content::Bytes(
    b"{\"name\":\"acme/clock\",\"version\":\"2.0.1\",\"autoload\":{\"psr-4\":{\"Acme\\\\Clock\\\\\":\"src\"}}}",
);

const LOG: Content = Content::Bytes(
    b"{\"name\":\"acme/log\",\"version\":\"1.2.5\",\"require\":{\"acme/clock\":\"^2.0\"},\"autoload\":{\"psr-4\":{\"Acme\\\\Log\\\\\":\"src\"},\"files\":[\"boot.php\"]}}",
);

const MAIL: Content = Content::Bytes(b"{\"name\":\"acme/mail\",\"version\":\"1.0.0\"}");

const ONE: Content = Content::Bytes(b"{\"name\":\"x/y\",\"version\":\"1.0.0\"}");

const ONE_SHORT: Content = Content::Bytes(b"{\"name\":\"x/y\",\"version\":\"1.0\"}");

const TWO: Content = Content::Bytes(b"{\"name\":\"x/y\",\"version\":\"2.0.0\"}");

const PACKAGES: &[u8] = b"{\"repositories\":[{\"type\":\"path\",\"url\":\"packages/*\"}]}";

const SHOP: &[u8] =
    b"{\"name\":\"shop/site\",\"require\":{\"php\":\">=8.1\",\"acme/log\":\"^1.2\"},\"repositories\":[{\"type\":\"path\",\"url\":\"packages/*\"}],\"autoload\":{\"psr-4\":{\"App\\\\\":\"src/\"}}}";

const ONE_AND_TWO: &[u8] =
    b"{\"repositories\":[{\"type\":\"path\",\"url\":\"one/*\"},{\"type\":\"path\",\"url\":\"two/*\"}]}";

const BESIDE: &[u8] = b"{\"repositories\":[{\"type\":\"path\",\"url\":\"../packages/*\"}]}";

const TWO_LEVELS: &[u8] = b"{\"repositories\":[{\"type\":\"path\",\"url\":\"*/*\"}]}";

const ABOVE_AND_IN: &[u8] =
    b"{\"repositories\":[{\"type\":\"path\",\"url\":\"../*\"},{\"type\":\"path\",\"url\":\"../*/*\"}]}";

const THREE_URLS: &[u8] =
    b"{\"repositories\":[{\"type\":\"path\",\"url\":\"packages/*\"},{\"type\":\"path\",\"url\":\"packages/*/lib\"},{\"type\":\"path\",\"url\":\"packages/.hidden\"}]}";

const NONE_AND_FILE: &[u8] =
    b"{\"repositories\":[{\"type\":\"path\",\"url\":\"none/*\"},{\"type\":\"path\",\"url\":\"file/*\"}]}";

const MAIL_AND_EMPTY: &[u8] =
    b"{\"repositories\":[{\"type\":\"path\",\"url\":\"./mail/\"},{\"type\":\"path\",\"url\":\"empty\"}]}";

const GONE: &[u8] = b"{\"repositories\":[{\"type\":\"path\",\"url\":\"gone\"}]}";

const ABOVE_ROOT: &[u8] = b"{\"repositories\":[{\"type\":\"path\",\"url\":\"../../packages/*\"}]}";

const ABOVE: &[u8] = b"{\"repositories\":[{\"type\":\"path\",\"url\":\"..\"}]}";

const IN_VENDOR: &[u8] = b"{\"repositories\":[{\"type\":\"path\",\"url\":\"../app/vendor/x\"}]}";

const FILE: &[u8] = b"{\"repositories\":[{\"type\":\"path\",\"url\":\"file\"}]}";

const PACKAGES_AND_GONE: &[u8] =
    b"{\"repositories\":[{\"type\":\"path\",\"url\":\"packages/*\"},{\"type\":\"path\",\"url\":\"gone\"}]}";

/// An ordinary project's packages.
static ORDINARY: [Put; 4] = [
    (b"packages/mail/composer.json", MAIL),
    (b"packages/log/composer.json", LOG),
    (b"packages/clock/composer.json", CLOCK),
    (b"packages/log/boot.php", Content::Bytes(b"")),
];

/// Two packages of one name and version.
static SAME_VERSION: [Put; 2] = [
    (b"packages/b/composer.json", ONE),
    (b"packages/a/composer.json", ONE),
];

/// The same version, written otherwise, and another one.
static OTHER_SPELLING: [Put; 3] = [
    (b"packages/a/composer.json", ONE),
    (b"packages/b/composer.json", ONE_SHORT),
    (b"packages/c/composer.json", TWO),
];

/// A name in two folders.
static TWO_FOLDERS: [Put; 3] = [
    (b"one/a/composer.json", ONE),
    (b"two/a/composer.json", TWO),
    (b"two/b/composer.json", MAIL),
];

/// Packages beside a project.
static SHARED: [Put; 3] = [
    (b"packages/clock/composer.json", CLOCK),
    (b"packages/log/composer.json", LOG),
    (b"app/src/Home.php", Content::Bytes(b"")),
];

/// Two packages that require each other.
static NEEDING_EACH_OTHER: [Put; 2] = [
    (
        b"b/b/composer.json",
        Content::Bytes(
            b"{\"name\":\"b/b\",\"require\":{\"a/a\":\"*\"},\"autoload\":{\"classmap\":[\"X.php\"]}}",
        ),
    ),
    (
        b"a/a/composer.json",
        Content::Bytes(
            b"{\"name\":\"a/a\",\"require\":{\"b/b\":\"*\"},\"autoload\":{\"classmap\":[\"X.php\"]}}",
        ),
    ),
];

/// The project itself, what is above it, and what an install writes.
static AROUND_PROJECT: [Put; 8] = [
    (b"app/composer.json", ONE),
    (b"composer.json", ONE),
    (b"mail/composer.json", MAIL),
    (b"app/vendor/composer.json", ONE),
    (b"app/vendor/x/composer.json", ONE),
    (b"app/.install/composer.json", ONE),
    (b"app/packages/composer.json", TWO),
    (b"mail/vendor/composer.json", CLOCK),
];

/// Hidden folders, files, folders without a manifest; a segment behind a `*`.
static NO_MATCHES: [Put; 6] = [
    (b"packages/.hidden/composer.json", ONE),
    (b"packages/a", Content::Bytes(b"")),
    (b"packages/b", Content::Other),
    (b"packages/c", Content::Folder),
    (b"packages/d/lib/composer.json", TWO),
    (b"packages/e/composer.json", MAIL),
];

static ONE_FILE: [Put; 1] = [(b"file", Content::Bytes(b""))];

/// A package, and a folder without a manifest.
static PLAIN_FOLDERS: [Put; 2] = [(b"mail/composer.json", MAIL), (b"empty", Content::Folder)];

static NOTHING: [Put; 0] = [];

static EMPTY_PROJECT: [Put; 1] = [(b"app", Content::Folder)];

static ABOVE_PROJECT: [Put; 2] = [(b"composer.json", ONE), (b"app", Content::Folder)];

static INSTALLED: [Put; 1] = [(b"app/vendor/x/composer.json", ONE)];

static MANIFEST_IS_FOLDER: [Put; 2] = [
    (b"packages/a/composer.json", Content::Folder),
    (b"packages/b/composer.json", Content::Bytes(b"[")),
];

static COMMA_BEHIND: [Put; 1] = [(b"packages/a/composer.json", Content::Bytes(b"{\"a\":1,}"))];

static BAD_BYTES: [Put; 1] = [(b"packages/a/composer.json", Content::Bytes(b"\xff"))];

static NAMELESS: [Put; 1] = [(
    b"packages/a/composer.json",
    Content::Bytes(b"{\"version\":\"1.0\"}"),
)];

static RESERVED: [Put; 1] = [(
    b"packages/a/composer.json",
    Content::Bytes(b"{\"name\":\"composer/autoload_psr4.php\",\"version\":\"1.0.0\"}"),
)];

static TARGET_DIR: [Put; 1] = [(
    b"packages/a/composer.json",
    Content::Bytes(b"{\"name\":\"a/a\",\"target-dir\":\"x\"}"),
)];

static CUT: [Put; 1] = [(b"packages/a/composer.json", Content::Bytes(b"{"))];

/// Two packages beside a hidden folder.
pub static TWO_PACKAGES: [Put; 3] = [
    (b"p/a/composer.json", ONE),
    (b"p/b/composer.json", MAIL),
    (b"p/.c", Content::Folder),
];

/// What is told of the pool of a project with this composer.json.
fn telling(
    project: &'static [u8],
    root: &'static [u8],
    entries: &'static [Put],
    told: &'static [u8],
) -> Row {
    Row {
        project,
        root,
        entries,
        told,
    }
}

/// Which packages count, and in which order.
pub fn pools_by_order(alloc: Global) -> Result<Vec<Row>, Fail> {
    let mut rows = Vec::new(alloc);
    rows.push(telling(
        b".",
        SHOP,
        &ORDINARY,
        b"acme/clock 2.0.1 packages/clock packages/clock 0\nacme/log 1.2.5 packages/log packages/log 0\nacme/mail 1.0.0 packages/mail packages/mail 0\n",
    ))?;
    rows.push(telling(
        b".",
        PACKAGES,
        &SAME_VERSION,
        b"x/y 1.0.0 packages/a packages/a 0\n",
    ))?;
    rows.push(telling(
        b".",
        PACKAGES,
        &OTHER_SPELLING,
        b"x/y 1.0.0 packages/a packages/a 0\nx/y 2.0.0 packages/c packages/c 0\n",
    ))?;
    rows.push(telling(
        b".",
        ONE_AND_TWO,
        &TWO_FOLDERS,
        b"x/y 1.0.0 one/a one/a 0\nacme/mail 1.0.0 two/b two/b 1\n",
    ))?;
    rows.push(telling(
        b"app",
        BESIDE,
        &SHARED,
        b"acme/clock 2.0.1 packages/clock ../packages/clock 0\nacme/log 1.2.5 packages/log ../packages/log 0\n",
    ))?;
    rows.push(telling(
        b".",
        TWO_LEVELS,
        &NEEDING_EACH_OTHER,
        b"a/a dev-main a/a a/a 0\nb/b dev-main b/b b/b 0\n",
    ))?;
    Ok(rows)
}

/// Which folders are packages'.
pub fn pools_by_folder(alloc: Global) -> Result<Vec<Row>, Fail> {
    let mut rows = Vec::new(alloc);
    rows.push(telling(
        b"app",
        ABOVE_AND_IN,
        &AROUND_PROJECT,
        b"acme/mail 1.0.0 mail ../mail 0\nx/y 2.0.0 app/packages ../app/packages 1\nacme/clock 2.0.1 mail/vendor ../mail/vendor 1\n",
    ))?;
    rows.push(telling(
        b".",
        THREE_URLS,
        &NO_MATCHES,
        b"acme/mail 1.0.0 packages/e packages/e 0\nx/y 2.0.0 packages/d/lib packages/d/lib 1\n",
    ))?;
    rows.push(telling(b".", NONE_AND_FILE, &ONE_FILE, b""))?;
    rows.push(telling(
        b".",
        MAIL_AND_EMPTY,
        &PLAIN_FOLDERS,
        b"acme/mail 1.0.0 mail mail 0\n",
    ))?;
    Ok(rows)
}

/// Which urls are refused, and with which path or text.
pub fn refused_urls(alloc: Global) -> Result<Vec<Row>, Fail> {
    let mut rows = Vec::new(alloc);
    rows.push(telling(b".", GONE, &NOTHING, b"missing gone"))?;
    rows.push(telling(
        b"app",
        ABOVE_ROOT,
        &EMPTY_PROJECT,
        b"missing ../../packages/*",
    ))?;
    rows.push(telling(b"app", ABOVE, &ABOVE_PROJECT, b"missing ."))?;
    rows.push(telling(b"app", IN_VENDOR, &INSTALLED, b"missing app/vendor/x"))?;
    rows.push(telling(b".", FILE, &ONE_FILE, b"other file"))?;
    Ok(rows)
}

/// The first refusal is that of the first folder, and of the earlier repository.
pub fn refused_manifests(alloc: Global) -> Result<Vec<Row>, Fail> {
    let mut rows = Vec::new(alloc);
    rows.push(telling(
        b".",
        PACKAGES,
        &MANIFEST_IS_FOLDER,
        b"other packages/a/composer.json",
    ))?;
    rows.push(telling(
        b".",
        PACKAGES,
        &COMMA_BEHIND,
        b"syntax packages/a/composer.json 7",
    ))?;
    rows.push(telling(
        b".",
        PACKAGES,
        &BAD_BYTES,
        b"utf8 packages/a/composer.json 0",
    ))?;
    rows.push(telling(
        b".",
        PACKAGES,
        &NAMELESS,
        b"field packages/a/composer.json /name",
    ))?;
    rows.push(telling(
        b".",
        PACKAGES,
        &RESERVED,
        b"reserved packages/a/composer.json composer/autoload_psr4.php",
    ))?;
    rows.push(telling(
        b".",
        PACKAGES,
        &TARGET_DIR,
        b"offered packages/a/composer.json /target-dir",
    ))?;
    rows.push(telling(
        b".",
        PACKAGES_AND_GONE,
        &CUT,
        b"syntax packages/a/composer.json 1",
    ))?;
    Ok(rows)
}
