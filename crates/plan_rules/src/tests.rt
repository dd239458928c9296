use super::*;
use manifest_read::{Manifest, Package, Role, from_doc};
use path_name::{FolderRef, Items, Name, Path, Text};
use pkg_pool::{Candidate, Pool};
use std::alloc::Global;
use std::test::*;

fn manifest(alloc: Global, text: &str, role: Role) -> Option<Manifest> {
    let doc = json_ordered::read(alloc, text.as_bytes()).ok()?;
    from_doc(alloc, &doc, role).ok()
}

fn package_of(manifest: Manifest) -> Package {
    manifest.package
}

fn candidate(alloc: Global, text: &str) -> Option<Candidate> {
    let url = FolderRef::read(alloc, b"p").ok()?;
    let manifest = manifest(alloc, text, Role::Member)?;
    Some(Candidate {
        package: package_of(manifest),
        repository: 0,
        url,
        folder: Path::root(alloc),
        reference: Text::empty(alloc),
    })
}

fn candidates(alloc: Global, texts: &str) -> Option<Vec<Candidate>> {
    let mut candidates = Vec::new(alloc);
    for text in texts.split('|') {
        if !text.is_empty() {
            candidates.push(candidate(alloc, text)?).ok()?;
        }
    }
    Some(candidates)
}

/// The pool of a root and candidates, whose texts have `|` between them.
fn pool_of(alloc: Global, texts: &str) -> Option<Pool> {
    let (root, others) = texts.split_once('|')?;
    let root = manifest(alloc, root, Role::Root)?;
    let candidates = Items::of(candidates(alloc, others)?);
    Some(Pool { root, candidates })
}

fn selection(alloc: Global, digits: &str) -> Option<Selection> {
    let mut members = Vec::new(alloc);
    for digit in digits.as_bytes() {
        members.push(u32::from(digit.saturating_sub(b'0'))).ok()?;
    }
    Some(Selection {
        members: Items::of(members),
    })
}

fn told_of(alloc: Global, word: &[u8], names: &[&Name]) -> Option<Vec<u8>> {
    let mut told = Vec::from_slice(alloc, word).ok()?;
    for name in names {
        told.push(b' ').ok()?;
        told.extend_from_slice(name.as_slice()).ok()?;
    }
    Some(told)
}

fn told(alloc: Global, verdict: &Verdict) -> Option<Vec<u8>> {
    match verdict {
        Verdict::Meets => told_of(alloc, b"Meets", &[]),
        Verdict::Breaks(Rule::NotAllowed(a)) => told_of(alloc, b"NotAllowed", &[a]),
        Verdict::Breaks(Rule::TwoOwners(a, b, c)) => told_of(alloc, b"TwoOwners", &[a, b, c]),
        Verdict::Breaks(Rule::Unmet(a, b)) => told_of(alloc, b"Unmet", &[a, b]),
        Verdict::Breaks(Rule::Conflict(a, b, c)) => told_of(alloc, b"Conflict", &[a, b, c]),
        Verdict::Breaks(Rule::Platform(a, b)) => told_of(alloc, b"Platform", &[a, b]),
    }
}

/// The verdict of a selection, by the digits of its candidates.
fn told_of_selection(alloc: Global, texts: &str, digits: &str) -> Option<Vec<u8>> {
    let selection = selection(alloc, digits)?;
    let pool = pool_of(alloc, texts)?;
    let verdict = check(alloc, &pool, &selection).ok()?;
    told(alloc, &verdict)
}

/// Whether a selection is told as a row has it behind the pool and the digits of the selected candidates.
fn holds(alloc: Global, row: &str) -> Option<bool> {
    let (texts, wanted) = row.rsplit_once('|')?;
    let (texts, digits) = texts.rsplit_once('|')?;
    let told = told_of_selection(alloc, texts, digits)?;
    Some(told.as_slice() == wanted.as_bytes())
}

static ALLOWED: [&str; 12] = [
    "{}|||Meets",
    "{}|{\"name\":\"a/a\",\"version\":\"1.0.0\"}||Meets",
    "{}|{\"name\":\"a/a\",\"version\":\"1.0.0\"}|0|Meets",
    "{}|{\"name\":\"a/a\",\"version\":\"1.0.0\"}|00|Meets",
    "{}|{\"name\":\"a/a\",\"version\":\"1.0.0\"}|7|Meets",
    "{}|{\"name\":\"a/a\",\"version\":\"1.0.0-beta1\"}|0|NotAllowed a/a",
    "{}|{\"name\":\"a/a\",\"version\":\"1.0.0-beta1\"}||Meets",
    "{\"minimum-stability\":\"dev\"}|{\"name\":\"a/a\",\"version\":\"dev-main\"}|0|Meets",
    "{\"minimum-stability\":\"beta\"}|{\"name\":\"a/a\",\"version\":\"1.0.0-alpha1\"}|0|NotAllowed a/a",
    "{\"require\":{\"a/a\":\"*@beta\"}}|{\"name\":\"a/a\",\"version\":\"1.0.0-beta1\"}|0|Meets",
    "{}|{\"name\":\"b/b\",\"version\":\"1.0.0-beta1\"}|{\"name\":\"a/a\",\"version\":\"1.0.0-alpha1\"}|01|NotAllowed a/a",
    "{}|{\"name\":\"a/a\",\"version\":\"1.0.0-beta1\"}|{\"name\":\"a/a\",\"version\":\"2.0.0\"}|01|NotAllowed a/a",
];

static OWNERS: [&str; 11] = [
    "{}|{\"name\":\"a/a\",\"version\":\"1.0.0\"}|{\"name\":\"a/a\",\"version\":\"2.0.0\"}|01|TwoOwners a/a a/a a/a",
    "{}|{\"name\":\"a/a\",\"version\":\"1.0.0\"}|{\"name\":\"b/b\",\"version\":\"1.0.0\",\"replace\":{\"a/a\":\"1.0\"}}|01|TwoOwners a/a a/a b/b",
    "{}|{\"name\":\"z/z\",\"version\":\"1.0.0\"}|{\"name\":\"b/b\",\"version\":\"1.0.0\",\"replace\":{\"z/z\":\"1.0\"}}|01|TwoOwners z/z b/b z/z",
    "{}|{\"name\":\"a/a\",\"version\":\"1.0.0\",\"replace\":{\"x/x\":\"1.0\"}}|{\"name\":\"b/b\",\"version\":\"1.0.0\",\"replace\":{\"x/x\":\"2.0\"}}|01|TwoOwners x/x a/a b/b",
    "{}|{\"name\":\"a/a\",\"version\":\"1.0.0\",\"replace\":{\"y/y\":\"1.0\",\"x/x\":\"1.0\"}}|{\"name\":\"b/b\",\"version\":\"1.0.0\",\"replace\":{\"y/y\":\"1.0\",\"x/x\":\"1.0\"}}|01|TwoOwners x/x a/a b/b",
    "{\"name\":\"r/r\"}|{\"name\":\"a/a\",\"version\":\"1.0.0\",\"replace\":{\"r/r\":\"1.0\"}}|0|TwoOwners r/r r/r a/a",
    "{\"replace\":{\"b/b\":\"*\"}}|{\"name\":\"b/b\",\"version\":\"1.0.0\"}|0|TwoOwners b/b __root__ b/b",
    "{}|{\"name\":\"c/c\",\"version\":\"1.0.0\",\"replace\":{\"x/x\":\"1.0\"}}|{\"name\":\"b/b\",\"version\":\"1.0.0\",\"replace\":{\"x/x\":\"1.0\"}}|{\"name\":\"a/a\",\"version\":\"1.0.0\",\"replace\":{\"x/x\":\"1.0\"}}|012|TwoOwners x/x a/a b/b",
    "{}|{\"name\":\"a/a\",\"version\":\"1.0.0\",\"provide\":{\"v/v\":\"1.0\"}}|{\"name\":\"b/b\",\"version\":\"1.0.0\",\"provide\":{\"v/v\":\"1.0\"}}|01|Meets",
    "{}|{\"name\":\"a/a\",\"version\":\"1.0.0\",\"replace\":{\"a/a\":\"1.0\"}}|0|Meets",
    "{\"require\":{\"q/q\":\"*\"}}|{\"name\":\"a/a\",\"version\":\"1.0.0\"}|{\"name\":\"a/a\",\"version\":\"2.0.0\"}|01|TwoOwners a/a a/a a/a",
];

static NEEDS: [&str; 19] = [
    "{\"require\":{\"a/a\":\"*\"}}|{\"name\":\"a/a\",\"version\":\"1.0.0\"}|0|Meets",
    "{\"require\":{\"a/a\":\"*\"}}|{\"name\":\"a/a\",\"version\":\"1.0.0\"}||Unmet __root__ a/a",
    "{\"require\":{\"a/a\":\"^2\"}}|{\"name\":\"a/a\",\"version\":\"1.0.0\"}|0|Unmet __root__ a/a",
    "{\"require-dev\":{\"a/a\":\"*\"}}|{\"name\":\"a/a\",\"version\":\"1.0.0\"}||Unmet __root__ a/a",
    "{\"require\":{\"a/a\":\"*\"}}|{\"name\":\"a/a\",\"version\":\"1.0.0\",\"require\":{\"b/b\":\"*\"}}|{\"name\":\"b/b\",\"version\":\"1.0.0\"}|0|Unmet a/a b/b",
    "{\"require\":{\"a/a\":\"*\"}}|{\"name\":\"a/a\",\"version\":\"1.0.0\",\"require\":{\"b/b\":\"*\"}}|{\"name\":\"b/b\",\"version\":\"1.0.0\"}|01|Meets",
    "{\"require\":{\"a/a\":\"*\"}}|{\"name\":\"a/a\",\"version\":\"1.0.0\",\"require-dev\":{\"b/b\":\"*\"}}|0|Meets",
    "{\"require\":{\"x/x\":\"^1.0\"}}|{\"name\":\"a/a\",\"version\":\"1.0.0\",\"replace\":{\"x/x\":\"1.5\"}}|0|Meets",
    "{\"require\":{\"x/x\":\"^1.0\"}}|{\"name\":\"a/a\",\"version\":\"1.0.0\",\"replace\":{\"x/x\":\"2.0\"}}|0|Unmet __root__ x/x",
    "{\"require\":{\"x/x\":\"^1.0\"}}|{\"name\":\"a/a\",\"version\":\"1.0.0\",\"provide\":{\"x/x\":\"1.5\"}}|0|Meets",
    "{\"require\":{\"x/x\":\"^1.0\"}}|{\"name\":\"a/a\",\"version\":\"1.0.0\",\"provide\":{\"x/x\":\"2.0\"}}|0|Unmet __root__ x/x",
    "{\"require\":{\"x/x\":\"^1.0\"}}|{\"name\":\"a/a\",\"version\":\"1.2.0\",\"replace\":{\"x/x\":\"self.version\"}}|0|Meets",
    "{\"name\":\"r/r\",\"version\":\"1.0.0\"}|{\"name\":\"a/a\",\"version\":\"1.0.0\",\"require\":{\"r/r\":\"^1\"}}|0|Meets",
    "{\"replace\":{\"x/x\":\"1.0\"}}|{\"name\":\"a/a\",\"version\":\"1.0.0\",\"require\":{\"x/x\":\"*\"}}|0|Meets",
    "{\"require-dev\":{\"x/x\":\"*\"},\"require\":{\"y/y\":\"*\"}}|||Unmet __root__ y/y",
    "{\"require\":{\"y/y\":\"*\",\"x/x\":\"*\"}}|||Unmet __root__ y/y",
    "{}|{\"name\":\"b/b\",\"version\":\"1.0.0\",\"require\":{\"q/q\":\"*\"}}|{\"name\":\"a/a\",\"version\":\"1.0.0\",\"require\":{\"p/p\":\"*\"}}|01|Unmet a/a p/p",
    "{\"require\":{\"a/a\":\"dev-main\"},\"minimum-stability\":\"dev\"}|{\"name\":\"a/a\",\"version\":\"dev-main\"}|0|Meets",
    "{}|{\"name\":\"a/a\",\"version\":\"1.0.0\",\"conflict\":{\"b/b\":\"*\"}}|{\"name\":\"b/b\",\"version\":\"1.0.0\",\"require\":{\"q/q\":\"*\"}}|01|Unmet b/b q/q",
];

static CONFLICTS: [&str; 13] = [
    "{}|{\"name\":\"a/a\",\"version\":\"1.0.0\",\"conflict\":{\"b/b\":\"*\"}}|{\"name\":\"b/b\",\"version\":\"1.0.0\"}|01|Conflict a/a b/b b/b",
    "{}|{\"name\":\"a/a\",\"version\":\"1.0.0\",\"conflict\":{\"b/b\":\"*\"}}|{\"name\":\"b/b\",\"version\":\"1.0.0\"}|0|Meets",
    "{}|{\"name\":\"a/a\",\"version\":\"1.0.0\",\"conflict\":{\"b/b\":\"^2\"}}|{\"name\":\"b/b\",\"version\":\"1.0.0\"}|01|Meets",
    "{}|{\"name\":\"a/a\",\"version\":\"1.0.0\",\"conflict\":{\"a/a\":\"*\"}}|0|Meets",
    "{}|{\"name\":\"a/a\",\"version\":\"1.0.0\",\"conflict\":{\"x/x\":\"*\"},\"replace\":{\"x/x\":\"1.0\"}}|0|Meets",
    "{}|{\"name\":\"a/a\",\"version\":\"1.0.0\",\"conflict\":{\"x/x\":\"^1\"}}|{\"name\":\"b/b\",\"version\":\"1.0.0\",\"replace\":{\"x/x\":\"1.0\"}}|01|Conflict a/a x/x b/b",
    "{}|{\"name\":\"a/a\",\"version\":\"1.0.0\",\"conflict\":{\"x/x\":\"^2\"}}|{\"name\":\"b/b\",\"version\":\"1.0.0\",\"replace\":{\"x/x\":\"1.0\"}}|01|Meets",
    "{}|{\"name\":\"a/a\",\"version\":\"1.0.0\",\"conflict\":{\"x/x\":\"*\"}}|{\"name\":\"b/b\",\"version\":\"1.0.0\",\"provide\":{\"x/x\":\"1.0\"}}|01|Meets",
    "{\"conflict\":{\"a/a\":\"*\"}}|{\"name\":\"a/a\",\"version\":\"1.0.0\"}|0|Conflict __root__ a/a a/a",
    "{\"name\":\"r/r\",\"version\":\"1.0.0\"}|{\"name\":\"a/a\",\"version\":\"1.0.0\",\"conflict\":{\"r/r\":\"*\"}}|0|Conflict a/a r/r r/r",
    "{\"config\":{\"platform\":{\"php\":\"8.0.0\"}}}|{\"name\":\"a/a\",\"version\":\"1.0.0\",\"conflict\":{\"php\":\">=8.0\"}}|0|Conflict a/a php php",
    "{\"config\":{\"platform\":{\"ext-x\":false}}}|{\"name\":\"a/a\",\"version\":\"1.0.0\",\"conflict\":{\"ext-x\":\"*\"}}|0|Meets",
    "{\"config\":{\"platform\":{\"php\":\"8.0.0\"}},\"require\":{\"php\":\">=8.1\"}}|{\"name\":\"a/a\",\"version\":\"1.0.0\",\"conflict\":{\"b/b\":\"*\"}}|{\"name\":\"b/b\",\"version\":\"1.0.0\"}|01|Conflict a/a b/b b/b",
];

static PLATFORMS: [&str; 7] = [
    "{\"config\":{\"platform\":{\"php\":\"8.0.0\"}},\"require\":{\"a/a\":\"*\",\"php\":\">=8.1\"}}|{\"name\":\"a/a\",\"version\":\"1.0.0\"}|0|Platform __root__ php",
    "{\"config\":{\"platform\":{\"php\":\"8.0.0\"}}}|{\"name\":\"a/a\",\"version\":\"1.0.0\",\"require\":{\"php\":\">=8.1\"}}|0|Platform a/a php",
    "{\"config\":{\"platform\":{\"php\":\"8.0.0\"}}}|{\"name\":\"a/a\",\"version\":\"1.0.0\",\"require\":{\"ext-y\":\"*\"}}|0|Meets",
    "{\"config\":{\"platform\":{\"ext-x\":false}},\"require\":{\"ext-x\":\"*\"}}|||Platform __root__ ext-x",
    "{\"config\":{\"platform\":{\"php\":\"8.1.0\"}},\"require\":{\"php\":\">=8.0\"}}|||Meets",
    "{\"config\":{\"platform\":{\"php\":\"8.0.0\"}},\"require-dev\":{\"php\":\">=8.1\"}}|||Platform __root__ php",
    "{\"require\":{\"php\":\">=99\"}}|||Meets",
];

#[test]
fn members_that_are_not_allowed(rt: HostRuntime) {
    for row in &ALLOWED {
        assert_eq!(rt; holds(rt.alloc(), row), Some(true));
    }
}

#[test]
fn names_with_two_owners(rt: HostRuntime) {
    for row in &OWNERS {
        assert_eq!(rt; holds(rt.alloc(), row), Some(true));
    }
}

#[test]
fn requirements(rt: HostRuntime) {
    for row in &NEEDS {
        assert_eq!(rt; holds(rt.alloc(), row), Some(true));
    }
}

#[test]
fn conflicts(rt: HostRuntime) {
    for row in &CONFLICTS {
        assert_eq!(rt; holds(rt.alloc(), row), Some(true));
    }
}

#[test]
fn platform_packages(rt: HostRuntime) {
    for row in &PLATFORMS {
        assert_eq!(rt; holds(rt.alloc(), row), Some(true));
    }
}

/// The marks that a row writes, of each candidate a `1` or a `0`.
fn marks_of(alloc: Global, digits: &str) -> Option<Vec<bool>> {
    let mut marks = Vec::new(alloc);
    for digit in digits.as_bytes() {
        marks.push(*digit == b'1').ok()?;
    }
    Some(marks)
}

/// Whether the candidate of a digit fits beside the marked ones.
fn is_fitting(alloc: Global, texts: &str, marks: &str, digit: &str) -> Option<bool> {
    let pool = pool_of(alloc, texts)?;
    let rivals = Rivals::of(alloc, &pool).ok()?;
    let marks = marks_of(alloc, marks)?;
    let digit = digit.as_bytes().first()?;
    Some(rivals.fits(marks.as_slice(), u32::from(digit.saturating_sub(b'0'))))
}

/// Whether a candidate fits as a row has it behind the pool, the marks and the candidate's digit.
fn fits_so(alloc: Global, row: &str) -> Option<bool> {
    let (texts, wanted) = row.rsplit_once('|')?;
    let (texts, digit) = texts.rsplit_once('|')?;
    let (texts, marks) = texts.rsplit_once('|')?;
    let fits = is_fitting(alloc, texts, marks, digit)?;
    Some(fits == (wanted == "fits"))
}

static RIVALS: [&str; 21] = [
    "{}|{\"name\":\"a/a\",\"version\":\"1.0.0\"}|0|0|fits",
    "{}|{\"name\":\"a/a\",\"version\":\"1.0.0\"}|0|7|not",
    "{}|{\"name\":\"a/a\",\"version\":\"1.0.0-beta1\"}|0|0|not",
    "{}|{\"name\":\"a/a\",\"version\":\"1.0.0\"}|{\"name\":\"a/a\",\"version\":\"2.0.0\"}|10|1|not",
    "{}|{\"name\":\"a/a\",\"version\":\"1.0.0\"}|{\"name\":\"a/a\",\"version\":\"2.0.0\"}|00|1|fits",
    "{}|{\"name\":\"a/a\",\"version\":\"1.0.0\"}|{\"name\":\"b/b\",\"version\":\"1.0.0\",\"replace\":{\"a/a\":\"1.0\"}}|10|1|not",
    "{}|{\"name\":\"a/a\",\"version\":\"1.0.0\",\"replace\":{\"x/x\":\"1.0\"}}|{\"name\":\"b/b\",\"version\":\"1.0.0\",\"replace\":{\"x/x\":\"2.0\"}}|10|1|not",
    "{}|{\"name\":\"a/a\",\"version\":\"1.0.0\",\"provide\":{\"v/v\":\"1.0\"}}|{\"name\":\"b/b\",\"version\":\"1.0.0\",\"provide\":{\"v/v\":\"1.0\"}}|10|1|fits",
    "{\"replace\":{\"b/b\":\"*\"}}|{\"name\":\"b/b\",\"version\":\"1.0.0\"}|0|0|not",
    "{}|{\"name\":\"a/a\",\"version\":\"1.0.0\",\"conflict\":{\"b/b\":\"*\"}}|{\"name\":\"b/b\",\"version\":\"1.0.0\"}|10|1|not",
    "{}|{\"name\":\"a/a\",\"version\":\"1.0.0\",\"conflict\":{\"b/b\":\"*\"}}|{\"name\":\"b/b\",\"version\":\"1.0.0\"}|01|0|not",
    "{}|{\"name\":\"a/a\",\"version\":\"1.0.0\",\"conflict\":{\"b/b\":\"^2\"}}|{\"name\":\"b/b\",\"version\":\"1.0.0\"}|10|1|fits",
    "{}|{\"name\":\"a/a\",\"version\":\"1.0.0\",\"conflict\":{\"x/x\":\"^1\"}}|{\"name\":\"b/b\",\"version\":\"1.0.0\",\"replace\":{\"x/x\":\"1.0\"}}|10|1|not",
    "{}|{\"name\":\"a/a\",\"version\":\"1.0.0\",\"conflict\":{\"x/x\":\"^2\"}}|{\"name\":\"b/b\",\"version\":\"1.0.0\",\"replace\":{\"x/x\":\"1.0\"}}|10|1|fits",
    "{}|{\"name\":\"a/a\",\"version\":\"1.0.0\",\"conflict\":{\"x/x\":\"*\"}}|{\"name\":\"b/b\",\"version\":\"1.0.0\",\"provide\":{\"x/x\":\"1.0\"}}|10|1|fits",
    "{}|{\"name\":\"a/a\",\"version\":\"1.0.0\",\"conflict\":{\"a/a\":\"*\"}}|0|0|fits",
    "{\"conflict\":{\"a/a\":\"*\"}}|{\"name\":\"a/a\",\"version\":\"1.0.0\"}|0|0|not",
    "{\"name\":\"r/r\",\"version\":\"1.0.0\"}|{\"name\":\"a/a\",\"version\":\"1.0.0\",\"conflict\":{\"r/r\":\"*\"}}|0|0|not",
    "{\"config\":{\"platform\":{\"php\":\"8.0.0\"}}}|{\"name\":\"a/a\",\"version\":\"1.0.0\",\"conflict\":{\"php\":\">=8.0\"}}|0|0|not",
    "{\"config\":{\"platform\":{\"php\":\"8.0.0\"}}}|{\"name\":\"a/a\",\"version\":\"1.0.0\",\"require\":{\"php\":\">=8.1\"}}|0|0|not",
    "{\"config\":{\"platform\":{\"php\":\"8.0.0\"}}}|{\"name\":\"a/a\",\"version\":\"1.0.0\",\"require\":{\"ext-y\":\"*\",\"q/q\":\"*\"}}|0|0|fits",
];

/// Whether the root of a pool fits alone.
fn root_is_fitting(alloc: Global, root: &str) -> Option<bool> {
    let root = manifest(alloc, root, Role::Root)?;
    let candidates = Items::of(Vec::new(alloc));
    let pool = Pool { root, candidates };
    let rivals = Rivals::of(alloc, &pool).ok()?;
    Some(rivals.root_fits())
}

fn root_fits_so(alloc: Global, row: &str) -> Option<bool> {
    let (root, wanted) = row.rsplit_once('|')?;
    let fits = root_is_fitting(alloc, root)?;
    Some(fits == (wanted == "fits"))
}

static ROOTS: [&str; 6] = [
    "{\"require\":{\"a/a\":\"*\"}}|fits",
    "{\"name\":\"r/r\",\"conflict\":{\"r/r\":\"*\"}}|fits",
    "{\"config\":{\"platform\":{\"php\":\"8.0.0\"}},\"conflict\":{\"php\":\">=8.0\"}}|not",
    "{\"config\":{\"platform\":{\"php\":\"8.0.0\"}},\"require\":{\"php\":\">=8.1\"}}|not",
    "{\"config\":{\"platform\":{\"php\":\"8.0.0\"}},\"require-dev\":{\"php\":\">=8.1\"}}|not",
    "{\"require\":{\"php\":\">=99\"}}|fits",
];

#[test]
fn candidates_beside_others(rt: HostRuntime) {
    for row in &RIVALS {
        assert_eq!(rt; fits_so(rt.alloc(), row), Some(true));
    }
}

#[test]
fn roots_alone(rt: HostRuntime) {
    for row in &ROOTS {
        assert_eq!(rt; root_fits_so(rt.alloc(), row), Some(true));
    }
}

fn digits_of(alloc: Global, numbers: &[u32]) -> Option<Vec<u8>> {
    let mut digits = Vec::new(alloc);
    for number in numbers {
        digits
            .push(u8::try_from(*number).ok()?.checked_add(b'0')?)
            .ok()?;
    }
    Some(digits)
}

/// Whether these are the alternatives of the root's first requirement in order: the digits that a row has behind its pool.
fn is_order(alloc: Global, row: &str) -> Option<bool> {
    let (texts, wanted) = row.rsplit_once('|')?;
    let pool = pool_of(alloc, texts)?;
    let index = Index::of_pool(alloc, &pool).ok()?;
    let need = pool.root.package.require.as_slice().first()?;
    let numbers = alternatives(alloc, &pool, &index, need).ok()?;
    let digits = digits_of(alloc, numbers.as_slice())?;
    Some(digits.as_slice() == wanted.as_bytes())
}

static CHOICES: [&str; 16] = [
    "{\"require\":{\"a/a\":\"*\"}}|{\"name\":\"a/a\",\"version\":\"1.0.0\"}|{\"name\":\"a/a\",\"version\":\"2.0.0\"}|{\"name\":\"a/a\",\"version\":\"1.5.0\"}|120",
    "{\"require\":{\"a/a\":\"*\"},\"minimum-stability\":\"dev\"}|{\"name\":\"a/a\",\"version\":\"1.0.0\"}|{\"name\":\"a/a\",\"version\":\"2.0.0-beta1\"}|10",
    "{\"require\":{\"a/a\":\"*\"},\"minimum-stability\":\"dev\",\"prefer-stable\":true}|{\"name\":\"a/a\",\"version\":\"1.0.0\"}|{\"name\":\"a/a\",\"version\":\"2.0.0-beta1\"}|01",
    "{\"require\":{\"v/log\":\"*\"}}|{\"name\":\"a/x\",\"version\":\"1.0.0\",\"provide\":{\"v/log\":\"1.0\"}}|{\"name\":\"b/y\",\"version\":\"1.0.0\",\"replace\":{\"v/log\":\"1.0\"}}|10",
    "{\"require\":{\"v/v\":\"*\"}}|{\"name\":\"b/y\",\"version\":\"1.0.0\",\"replace\":{\"v/v\":\"9.0\"}}|{\"name\":\"v/v\",\"version\":\"1.0.0\"}|10",
    "{\"require\":{\"a/a\":\"*\"},\"minimum-stability\":\"dev\"}|{\"name\":\"a/a\",\"version\":\"dev-main\"}|{\"name\":\"a/a\",\"version\":\"1.0.0-alpha1\"}|10",
    "{\"require\":{\"a/a\":\"*\"},\"minimum-stability\":\"dev\"}|{\"name\":\"a/a\",\"version\":\"dev-b\"}|{\"name\":\"a/a\",\"version\":\"dev-a\"}|10",
    "{\"require\":{\"v/v\":\"*\"}}|{\"name\":\"b/b\",\"version\":\"1.0.0\",\"provide\":{\"v/v\":\"1.0\"}}|{\"name\":\"a/a\",\"version\":\"1.0.0\",\"provide\":{\"v/v\":\"1.0\"}}|10",
    "{\"require\":{\"a/a\":\"*\"}}|{\"name\":\"a/a\",\"version\":\"1.0.0\"}|{\"name\":\"a/a\",\"version\":\"1.0.0\"}|01",
    "{\"require\":{\"a/a\":\"^1\"}}|{\"name\":\"a/a\",\"version\":\"2.0.0\"}|{\"name\":\"a/a\",\"version\":\"1.0.0\"}|1",
    "{\"require\":{\"a/a\":\"*\"}}|{\"name\":\"b/b\",\"version\":\"1.0.0\"}|",
    "{\"require\":{\"a/a\":\"^2\"}}|{\"name\":\"a/a\",\"version\":\"1.0.0\",\"provide\":{\"a/a\":\"2.0\"}}|{\"name\":\"b/b\",\"version\":\"1.0.0\",\"replace\":{\"a/a\":\"2.0\"}}|01",
    "{\"require\":{\"v/v\":\"*\"},\"minimum-stability\":\"dev\"}|{\"name\":\"a/a\",\"version\":\"2.0.0-beta1\",\"provide\":{\"v/v\":\"1.0\"}}|{\"name\":\"b/b\",\"version\":\"1.0.0\",\"provide\":{\"v/v\":\"1.0\"}}|01",
    "{\"require\":{\"v/v\":\"*\"},\"minimum-stability\":\"dev\",\"prefer-stable\":true}|{\"name\":\"a/a\",\"version\":\"2.0.0-beta1\",\"provide\":{\"v/v\":\"1.0\"}}|{\"name\":\"b/b\",\"version\":\"1.0.0\",\"provide\":{\"v/v\":\"1.0\"}}|10",
    "{\"require\":{\"v/v\":\"*\"}}|{\"name\":\"a/a\",\"version\":\"1.0.0\",\"replace\":{\"v/v\":\"1.0\"},\"provide\":{\"v/v\":\"1.0\"}}|0",
    "{\"require\":{\"v/v\":\"^2\"}}|{\"name\":\"b/b\",\"version\":\"1.0.0\",\"provide\":{\"v/v\":\"2.0\"}}|{\"name\":\"a/a\",\"version\":\"1.0.0\",\"replace\":{\"v/v\":\"1.0\"},\"provide\":{\"v/v\":\"2.0\"}}|10",
];

#[test]
fn alternatives_in_order(rt: HostRuntime) {
    for row in &CHOICES {
        assert_eq!(rt; is_order(rt.alloc(), row), Some(true));
    }
}
