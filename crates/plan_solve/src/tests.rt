mod sets;

use super::*;
use manifest_read::{Manifest, Package, Role, from_doc};
use path_name::{FolderRef, Items, Path, Text};
use pkg_pool::{Candidate, Pool};
use std::alloc::Global;
use std::test::*;

fn manifest(alloc: Global, text: &str, role: Role) -> Option<Manifest> {
    let doc = json_ordered::read(alloc, text.as_bytes()).ok()?;
    from_doc(alloc, &doc, role).ok()
}

fn package_of(manifest: Manifest) -> Package {
    manifest.package
}

fn candidate(alloc: Global, text: &str) -> Option<Candidate> {
    let url = FolderRef::read(alloc, b"p").ok()?;
    let manifest = manifest(alloc, text, Role::Member)?;
    Some(Candidate {
        package: package_of(manifest),
        repository: 0,
        url,
        folder: Path::root(alloc),
        reference: Text::empty(alloc),
    })
}

fn candidates(alloc: Global, texts: &str) -> Option<Vec<Candidate>> {
    let mut candidates = Vec::new(alloc);
    for text in texts.split('|') {
        if !text.is_empty() {
            candidates.push(candidate(alloc, text)?).ok()?;
        }
    }
    Some(candidates)
}

/// The pool of a root and candidates, whose texts have `|` between them.
fn pool_of(alloc: Global, texts: &str) -> Option<Pool> {
    let (root, others) = texts.split_once('|')?;
    let root = manifest(alloc, root, Role::Root)?;
    let candidates = Items::of(candidates(alloc, others)?);
    Some(Pool { root, candidates })
}

/// The chosen numbers as digits, or that there is no plan.
fn told(alloc: Global, answer: &Answer) -> Option<Vec<u8>> {
    match answer {
        Answer::NoPlan => Vec::from_slice(alloc, b"none").ok(),
        Answer::Plan(selection) => digits(alloc, selection.members.as_slice()),
    }
}

fn digits(alloc: Global, numbers: &[u32]) -> Option<Vec<u8>> {
    let mut told = Vec::new(alloc);
    for number in numbers {
        let digit = u8::try_from(*number).ok()?;
        told.push(digit.saturating_add(b'0')).ok()?;
    }
    Some(told)
}

fn told_of_plan(alloc: Global, pool: &Pool) -> Option<Vec<u8>> {
    let answer = solve(alloc, pool).ok()?;
    told(alloc, &answer)
}

fn told_of_pool(alloc: Global, texts: &str) -> Option<Vec<u8>> {
    let pool = pool_of(alloc, texts)?;
    told_of_plan(alloc, &pool)
}

/// Whether a pool's plan is the one that a row has behind it.
fn holds(alloc: Global, row: &str) -> Option<bool> {
    let (texts, wanted) = row.rsplit_once('|')?;
    let told = told_of_pool(alloc, texts)?;
    Some(told.as_slice() == wanted.as_bytes())
}

static CHOICES: [&str; 27] = [
    "{}||",
    "{}|{\"name\":\"a/a\",\"version\":\"1.0.0\"}|",
    "{\"require\":{\"a/a\":\"*\"}}||none",
    "{\"require\":{\"a/a\":\"*\",\"b/b\":\"*\"}}|{\"name\":\"a/a\",\"version\":\"2.0.0\",\"conflict\":{\"b/b\":\"*\"}}|{\"name\":\"a/a\",\"version\":\"1.0.0\"}|{\"name\":\"b/b\",\"version\":\"1.0.0\"}|12",
    "{\"require\":{\"x/old\":\"*\",\"x/new\":\"*\"}}|{\"name\":\"x/new\",\"version\":\"1.0.0\",\"replace\":{\"x/old\":\"*\"}}|{\"name\":\"x/old\",\"version\":\"1.0.0\"}|0",
    "{\"require\":{\"x/old\":\"^1.0\",\"x/new\":\"*\"}}|{\"name\":\"x/new\",\"version\":\"1.0.0\",\"replace\":{\"x/old\":\"2.0.0\"}}|{\"name\":\"x/old\",\"version\":\"1.0.0\"}|none",
    "{\"require\":{\"a/a\":\"^1.0\"}}|{\"name\":\"a/a\",\"version\":\"1.0.0\",\"require\":{\"b/b\":\"^1.0@beta\"}}|{\"name\":\"b/b\",\"version\":\"1.0.0-beta1\"}|none",
    "{\"require\":{\"a/a\":\"^1.0\",\"b/b\":\"^1.0@beta\"}}|{\"name\":\"a/a\",\"version\":\"1.0.0\",\"require\":{\"b/b\":\"^1.0@beta\"}}|{\"name\":\"b/b\",\"version\":\"1.0.0-beta1\"}|01",
    "{\"require\":{\"a/a\":\"*\"},\"minimum-stability\":\"dev\"}|{\"name\":\"a/a\",\"version\":\"1.0.0\"}|{\"name\":\"a/a\",\"version\":\"2.0.0-beta1\"}|1",
    "{\"require\":{\"a/a\":\"*\"},\"minimum-stability\":\"dev\",\"prefer-stable\":true}|{\"name\":\"a/a\",\"version\":\"1.0.0\"}|{\"name\":\"a/a\",\"version\":\"2.0.0-beta1\"}|0",
    "{\"require\":{\"v/log\":\"*\"}}|{\"name\":\"a/x\",\"version\":\"1.0.0\",\"provide\":{\"v/log\":\"1.0\"}}|{\"name\":\"b/y\",\"version\":\"1.0.0\",\"replace\":{\"v/log\":\"1.0\"}}|1",
    "{\"require\":{\"a/a\":\"*\",\"php\":\">=8.1\"},\"config\":{\"platform\":{\"php\":\"8.0.0\"}}}|{\"name\":\"a/a\",\"version\":\"1.0.0\"}|none",
    "{\"require\":{\"a/a\":\"*\",\"php\":\">=8.1\"},\"config\":{\"platform\":{\"php\":\"8.1.0\"}}}|{\"name\":\"a/a\",\"version\":\"1.0.0\"}|0",
    "{\"require-dev\":{\"a/a\":\"*\"}}|{\"name\":\"a/a\",\"version\":\"1.0.0\"}|0",
    "{\"require-dev\":{\"a/a\":\"*\"},\"require\":{\"b/b\":\"*\"}}|{\"name\":\"a/a\",\"version\":\"1.0.0\"}|{\"name\":\"b/b\",\"version\":\"1.0.0\"}|10",
    "{\"require-dev\":{\"a/a\":\"^1.0\"},\"require\":{\"a/a\":\"*\"}}|{\"name\":\"a/a\",\"version\":\"2.0.0\"}|{\"name\":\"a/a\",\"version\":\"1.0.0\"}|1",
    "{\"require\":{\"a/a\":\"*\",\"c/c\":\"*\"}}|{\"name\":\"c/c\",\"version\":\"1.0.0\"}|{\"name\":\"a/a\",\"version\":\"1.0.0\",\"require\":{\"b/b\":\"*\"}}|{\"name\":\"b/b\",\"version\":\"1.0.0\"}|102",
    "{\"require\":{\"a/a\":\"*\"}}|{\"name\":\"a/a\",\"version\":\"1.0.0\",\"require-dev\":{\"b/b\":\"*\"}}|0",
    "{\"require\":{\"a/a\":\"*\"}}|{\"name\":\"a/a\",\"version\":\"1.0.0\",\"require\":{\"b/b\":\"*\"}}|{\"name\":\"b/b\",\"version\":\"1.0.0\",\"require\":{\"a/a\":\"*\"}}|01",
    "{\"require\":{\"a/a\":\"*\"}}|{\"name\":\"a/a\",\"version\":\"2.0.0\",\"require\":{\"b/b\":\"^2\"}}|{\"name\":\"a/a\",\"version\":\"1.0.0\",\"require\":{\"b/b\":\"^1\"}}|{\"name\":\"b/b\",\"version\":\"1.0.0\"}|12",
    "{\"require\":{\"a/a\":\"*\",\"b/b\":\"*\",\"c/c\":\"^1\"}}|{\"name\":\"a/a\",\"version\":\"1.0.0\"}|{\"name\":\"b/b\",\"version\":\"2.0.0\",\"replace\":{\"c/c\":\"2.0\"}}|{\"name\":\"b/b\",\"version\":\"1.0.0\"}|{\"name\":\"c/c\",\"version\":\"1.0.0\"}|023",
    "{\"require\":{\"a/a\":\"*\",\"b/b\":\"*\"}}|{\"name\":\"a/a\",\"version\":\"2.0.0\"}|{\"name\":\"a/a\",\"version\":\"1.0.0\"}|{\"name\":\"b/b\",\"version\":\"2.0.0\",\"conflict\":{\"a/a\":\"*\"}}|{\"name\":\"b/b\",\"version\":\"1.0.0\",\"conflict\":{\"a/a\":\"^2\"}}|13",
    "{\"require\":{\"a/a\":\"*\",\"b/b\":\"*\"}}|{\"name\":\"a/a\",\"version\":\"2.0.0\"}|{\"name\":\"a/a\",\"version\":\"1.0.0\"}|{\"name\":\"b/b\",\"version\":\"2.0.0\",\"conflict\":{\"a/a\":\"^2\"}}|{\"name\":\"b/b\",\"version\":\"1.0.0\"}|03",
    "{\"require\":{\"a/a\":\"*\"}}|{\"name\":\"a/a\",\"version\":\"1.0.0\",\"conflict\":{\"b/b\":\"*\"},\"require\":{\"b/b\":\"*\"}}|{\"name\":\"b/b\",\"version\":\"1.0.0\"}|none",
    "{\"replace\":{\"a/a\":\"1.0\"},\"require\":{\"a/a\":\"*\",\"b/b\":\"*\"}}|{\"name\":\"a/a\",\"version\":\"1.0.0\"}|{\"name\":\"b/b\",\"version\":\"1.0.0\"}|1",
    "{\"name\":\"r/r\",\"conflict\":{\"php\":\"*\"},\"config\":{\"platform\":{\"php\":\"8.0.0\"}}}||none",
    "{\"require\":{\"a/a\":\"*\"},\"minimum-stability\":\"dev\"}|{\"name\":\"a/a\",\"version\":\"dev-main\"}|{\"name\":\"a/a\",\"version\":\"dev-b\"}|{\"name\":\"a/a\",\"version\":\"0.1.0\"}|2",
];

#[test]
fn choices(rt: HostRuntime) {
    for row in &CHOICES {
        assert_eq!(rt; holds(rt.alloc(), row), Some(true));
    }
}

/// Some packages of which small pools are made.
static PACKAGES: [&str; 28] = [
    "{\"name\":\"a/a\",\"version\":\"1.0.0\"}",
    "{\"name\":\"a/a\",\"version\":\"2.0.0\",\"require\":{\"b/b\":\"*\"}}",
    "{\"name\":\"a/a\",\"version\":\"2.1.0-beta1\"}",
    "{\"name\":\"a/a\",\"version\":\"1.1.0\",\"conflict\":{\"b/b\":\"^2\"}}",
    "{\"name\":\"a/a\",\"version\":\"1.2.0\",\"replace\":{\"x/x\":\"1.0\"}}",
    "{\"name\":\"a/a\",\"version\":\"dev-main\",\"require\":{\"c/c\":\"^1\"}}",
    "{\"name\":\"a/a\",\"version\":\"3.0.0\",\"require\":{\"php\":\">=8.1\"}}",
    "{\"name\":\"a/a\",\"version\":\"1.3.0\",\"require\":{\"b/b\":\"^1\",\"c/c\":\"*\"}}",
    "{\"name\":\"b/b\",\"version\":\"1.0.0\"}",
    "{\"name\":\"b/b\",\"version\":\"2.0.0\",\"require\":{\"c/c\":\"^2\"}}",
    "{\"name\":\"b/b\",\"version\":\"2.1.0\",\"replace\":{\"c/c\":\"2.0\"}}",
    "{\"name\":\"b/b\",\"version\":\"1.1.0\",\"provide\":{\"x/x\":\"1.0\"}}",
    "{\"name\":\"b/b\",\"version\":\"1.2.0\",\"conflict\":{\"a/a\":\"^1\"}}",
    "{\"name\":\"b/b\",\"version\":\"1.3.0-RC1\",\"require\":{\"a/a\":\"^2\"}}",
    "{\"name\":\"b/b\",\"version\":\"dev-next\"}",
    "{\"name\":\"c/c\",\"version\":\"1.0.0\"}",
    "{\"name\":\"c/c\",\"version\":\"2.0.0\",\"conflict\":{\"x/x\":\"*\"}}",
    "{\"name\":\"c/c\",\"version\":\"1.1.0\",\"require\":{\"a/a\":\"^1\"}}",
    "{\"name\":\"c/c\",\"version\":\"1.2.0\",\"replace\":{\"a/a\":\"self.version\"}}",
    "{\"name\":\"c/c\",\"version\":\"2.1.0\",\"require\":{\"x/x\":\"^1\"}}",
    "{\"name\":\"c/c\",\"version\":\"1.3.0\",\"provide\":{\"b/b\":\"1.5\"}}",
    "{\"name\":\"x/y\",\"version\":\"1.0.0\",\"provide\":{\"x/x\":\"1.2\",\"b/b\":\"^1\"}}",
    "{\"name\":\"x/z\",\"version\":\"1.0.0\",\"replace\":{\"x/x\":\"1.2\"}}",
    "{\"name\":\"x/z\",\"version\":\"2.0.0\",\"replace\":{\"x/x\":\"2.0\",\"a/a\":\"1.0\"}}",
    "{\"name\":\"x/x\",\"version\":\"1.0.0\"}",
    "{\"name\":\"x/x\",\"version\":\"2.0.0\",\"conflict\":{\"b/b\":\"*\"}}",
    "{\"name\":\"x/x\",\"version\":\"1.0.0\",\"require\":{\"b/b\":\"^2\"}}",
    "{\"name\":\"x/x\",\"version\":\"1.1.0\",\"require\":{\"x/y\":\"*\"}}",
];

static ROOTS: [&str; 10] = [
    "{\"require\":{\"a/a\":\"*\",\"b/b\":\"*\"}}",
    "{\"require\":{\"a/a\":\"*\",\"c/c\":\"*\"},\"minimum-stability\":\"dev\"}",
    "{\"require\":{\"a/a\":\"*\",\"x/x\":\"*\"},\"minimum-stability\":\"dev\",\"prefer-stable\":true}",
    "{\"require\":{\"b/b\":\"*\",\"a/a\":\"*\",\"x/x\":\"*\"}}",
    "{\"require\":{\"x/x\":\"^1\"},\"require-dev\":{\"b/b\":\"*\"}}",
    "{\"require\":{\"x/x\":\"*\",\"c/c\":\"*\"},\"config\":{\"platform\":{\"php\":\"8.0.0\"}}}",
    "{\"require-dev\":{\"a/a\":\"^1\"},\"require\":{\"b/b\":\"*\"},\"minimum-stability\":\"RC\"}",
    "{\"require\":{\"a/a\":\">=1.0 <4.0\"},\"conflict\":{\"c/c\":\"^2\"}}",
    "{\"require\":{\"c/c\":\"*\",\"b/b\":\"*\"},\"replace\":{\"x/x\":\"1.0\"}}",
    "{\"require\":{\"b/b\":\"*@dev\",\"c/c\":\"*\"},\"prefer-stable\":true}",
];

/// Numbers that look random, the same ones each time.
#[derive(Drop)]
struct Picks {
    state: u64,
}

impl Picks {
    fn next(&mut self) -> u64 {
        self.state = self
            .state
            .wrapping_mul(6_364_136_223_846_793_005)
            .wrapping_add(1_442_695_040_888_963_407);
        self.state >> 33
    }

    fn of<'a>(&mut self, texts: &[&'a str]) -> Option<&'a str> {
        let count = u64::try_from(texts.len()).ok()?;
        let place = usize::try_from(self.next().checked_rem(count)?).ok()?;
        texts.get(place).copied()
    }
}

/// The texts of a root and five packages.
fn small_pool(alloc: Global, picks: &mut Picks) -> Option<String> {
    let mut texts = String::new(alloc);
    texts.push_str(picks.of(&ROOTS)?).ok()?;
    for _ in 0..5 {
        texts.push_str("|").ok()?;
        texts.push_str(picks.of(&PACKAGES)?).ok()?;
    }
    Some(texts)
}

fn numbers_of(answer: Answer) -> Option<Vec<u32>> {
    match answer {
        Answer::Plan(selection) => Some(selection.members.into_vec()),
        Answer::NoPlan => None,
    }
}

/// Whether the plan of a pool is that of all its sets, and whether there is one.
fn is_by_sets(alloc: Global, pool: &Pool) -> Option<(bool, bool)> {
    let wanted = sets::plan_by_sets(alloc, pool)?;
    let plan = numbers_of(solve(alloc, pool).ok()?);
    Some((plan == wanted, plan.is_some()))
}

fn agrees(alloc: Global, texts: &str) -> Option<(bool, bool)> {
    let pool = pool_of(alloc, texts)?;
    is_by_sets(alloc, &pool)
}

fn small_pool_agrees(alloc: Global, picks: &mut Picks) -> Option<(bool, bool)> {
    let texts = small_pool(alloc, picks)?;
    agrees(alloc, texts.as_str())
}

#[test]
fn small_pools_against_all_sets(rt: HostRuntime) {
    let mut picks = Picks { state: 1 };
    let mut plans: u32 = 0;
    for _ in 0..200 {
        let agreed = small_pool_agrees(rt.alloc(), &mut picks);
        assert!(rt; agreed == Some((true, true)) || agreed == Some((true, false)));
        if agreed == Some((true, true)) {
            plans = plans.saturating_add(1);
        }
    }
    assert!(rt; plans > 0 && plans < 200);
}

/// How many numbers stand in order, from 0 on and each by a step above the one before.
fn in_steps(numbers: &[u32], step: u32) -> u32 {
    let mut count: u32 = 0;
    for number in numbers {
        if *number == count.saturating_mul(step) {
            count = count.saturating_add(1);
        }
    }
    count
}

/// How many members of the plan stand in steps.
fn members_in_steps(alloc: Global, pool: &Pool, step: u32) -> Option<u32> {
    let plan = numbers_of(solve(alloc, pool).ok()?)?;
    Some(in_steps(plan.as_slice(), step))
}

fn steps_of_plan(alloc: Global, texts: &str, step: u32) -> Option<u32> {
    let pool = pool_of(alloc, texts)?;
    members_in_steps(alloc, &pool, step)
}

/// So many pigeons, each of which takes one of some holes: a name that no two packages can replace.
fn pigeons(alloc: Global, count: u32, holes: u32) -> Option<String> {
    let mut texts = String::new(alloc);
    texts.push_str(PIGEONS).ok()?;
    for number in 0..count {
        for hole in 0..holes {
            let version = holes.saturating_sub(hole).saturating_add(number);
            let text = format!(in alloc;
                "|{{\"name\":\"p/p{number}\",\"version\":\"1.{version}.0\",\"replace\":{{\"h/h{hole}\":\"1.0\"}}}}"
            ).ok()?;
            texts.push_str(text.as_str()).ok()?;
        }
    }
    Some(texts)
}

static PIGEONS: &str =
    "{\"require\":{\"p/p0\":\"*\",\"p/p1\":\"*\",\"p/p2\":\"*\",\"p/p3\":\"*\",\"p/p4\":\"*\",\"p/p5\":\"*\"}}";

fn pigeons_in_holes(alloc: Global, holes: u32) -> Option<u32> {
    let texts = pigeons(alloc, 6, holes)?;
    steps_of_plan(alloc, texts.as_str(), holes.saturating_add(1))
}

#[test]
fn six_pigeons(rt: HostRuntime) {
    assert_eq!(rt; pigeons_in_holes(rt.alloc(), 5), None);
    assert_eq!(rt; pigeons_in_holes(rt.alloc(), 6), Some(6));
}

/// Packages of which each requires the next one.
fn chain(alloc: Global, count: u32) -> Option<String> {
    let mut texts = String::new(alloc);
    texts.push_str("{\"require\":{\"c/c1\":\"*\"}}").ok()?;
    for number in 1..count {
        let next = number.saturating_add(1);
        let text = format!(in alloc;
            "|{{\"name\":\"c/c{number}\",\"version\":\"1.0.0\",\"require\":{{\"c/c{next}\":\"^1.0\"}}}}"
        ).ok()?;
        texts.push_str(text.as_str()).ok()?;
    }
    let last = format!(in alloc; "|{{\"name\":\"c/c{count}\",\"version\":\"1.0.0\"}}").ok()?;
    texts.push_str(last.as_str()).ok()?;
    Some(texts)
}

fn members_of_chain(alloc: Global, count: u32) -> Option<u32> {
    let texts = chain(alloc, count)?;
    steps_of_plan(alloc, texts.as_str(), 1)
}

#[test]
fn a_chain(rt: HostRuntime) {
    assert_eq!(rt; members_of_chain(rt.alloc(), 4_096), Some(4_096));
}
