use crate::{BrokenRule, DocumentFault, NamedFile, Place, Refusal, error_line, status_of};
use path_name::{Name, Path, Text};
use std::alloc::Global;
use std::process::Abort;
use std::test::Fail;
use table_scan::TableFile;
use tree_dev::LimitKind;

/// A refusal, its status, and its line.
#[derive(Drop)]
struct Row {
    refusal: Refusal,
    status: u8,
    line: &'static [u8],
}

fn told(refusal: Refusal, status: u8, line: &'static [u8]) -> Row {
    Row {
        refusal,
        status,
        line,
    }
}

fn text(alloc: Global, bytes: &[u8]) -> Result<Text, Fail> {
    Ok(Text::of(Vec::from_slice(alloc, bytes)?))
}

fn name(alloc: Global, bytes: &[u8]) -> Result<Name, Fail> {
    Ok(Name::of(Vec::from_slice(alloc, bytes)?))
}

fn plain_lines(alloc: Global) -> Result<Vec<Row>, Fail> {
    let mut rows = Vec::new(alloc);
    let usage = b"error: usage: composer [-d DIR] COMMAND\n";
    rows.push(told(Refusal::Usage, 2, usage))?;
    rows.push(told(Refusal::BadName, 2, b"error: not a class name\n"))?;
    rows.push(told(Refusal::Nothing, 1, b"error: not found\n"))?;
    rows.push(told(Refusal::NoManifest, 3, b"error: no composer.json\n"))?;
    rows.push(told(Refusal::NoLock, 4, b"error: no composer.lock\n"))?;
    rows.push(told(Refusal::NoTables, 14, b"error: no autoload_psr4.php\n"))?;
    rows.push(told(Refusal::NoPlan, 5, b"error: no plan\n"))?;
    rows.push(told(Refusal::Unfinished, 7, b"error: unfinished install\n"))?;
    rows.push(told(Refusal::Pending, 7, b"error: install pending\n"))?;
    rows.push(told(Refusal::Changed, 7, b"error: changed while reading\n"))?;
    rows.push(told(Refusal::DeviceFault, 8, b"error: device fault\n"))?;
    rows.push(told(Refusal::SinkFault, 9, b"error: output fault\n"))?;
    rows.push(told(Refusal::OutOfMemory, 10, b"error: out of memory\n"))?;
    Ok(rows)
}

fn lines_with_places(alloc: Global) -> Result<Vec<Row>, Fail> {
    let mut rows = Vec::new(alloc);
    rows.push(told(Refusal::BadJournal(0), 11, b"error: bad journal at 0\n"))?;
    let table = Refusal::BadTables(TableFile::Psr0, 174);
    let table_line = b"error: autoload_namespaces.php: bad table at 174\n";
    rows.push(told(table, 14, table_line))?;
    let folder = Refusal::OtherEntry(Path::read(alloc, b"vendor/a")?);
    rows.push(told(folder, 15, b"error: wrong kind vendor/a\n"))?;
    let gone = Refusal::Vanished(Place::Entry(Path::read(alloc, b"vendor")?));
    rows.push(told(gone, 15, b"error: vanished vendor\n"))?;
    let part = Refusal::Vanished(Place::Part(12));
    rows.push(told(part, 15, b"error: vanished part 12\n"))?;
    Ok(rows)
}

fn lines_with_paths(alloc: Global) -> Result<Vec<Row>, Fail> {
    let mut rows = Vec::new(alloc);
    let url = Refusal::MissingPath(text(alloc, b"../../up")?);
    rows.push(told(url, 15, b"error: missing ../../up\n"))?;
    let listed = Refusal::ClassmapMissing(Path::read(alloc, b"nowhere")?);
    rows.push(told(listed, 15, b"error: missing nowhere\n"))?;
    let deep = Refusal::Limit(LimitKind::Depth(Path::read(alloc, b"src/x")?));
    rows.push(told(deep, 12, b"error: limit Depth src/x\n"))?;
    let many = Refusal::Limit(LimitKind::Entries);
    rows.push(told(many, 12, b"error: limit Entries\n"))?;
    Ok(rows)
}

fn lines_of_documents(alloc: Global) -> Result<Vec<Row>, Fail> {
    let mut rows = Vec::new(alloc);
    let root = Refusal::BadDocument(NamedFile::Manifest, DocumentFault::Syntax(7));
    rows.push(told(root, 3, b"error: composer.json: syntax at 7\n"))?;
    let member = NamedFile::Member(Path::read(alloc, b"packages/log/composer.json")?);
    let field = DocumentFault::BadField(text(alloc, b"/require/a~1b")?);
    let field_line = b"error: packages/log/composer.json: bad field /require/a~1b\n";
    rows.push(told(Refusal::BadDocument(member, field), 3, field_line))?;
    let lock = Refusal::BadDocument(NamedFile::Lock, DocumentFault::NotUtf8(0));
    rows.push(told(lock, 4, b"error: composer.lock: not UTF-8 at 0\n"))?;
    let reserved = DocumentFault::ReservedName(name(alloc, b"composer/installed.json")?);
    let reserved_line = b"error: installed.json: reserved name composer/installed.json\n";
    let installed = Refusal::BadDocument(NamedFile::Installed, reserved);
    rows.push(told(installed, 4, reserved_line))?;
    let offered = Refusal::NotOffered(NamedFile::Manifest, text(alloc, b"/repositories/0/type")?);
    let offered_line = b"error: composer.json: not offered /repositories/0/type\n";
    rows.push(told(offered, 13, offered_line))?;
    Ok(rows)
}

fn lines_of_rules(alloc: Global) -> Result<Vec<Row>, Fail> {
    let mut rows = Vec::new(alloc);
    let unmet = BrokenRule::Unmet(name(alloc, b"__root__")?, name(alloc, b"a/a")?);
    let unmet_line = b"error: lock breaks unmet __root__ a/a\n";
    rows.push(told(Refusal::Breaks(unmet), 1, unmet_line))?;
    let owners = BrokenRule::TwoOwners(
        name(alloc, b"x/x")?,
        name(alloc, b"a/a")?,
        name(alloc, b"b/b")?,
    );
    let owners_line = b"error: lock breaks two owners x/x a/a b/b\n";
    rows.push(told(Refusal::LockUnmet(owners), 6, owners_line))?;
    Ok(rows)
}

fn have_lines(rt: &impl Abort, alloc: Global, rows: &[Row]) -> Result<(), Fail> {
    for row in rows {
        assert_eq!(rt; error_line(alloc, &row.refusal)?.as_slice(), row.line);
        assert_eq!(rt; status_of(&row.refusal), row.status);
    }
    Ok(())
}

#[test]
fn plain_refusals(rt: HostRuntime) -> Result<(), Fail> {
    have_lines(&rt, rt.alloc(), plain_lines(rt.alloc())?.as_slice())
}

#[test]
fn refusals_with_places(rt: HostRuntime) -> Result<(), Fail> {
    have_lines(&rt, rt.alloc(), lines_with_places(rt.alloc())?.as_slice())?;
    have_lines(&rt, rt.alloc(), lines_with_paths(rt.alloc())?.as_slice())
}

#[test]
fn refusals_of_documents(rt: HostRuntime) -> Result<(), Fail> {
    have_lines(&rt, rt.alloc(), lines_of_documents(rt.alloc())?.as_slice())?;
    have_lines(&rt, rt.alloc(), lines_of_rules(rt.alloc())?.as_slice())
}
