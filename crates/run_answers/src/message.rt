//! The line of a refusal.

ghost use Rattle.std.specs.Prelude.{◌≡◌, ◌++◌, ◌∷◌, [], map, IfOk, OnOk};
ghost use Rattle.std.specs.List.{flat_map};
ghost use Rattle.path_name.specs.Decimals.{decimal_text};
ghost use Rattle.run_answers.specs.declared.refusal.Refusal.TheVariants.{OutOfMemory, SinkFault};
ghost use Rattle.table_scan.specs.TableNames.{table_name};
ghost use Rattle.run_answers.specs.Messages.{file_text, fault_text, rule_text, place_text, limit_text, colon, not_offered, bad_table_at, lock_breaks, message_of, error_line};

use crate::refusal::{BrokenRule, DocumentFault, NamedFile, Place, Refusal};
use path_name::{Name, push_number};
use std::alloc::{AllocError, Global};
use table_scan::{TableFile, table_name};
use tree_dev::LimitKind;

/// The line of a refusal: `error: `, its message and LF. Its one refusal is want of memory.
#[tactic(auto, unfolding(crate::specs::Messages::error_line))]
pub fn error_line(alloc: Global, refusal: &Refusal) -> Result<Vec<u8>, AllocError>
    ensures { IfOk result (λ line. line.items ≡ error_line refusal.now) }
{
    let mut line = Vec::from_slice(alloc, b"error: ")?;
    put_message(&mut line, refusal)?;
    line.push(b'\n')?;
    Ok(line)
}

/// The line of want of memory. Takes no memory.
#[tactic(auto, unfolding(crate::specs::Messages::error_line, crate::specs::Messages::message_of))]
pub fn memory_line() -> &'static [u8]
    ensures { result.now ≡ error_line OutOfMemory }
{
    b"error: out of memory\n"
}

/// The line of a fault of the output. Takes no memory.
#[tactic(auto, unfolding(crate::specs::Messages::error_line, crate::specs::Messages::message_of))]
pub fn output_line() -> &'static [u8]
    ensures { result.now ≡ error_line SinkFault }
{
    b"error: output fault\n"
}

/// Puts the message of a refusal behind a text.
#[tactic(auto, unfolding(crate::specs::Messages::message_of))]
fn put_message(line: &mut Vec<u8>, refusal: &Refusal) -> Result<(), AllocError>
    ensures { OnOk result (line.new.items ≡ line.old.items ++ message_of refusal.now) }
{
    match refusal {
        Refusal::Usage => put_text(line, b"usage: composer [-d DIR] COMMAND"),
        Refusal::BadName => put_text(line, b"not a class name"),
        Refusal::Nothing => put_text(line, b"not found"),
        Refusal::NoManifest => put_text(line, b"no composer.json"),
        Refusal::NoLock => put_text(line, b"no composer.lock"),
        Refusal::NoTables => put_text(line, b"no autoload_psr4.php"),
        Refusal::BadDocument(file, fault) => put_document(line, file, fault),
        Refusal::NotOffered(file, pointer) => put_not_offered(line, file, pointer.as_slice()),
        Refusal::NoPlan => put_text(line, b"no plan"),
        Refusal::LockUnmet(rule) | Refusal::Breaks(rule) => put_broken(line, rule),
        Refusal::Unfinished => put_text(line, b"unfinished install"),
        Refusal::Pending => put_text(line, b"install pending"),
        Refusal::Changed => put_text(line, b"changed while reading"),
        Refusal::DeviceFault => put_text(line, b"device fault"),
        Refusal::SinkFault => put_text(line, b"output fault"),
        Refusal::OutOfMemory => put_text(line, b"out of memory"),
        Refusal::BadJournal(at) => put_numbered(line, b"bad journal at ", *at),
        Refusal::BadTables(table, at) => put_bad_table(line, *table, *at),
        Refusal::Limit(limit) => put_limit(line, limit),
        Refusal::MissingPath(text) => put_pair(line, b"missing ", text.as_slice()),
        Refusal::ClassmapMissing(path) => put_pair(line, b"missing ", path.text()),
        Refusal::OtherEntry(path) => put_pair(line, b"wrong kind ", path.text()),
        Refusal::Vanished(place) => put_vanished(line, place),
    }
}

fn put_text(line: &mut Vec<u8>, text: &[u8]) -> Result<(), AllocError>
    ensures { OnOk result (line.new.items ≡ line.old.items ++ text.now) }
{
    line.extend_from_slice(text)
}

fn put_pair(line: &mut Vec<u8>, first: &[u8], second: &[u8]) -> Result<(), AllocError>
    ensures { OnOk result (line.new.items ≡ line.old.items ++ (first.now ++ second.now)) }
{
    line.extend_from_slice(first)?;
    line.extend_from_slice(second)
}

fn put_numbered(line: &mut Vec<u8>, text: &[u8], number: u64) -> Result<(), AllocError>
    ensures { OnOk result (line.new.items ≡ line.old.items ++ (text.now ++ decimal_text number)) }
{
    line.extend_from_slice(text)?;
    push_number(line, number)
}

fn put_bad_table(line: &mut Vec<u8>, table: TableFile, at: u64) -> Result<(), AllocError>
    ensures { OnOk result (line.new.items ≡ line.old.items ++ (table_name table ++ bad_table_at ++ decimal_text at)) }
{
    line.extend_from_slice(table_name(table))?;
    put_numbered(line, bad_table_at(), at)
}

fn put_document(
    line: &mut Vec<u8>,
    file: &NamedFile,
    fault: &DocumentFault,
) -> Result<(), AllocError>
    ensures { OnOk result (line.new.items ≡ line.old.items ++ (file_text file.now ++ colon ++ fault_text fault.now)) }
{
    line.extend_from_slice(file_text(file))?;
    line.extend_from_slice(colon())?;
    put_fault(line, fault)
}

fn put_not_offered(line: &mut Vec<u8>, file: &NamedFile, pointer: &[u8]) -> Result<(), AllocError>
    ensures { OnOk result (line.new.items ≡ line.old.items ++ (file_text file.now ++ not_offered ++ pointer.now)) }
{
    line.extend_from_slice(file_text(file))?;
    put_pair(line, not_offered(), pointer)
}

/// The name of a file of JSON, or the path of a package's.
#[tactic(auto, unfolding(crate::specs::Messages::file_text))]
fn file_text(file: &NamedFile) -> &[u8]
    ensures { result.now ≡ file_text file.now }
{
    match file {
        NamedFile::Manifest => b"composer.json",
        NamedFile::Member(path) => path.text(),
        NamedFile::Lock => b"composer.lock",
        NamedFile::Installed => b"installed.json",
    }
}

#[tactic(auto, unfolding(crate::specs::Messages::fault_text))]
fn put_fault(line: &mut Vec<u8>, fault: &DocumentFault) -> Result<(), AllocError>
    ensures { OnOk result (line.new.items ≡ line.old.items ++ fault_text fault.now) }
{
    match fault {
        DocumentFault::Syntax(at) => put_numbered(line, b"syntax at ", *at),
        DocumentFault::NotUtf8(at) => put_numbered(line, b"not UTF-8 at ", *at),
        DocumentFault::TooDeep(at) => put_numbered(line, b"too deep at ", *at),
        DocumentFault::BadField(pointer) => put_pair(line, b"bad field ", pointer.as_slice()),
        DocumentFault::ReservedName(name) => put_pair(line, b"reserved name ", name.as_slice()),
    }
}

fn put_broken(line: &mut Vec<u8>, rule: &BrokenRule) -> Result<(), AllocError>
    ensures { OnOk result (line.new.items ≡ line.old.items ++ (lock_breaks ++ rule_text rule.now)) }
{
    line.extend_from_slice(lock_breaks())?;
    put_rule(line, rule)
}

/// Puts the words of a broken rule and its names behind a text. Its one refusal is want of memory.
#[tactic(auto, unfolding(crate::specs::Messages::rule_text))]
pub fn put_rule(line: &mut Vec<u8>, rule: &BrokenRule) -> Result<(), AllocError>
    ensures { OnOk result (line.new.items ≡ line.old.items ++ rule_text rule.now) }
{
    match rule {
        BrokenRule::NotAllowed(name) => put_names(line, b"not allowed", &[name]),
        BrokenRule::TwoOwners(name, one, other) => put_names(
            line,
            b"two owners",
            &[name, one, other],
        ),
        BrokenRule::Unmet(from, name) => put_names(line, b"unmet", &[from, name]),
        BrokenRule::Conflict(from, name, other) => put_names(
            line,
            b"conflict",
            &[from, name, other],
        ),
        BrokenRule::Platform(from, name) => put_names(line, b"platform", &[from, name]),
    }
}

/// Puts a text, and then names, each behind a blank.
fn put_names(line: &mut Vec<u8>, text: &[u8], names: &[&Name]) -> Result<(), AllocError>
    ensures { OnOk result (line.new.items ≡ line.old.items ++ (text.now ++ flat_map (λ name. 32 ∷ name) (map (λ name. name.now) names.now))) }
{
    line.extend_from_slice(text)?;
    for name in names {
        line.push(b' ')?;
        line.extend_from_slice(name.as_slice())?;
    }
    Ok(())
}

#[tactic(auto, unfolding(crate::specs::Messages::limit_text))]
fn put_limit(line: &mut Vec<u8>, limit: &LimitKind) -> Result<(), AllocError>
    ensures { OnOk result (line.new.items ≡ line.old.items ++ limit_text limit.now) }
{
    match limit {
        LimitKind::FileBytes(path) => put_pair(line, b"limit FileBytes ", path.text()),
        LimitKind::Depth(path) => put_pair(line, b"limit Depth ", path.text()),
        LimitKind::Entries => put_text(line, b"limit Entries"),
        LimitKind::Packages => put_text(line, b"limit Packages"),
        LimitKind::Candidates(name) => put_pair(line, b"limit Candidates ", name.as_slice()),
        LimitKind::PoolBytes => put_text(line, b"limit PoolBytes"),
        LimitKind::Generation => put_text(line, b"limit Generation"),
    }
}

#[tactic(auto, unfolding(crate::specs::Messages::place_text))]
fn put_vanished(line: &mut Vec<u8>, place: &Place) -> Result<(), AllocError>
    ensures { OnOk result (line.new.items ≡ line.old.items ++ place_text place.now) }
{
    match place {
        Place::Entry(path) => put_pair(line, b"vanished ", path.text()),
        Place::Part(number) => put_numbered(line, b"vanished part ", *number),
    }
}

#[tactic(auto, unfolding(crate::specs::Messages::colon))]
fn colon() -> &'static [u8]
    ensures { result.now ≡ colon }
{
    b": "
}

#[tactic(auto, unfolding(crate::specs::Messages::not_offered))]
fn not_offered() -> &'static [u8]
    ensures { result.now ≡ not_offered }
{
    b": not offered "
}

#[tactic(auto, unfolding(crate::specs::Messages::bad_table_at))]
fn bad_table_at() -> &'static [u8]
    ensures { result.now ≡ bad_table_at }
{
    b": bad table at "
}

#[tactic(auto, unfolding(crate::specs::Messages::lock_breaks))]
fn lock_breaks() -> &'static [u8]
    ensures { result.now ≡ lock_breaks }
{
    b"lock breaks "
}
