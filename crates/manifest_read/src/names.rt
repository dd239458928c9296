//! Names of packages and of platform packages.

ghost use Rattle.std.specs.Prelude.{◌≡◌, ◌≤◌, length, IfOk};
ghost use Rattle.std.specs.List.{list_any, position_or_len};
ghost use Rattle.path_name.specs.Bytes.{lowered};
ghost use Rattle.path_name.specs.Orders.{bytes_are_equal};
ghost use Rattle.path_name.specs.Paths.{is_slash};
ghost use Rattle.manifest_read.specs.Names.{is_name_byte, is_joint, after_group, after_joint, reached_by, is_group, is_part, vendor_of, is_package_name, platform_words, is_extension, is_platform_name, is_link_name, written_names, autoload_file, is_reserved};

use path_name::Name;
use std::alloc::{AllocError, Global};

/// Where the reading of a part of a name is.
#[derive(Clone, Copy)]
pub(crate) enum Reached {
    /// At its start, or behind what joins two groups: a group must follow.
    Joint,
    /// In a group.
    Group,
    /// Behind one `-`, where a second one may follow.
    Dash,
}

fn is_name_byte(byte: u8) -> bool
    ensures { result ≡ is_name_byte byte }
{
    byte.is_ascii_digit() || byte.is_ascii_lowercase()
}

fn is_joint(byte: u8) -> bool
    ensures { result ≡ is_joint byte }
{
    byte == b'_' || byte == b'.' || byte == b'-'
}

fn after_group(double: bool, byte: u8) -> Option<Reached>
    ensures { result ≡ after_group double byte }
{
    if !is_joint(byte) {
        None
    } else if double && byte == b'-' {
        Some(Reached::Dash)
    } else {
        Some(Reached::Joint)
    }
}

fn after_dash(double: bool, byte: u8) -> Option<Reached>
    ensures { result ≡ after_joint double Reached.Dash byte }
{
    if byte == b'-' {
        Some(Reached::Joint)
    } else {
        None
    }
}

fn reached_by(double: bool, reached: Reached, byte: u8) -> Option<Reached>
    ensures { result ≡ reached_by double reached byte }
{
    if is_name_byte(byte) {
        return Some(Reached::Group);
    }
    match reached {
        Reached::Joint => None,
        Reached::Group => after_group(double, byte),
        Reached::Dash => after_dash(double, byte),
    }
}

fn is_group(reached: Reached) -> bool
    ensures { result ≡ is_group reached }
{
    match reached {
        Reached::Joint => false,
        Reached::Group => true,
        Reached::Dash => false,
    }
}

/// Whether a text is groups of `[a-z0-9]` that single `_`, `.` and `-` join, and `--` too where `double` says so.
#[tactic(auto, unfolding(crate::specs::Names::is_part))]
fn is_part(double: bool, text: &[u8]) -> bool
    ensures { result ≡ is_part double text.now }
{
    let mut reached = Reached::Joint;
    for byte in text {
        match reached_by(double, reached, *byte) {
            Some(next) => reached = next,
            None => return false,
        }
    }
    is_group(reached)
}

/// Where the first `/` stands; the length where there is none.
fn place_of_slash(name: &[u8]) -> usize
    ensures place { result ≡ position_or_len is_slash name.now }
    ensures within { result ≤ length name.now }
{
    name.iter().take_while(|byte| **byte != b'/').count()
}

/// Whether this is the name of a package: two parts with a `/` between them.
#[tactic(auto, unfolding(crate::specs::Names::is_package_name))]
pub(crate) fn is_package_name(name: &[u8]) -> bool
    ensures { result ≡ is_package_name name.now }
{
    let at = place_of_slash(name);
    at < name.len() && is_part(false, &name[..at]) && is_part(true, &name[at + 1..])
}

#[tactic(auto, unfolding(crate::specs::Names::platform_words))]
fn is_platform_word(name: &[u8]) -> bool
    ensures { result ≡ list_any (bytes_are_equal name.now) platform_words }
{
    name == b"php".as_slice()
        || name == b"php-64bit".as_slice()
        || name == b"php-ipv6".as_slice()
        || name == b"php-zts".as_slice()
        || name == b"php-debug".as_slice()
        || name == b"hhvm".as_slice()
        || name == b"composer".as_slice()
        || name == b"composer-plugin-api".as_slice()
        || name == b"composer-runtime-api".as_slice()
}

#[tactic(auto, unfolding(crate::specs::Names::is_extension))]
fn is_extension(name: &[u8]) -> bool
    ensures { result ≡ is_extension name.now }
{
    if name.len() < 4 {
        return false;
    }
    let (head, part) = name.split_at(4);
    (head == b"ext-".as_slice() || head == b"lib-".as_slice()) && is_part(false, part)
}

/// Whether this is the name of a platform package.
#[tactic(auto, unfolding(crate::specs::Names::is_platform_name))]
pub(crate) fn is_platform_name(name: &[u8]) -> bool
    ensures { result ≡ is_platform_name name.now }
{
    is_platform_word(name) || is_extension(name)
}

/// Whether this is the name of a package or of a platform package.
#[tactic(auto, unfolding(crate::specs::Names::is_link_name))]
pub(crate) fn is_link_name(name: &[u8]) -> bool
    ensures { result ≡ is_link_name name.now }
{
    is_package_name(name) || is_platform_name(name)
}

#[tactic(auto, unfolding(crate::specs::Names::written_names))]
fn is_written_name(name: &[u8]) -> bool
    ensures { result ≡ list_any (bytes_are_equal name.now) written_names }
{
    name == b"composer/autoload_psr4.php".as_slice()
        || name == b"composer/autoload_namespaces.php".as_slice()
        || name == b"composer/autoload_classmap.php".as_slice()
        || name == b"composer/autoload_files.php".as_slice()
        || name == b"composer/autoload_state.php".as_slice()
        || name == b"composer/installed.json".as_slice()
}

#[tactic(auto, unfolding(crate::specs::Names::autoload_file))]
fn is_autoload_file(vendor: &[u8]) -> bool
    ensures { result ≡ bytes_are_equal vendor.now autoload_file }
{
    vendor == b"autoload.php".as_slice()
}

fn has_autoload_vendor(name: &[u8]) -> bool
    ensures { result ≡ bytes_are_equal (vendor_of name.now) autoload_file }
{
    is_autoload_file(&name[..place_of_slash(name)])
}

/// Whether other files are written at this name's place in `vendor`.
#[tactic(auto, unfolding(crate::specs::Names::is_reserved))]
pub(crate) fn is_reserved(name: &[u8]) -> bool
    ensures { result ≡ is_reserved name.now }
{
    has_autoload_vendor(name) || is_written_name(name)
}

/// A name in small letters.
pub(crate) fn lowered(alloc: Global, name: &[u8]) -> Result<Name, AllocError>
    ensures { IfOk result (λ small. small ≡ lowered name.now) }
{
    Ok(Name::of(name.to_ascii_lowercase(alloc)?))
}
