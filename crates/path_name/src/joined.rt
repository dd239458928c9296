//! Segments joined by `/`, as a `Path` keeps them: nothing for the root.

ghost use Rattle.std.specs.Prelude.{◌≡◌, ℕ, List, false, ◌+◌, ◌<◌, ◌≤◌, ◌↔◌, [], ◌∷◌, ◌++◌, length, take, drop, MatchOption, IfOk, OnOk, OnErr, IsTrue, Some, None, if◌then◌else◌, not, slice_index, ◌≢◌, ◌==◌};
ghost use Rattle.std.specs.Str.{is_utf8};
ghost use Rattle.std.specs.List.{slice_split, list_all, count_by};
ghost use Rattle.path_name.specs.Orders.{path_cmp};
ghost use Rattle.path_name.specs.Paths.{is_slash, has_no_slash, is_clean, is_here, is_above, is_segment, IsPath, BeginsWith, EndsWith, without_last, entered};
ghost use Rattle.path_name.specs.Joined.{segments_of, rank, joined_cmp, set_off, IsSetOff, IsRestOf, IsAncestor, HasNoSlash, IsSlashAt};

use crate::Name;
use std::alloc::{AllocError, Global};
use std::cmp::Ordering;

const SLASH: u8 = b'/';

/// The place of the first `/`.
fn first_slash(text: &[u8]) -> Option<usize>
    ensures { MatchOption result (HasNoSlash text.now 0) (λ at. IsSlashAt text.now at
        × ((k : ℕ) → k < at → slice_index text.now k ≢ 47)) }
{
    text.iter().position(|byte| *byte == SLASH)
}

/// The place of the last `/`.
fn last_slash(text: &[u8]) -> Option<usize>
    ensures { MatchOption result (HasNoSlash text.now 0) (λ at. IsSlashAt text.now at × HasNoSlash text.now (at + 1)) }
{
    text.iter().rposition(|byte| *byte == SLASH)
}

/// The part up to the first `/`, and what follows that `/`.
pub fn first_part(text: &[u8]) -> (&[u8], Option<&[u8]>)
    ensures parts { MatchOption result.1 (slice_split is_slash text.now ≡ result.0.now ∷ [])
        (λ rest. slice_split is_slash text.now ≡ result.0.now ∷ slice_split is_slash rest.now) }
    ensures lengths { MatchOption result.1 (length result.0.now ≡ length text.now)
        (λ rest. length result.0.now + 1 + length rest.now ≡ length text.now) }
    ensures whole { IsTrue (has_no_slash result.0.now) }
{
    match first_slash(text) {
        None => (text, None),
        Some(end) => (&text[..end], Some(&text[end + 1..])),
    }
}

fn is_utf8_part(part: &[u8]) -> bool
    ensures { result ≡ is_utf8 part.now }
{
    std::str::from_utf8(part).is_ok()
}

fn has_no_nul(part: &[u8]) -> bool
    ensures { result ≡ list_all (λ byte. not (byte == 0)) part.now }
{
    part.iter().all(|byte| *byte != 0)
}

/// Whether a part can be read: UTF-8, without a NUL.
pub fn is_clean_part(part: &[u8]) -> bool
    ensures { result ≡ is_clean part.now }
{
    is_utf8_part(part) && has_no_nul(part)
}

fn is_here_part(part: &[u8]) -> bool
    ensures { result ≡ is_here part.now }
{
    part.is_empty() || part == [b'.'].as_slice()
}

fn is_above_part(part: &[u8]) -> bool
    ensures { result ≡ is_above part.now }
{
    part == [b'.', b'.'].as_slice()
}

fn has_no_slash_in(part: &[u8]) -> bool
    ensures { result ≡ has_no_slash part.now }
{
    part.iter().all(|byte| *byte != SLASH)
}

/// Whether a name can be a segment of a path: UTF-8 without a NUL and a `/`, and neither empty nor `.`
/// nor `..`.
pub fn is_segment(name: &[u8]) -> bool
    ensures { result ≡ is_segment name.now }
{
    is_clean_part(name) && has_no_slash_in(name) && !is_here_part(name) && !is_above_part(name)
}

/// How long the text without its last segment is. None where there is no segment.
pub fn parent_len(joined: &[u8]) -> Option<usize>
    requires { IsPath (segments_of joined.now) }
    ensures { MatchOption result (joined.now ≡ [])
        (λ len. (len ≤ length joined.now) × (without_last (segments_of joined.now) ≡ Some (segments_of (take len joined.now)))) }
{
    if joined.is_empty() {
        return None;
    }
    match last_slash(joined) {
        None => Some(0),
        Some(end) => Some(end),
    }
}

/// How long the text without its last `up` segments is. None: there are fewer.
pub fn ancestor_len(joined: &[u8], up: u64) -> Option<usize>
    requires { IsPath (segments_of joined.now) }
    ensures { MatchOption result (length (segments_of joined.now) < up)
        (λ len. (up ≤ length (segments_of joined.now)) × IsAncestor joined.now up len) }
{
    let mut len = joined.len();
    for _ in 0..up {
        match parent_len(&joined[..len]) {
            None => return None,
            Some(shorter) => len = shorter,
        }
    }
    Some(len)
}

/// Reads a part after the segments that are there. False: it is a `..` with nothing to take away, and
/// nothing changed.
pub fn enter(joined: &mut Vec<u8>, part: &[u8]) -> Result<bool, AllocError>
    requires path { IsPath (segments_of joined.old.items) }
    requires clean { IsTrue (is_clean part.now) }
    requires whole { IsTrue (has_no_slash part.now) }
    ensures path { OnOk result (IsPath (segments_of joined.new.items)) }
    ensures entered { IfOk result (λ fits. entered (segments_of joined.old.items) part.now
        ≡ (if fits then Some (segments_of joined.new.items) else None)) }
    ensures kept { IfOk result (λ fits. fits ≡ false → joined.new.items ≡ joined.old.items) }
{
    if is_here_part(part) {
        return Ok(true);
    }
    if is_above_part(part) {
        return Ok(leave_last(joined));
    }
    append(joined, part)?;
    Ok(true)
}

/// Takes the last segment away. False: there is none.
pub fn leave_last(joined: &mut Vec<u8>) -> bool
    requires { IsPath (segments_of joined.old.items) }
    ensures path { IsPath (segments_of joined.new.items) }
    ensures left { without_last (segments_of joined.old.items)
        ≡ (if result then Some (segments_of joined.new.items) else None) }
    ensures kept { result ≡ false → joined.new.items ≡ joined.old.items }
{
    match parent_len(joined.as_slice()) {
        None => false,
        Some(len) => {
            joined.truncate(len);
            true
        }
    }
}

/// Sets off what is there from what comes next. Nothing changed after an Err.
fn set_off(joined: &mut Vec<u8>) -> Result<(), AllocError>
    ensures set_off { OnOk result (joined.new.items ≡ set_off joined.old.items) }
    ensures kept { OnErr result (joined.new.items ≡ joined.old.items) }
{
    if !joined.is_empty() {
        joined.push(SLASH)?;
    }
    Ok(())
}

/// Adds a segment. Nothing changed after an Err.
pub fn append(joined: &mut Vec<u8>, segment: &[u8]) -> Result<(), AllocError>
    requires { IsTrue (is_segment segment.now) }
    ensures added { OnOk result (segments_of joined.new.items ≡ segments_of joined.old.items ++ segment.now ∷ []) }
    ensures kept { OnErr result (joined.new.items ≡ joined.old.items) }
{
    let len = joined.len();
    set_off(joined)?;
    match joined.extend_from_slice(segment) {
        Ok(()) => Ok(()),
        Err(fault) => {
            joined.truncate(len);
            Err(fault)
        }
    }
}

/// The segments of a text and one more, in one allocation.
pub fn with_segment(alloc: Global, joined: &[u8], segment: &[u8]) -> Result<Vec<u8>, AllocError>
    requires { IsTrue (is_segment segment.now) }
    ensures { IfOk result (λ longer. segments_of longer.items ≡ segments_of joined.now ++ segment.now ∷ []) }
{
    if joined.is_empty() {
        return Vec::from_slice(alloc, segment);
    }
    let mut longer = Vec::with_capacity(alloc, joined.len() + 1 + segment.len())?;
    longer.extend_from_slice(joined)?;
    longer.push(SLASH)?;
    longer.extend_from_slice(segment)?;
    Ok(longer)
}

/// The segments of one text, then those of another, in one allocation.
pub fn join(alloc: Global, head: &[u8], tail: &[u8]) -> Result<Vec<u8>, AllocError>
    ensures { IfOk result (λ joined. segments_of joined.items ≡ segments_of head.now ++ segments_of tail.now) }
{
    if head.is_empty() {
        return Vec::from_slice(alloc, tail);
    }
    if tail.is_empty() {
        return Vec::from_slice(alloc, head);
    }
    let mut joined = Vec::with_capacity(alloc, head.len() + 1 + tail.len())?;
    joined.extend_from_slice(head)?;
    joined.push(SLASH)?;
    joined.extend_from_slice(tail)?;
    Ok(joined)
}

/// The segments behind those of `head`, joined. None where these are not the first ones of the text.
pub fn behind<'a>(joined: &'a [u8], head: &[u8]) -> Option<&'a [u8]>
    requires { IsPath (segments_of joined.now) }
    ensures { MatchOption result (BeginsWith (segments_of joined.now) (segments_of head.now) → ⊥)
        (λ rest. segments_of joined.now ≡ segments_of head.now ++ segments_of rest.now) }
{
    if head.is_empty() {
        return Some(joined);
    }
    match joined.strip_prefix(head) {
        None => None,
        Some(rest) => set_off_rest(rest),
    }
}

/// What follows a whole segment: nothing, or what stands behind a `/`.
fn set_off_rest(rest: &[u8]) -> Option<&[u8]>
    ensures { MatchOption result (IsSetOff rest.now → ⊥) (λ after. IsRestOf rest.now after.now) }
{
    match rest {
        [] => Some(rest),
        [b'/', after @ ..] => Some(after),
        [_, ..] => None,
    }
}

/// Path order of two texts.
pub fn compare(a: &[u8], b: &[u8]) -> Ordering
    ensures { result ≡ path_cmp (segments_of a.now) (segments_of b.now) }
{
    compare_ranks(a, b)
}

fn compare_ranks(a: &[u8], b: &[u8]) -> Ordering
    ensures { result ≡ joined_cmp a.now b.now }
{
    for (i, x) in a.iter().enumerate() {
        if i >= b.len() {
            return Ordering::Greater;
        }
        let order = rank(*x).cmp(&rank(b[i]));
        if order != Ordering::Equal {
            return order;
        }
    }
    if a.len() < b.len() {
        Ordering::Less
    } else {
        Ordering::Equal
    }
}

fn rank(byte: u8) -> u16
    ensures { result ≡ rank byte }
{
    if byte == SLASH {
        0
    } else {
        u16::from(byte) + 1
    }
}

fn slashes(joined: &[u8]) -> usize
    ensures value { result ≡ count_by is_slash joined.now }
    ensures bound { result ≤ length joined.now }
{
    joined.iter().filter(|byte| **byte == SLASH).count()
}

/// The segments, each as a name.
pub fn segments(alloc: Global, joined: &[u8]) -> Result<Vec<Name>, AllocError>
    ensures { IfOk result (λ names. names.items ≡ segments_of joined.now) }
{
    let mut names = Vec::with_capacity(alloc, count(joined))?;
    if joined.is_empty() {
        return Ok(names);
    }
    let mut rest = Some(joined);
    while let Some(left) = rest {
        let (segment, after) = first_part(left);
        names.push(Name::copy_of(alloc, segment)?)?;
        rest = after;
    }
    Ok(names)
}

/// The number of segments.
pub fn count(joined: &[u8]) -> usize
    ensures { result ≡ length (segments_of joined.now) }
{
    if joined.is_empty() {
        return 0;
    }
    slashes(joined) + 1
}

/// The first segment. None where there is none.
pub fn first(joined: &[u8]) -> Option<&[u8]>
    ensures { MatchOption result (segments_of joined.now ≡ []) (λ segment. BeginsWith (segments_of joined.now) (segment.now ∷ [])) }
{
    if joined.is_empty() {
        return None;
    }
    Some(first_part(joined).0)
}

/// The last segment. None where there is none.
pub fn last(joined: &[u8]) -> Option<&[u8]>
    ensures { MatchOption result (segments_of joined.now ≡ []) (λ segment. EndsWith (segments_of joined.now) segment.now) }
{
    if joined.is_empty() {
        return None;
    }
    match last_slash(joined) {
        None => Some(joined),
        Some(at) => Some(&joined[at + 1..]),
    }
}
