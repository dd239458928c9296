use super::*;
use crate::vectors::{ROWS, Row, VERSIONS};
use path_name::Items;
use std::alloc::{AllocError, Global};
use std::cmp::Ordering;
use std::test::*;
use version_norm::{Grade, Version, VersionFault, compare_numbered, normalise, print};

fn operator_text(operator: Operator) -> &'static [u8] {
    match operator {
        Operator::Less => b"<",
        Operator::LessOrEqual => b"<=",
        Operator::Greater => b">",
        Operator::GreaterOrEqual => b">=",
        Operator::Equal => b"==",
        Operator::NotEqual => b"!=",
    }
}

fn push_comparison(
    alloc: Global,
    text: &mut Vec<u8>,
    comparison: &Comparison,
) -> Result<(), AllocError> {
    let version = print(alloc, &comparison.version)?;
    text.extend_from_slice(operator_text(comparison.operator))?;
    text.extend_from_slice(version.as_slice())
}

fn push_comparisons(
    alloc: Global,
    text: &mut Vec<u8>,
    comparisons: &[Comparison],
) -> Result<(), AllocError> {
    for (i, comparison) in comparisons.iter().enumerate() {
        if 0 < i {
            text.extend_from_slice(b" ")?;
        }
        push_comparison(alloc, text, comparison)?;
    }
    Ok(())
}

fn push_alternatives(
    alloc: Global,
    text: &mut Vec<u8>,
    alternatives: &[Items<Comparison>],
) -> Result<(), AllocError> {
    for (i, alternative) in alternatives.iter().enumerate() {
        if 0 < i {
            text.extend_from_slice(b" | ")?;
        }
        push_comparisons(alloc, text, alternative.as_slice())?;
    }
    Ok(())
}

fn grade_text(grade: Grade) -> &'static [u8] {
    match grade {
        Grade::Stable => b"stable",
        Grade::Rc => b"RC",
        Grade::Beta => b"beta",
        Grade::Alpha => b"alpha",
        Grade::Dev => b"dev",
    }
}

fn push_flag(text: &mut Vec<u8>, flag: Option<Flag>) -> Result<(), AllocError> {
    match flag {
        None => Ok(()),
        Some(Flag::Written(grade)) => {
            text.extend_from_slice(b" @")?;
            text.extend_from_slice(grade_text(grade))
        }
        Some(Flag::Inferred(grade)) => {
            text.extend_from_slice(b" ~")?;
            text.extend_from_slice(grade_text(grade))
        }
    }
}

/// The comparisons of an alternative separated by blanks, alternatives by ` | `, and then a written flag behind
/// `@` or an inferred one behind `~`.
fn constraint_text(alloc: Global, constraint: &Constraint) -> Result<Vec<u8>, AllocError> {
    let mut text = Vec::new(alloc);
    push_alternatives(alloc, &mut text, constraint.alternatives.as_slice())?;
    push_flag(&mut text, constraint.flag())?;
    Ok(text)
}

/// The constraint that a text is for a package of version 1.2.0-beta1.
fn constraint(alloc: Global, text: &str) -> Option<Constraint> {
    let own = normalise(alloc, b"1.2.0-beta1").ok()?;
    read(alloc, text.as_bytes(), &own).ok()
}

fn is_read_as(alloc: Global, text: &str, wanted: &str) -> bool {
    let Some(constraint) = constraint(alloc, text) else {
        return false;
    };
    match constraint_text(alloc, &constraint) {
        Ok(text) => text.as_slice() == wanted.as_bytes(),
        Err(_) => false,
    }
}

fn is_refused_as(alloc: Global, text: &str, wanted: ConstraintFault) -> bool {
    let Ok(own) = normalise(alloc, b"1.0") else {
        return false;
    };
    match read(alloc, text.as_bytes(), &own) {
        Ok(_) => false,
        Err(fault) => fault == wanted,
    }
}

/// Texts, and what they are read as, for a package of version 1.2.0-beta1.
const READ: [(&str, &str); 29] = [
    ("^0.0.3", ">=0.0.3.0-dev <0.0.4.0-dev"),
    ("~1", ">=1.0.0.0-dev <2.0.0.0-dev"),
    ("1.0 - 2.0", ">=1.0.0.0-dev <2.1.0.0-dev"),
    ("1.0.0 - 2.1.0", ">=1.0.0.0-dev <=2.1.0.0"),
    (">=1.0@beta", ">=1.0.0.0-beta @beta"),
    ("dev-main#abc", "==dev-main ~dev"),
    ("1.x-dev", "==1.9999999.9999999.9999999-dev ~dev"),
    ("self.version", "==1.2.0.0-beta1 ~beta"),
    (" \tself.version\n", "==1.2.0.0-beta1 ~beta"),
    ("*", ""),
    ("x", ""),
    ("X.*.x", ""),
    ("*@dev", " @dev"),
    ("@dev", " @dev"),
    ("1.*", ">=1.0.0.0-dev <2.0.0.0-dev"),
    ("v1.2.x", ">=1.2.0.0-dev <1.3.0.0-dev"),
    ("1.2.3.X", ">=1.2.3.0-dev <1.2.4.0-dev"),
    ("1.*.*", ">=1.0.0.0-dev <2.0.0.0-dev"),
    ("0.*", ">=0.0.0.0-dev <1.0.0.0-dev"),
    (
        "999999999999999999.*",
        ">=999999999999999999.0.0.0-dev <1000000000000000000.0.0.0-dev",
    ),
    ("1.*@alpha", ">=1.0.0.0-dev <2.0.0.0-dev @alpha"),
    ("~1.2", ">=1.2.0.0-dev <2.0.0.0-dev"),
    ("~1.2.3", ">=1.2.3.0-dev <1.3.0.0-dev"),
    ("~1.2.3.4", ">=1.2.3.4-dev <1.2.4.0-dev"),
    ("~1.2-beta2", ">=1.2.0.0-beta2 <2.0.0.0-dev ~beta"),
    ("~1.2-stable", ">=1.2.0.0-dev <2.0.0.0-dev"),
    ("~1.2@RC", ">=1.2.0.0-dev <2.0.0.0-dev @RC"),
    ("~1.0-dev", ">=1.0.0.0-dev <2.0.0.0-dev ~dev"),
    ("^1", ">=1.0.0.0-dev <2.0.0.0-dev"),
];

const MORE_READ: [(&str, &str); 29] = [
    ("^1.2.3", ">=1.2.3.0-dev <2.0.0.0-dev"),
    ("^0", ">=0.0.0.0-dev <1.0.0.0-dev"),
    ("^0.3", ">=0.3.0.0-dev <0.4.0.0-dev"),
    ("^0.0", ">=0.0.0.0-dev <0.1.0.0-dev"),
    ("^0.0.0", ">=0.0.0.0-dev <0.0.1.0-dev"),
    ("^0.0.0.3", ">=0.0.0.3-dev <0.0.1.0-dev"),
    ("^0.2.3.4", ">=0.2.3.4-dev <0.3.0.0-dev"),
    ("^1.0-alpha1", ">=1.0.0.0-alpha1 <2.0.0.0-dev ~alpha"),
    ("1.0 - 2", ">=1.0.0.0-dev <3.0.0.0-dev"),
    ("1.0 - 2.0-beta", ">=1.0.0.0-dev <=2.0.0.0-beta"),
    ("1.0 - 2.0-dev", ">=1.0.0.0-dev <=2.0.0.0-dev"),
    (
        "1.0 - 2.x-dev",
        ">=1.0.0.0-dev <=2.9999999.9999999.9999999-dev",
    ),
    ("1.0-beta - 2.0", ">=1.0.0.0-beta <2.1.0.0-dev"),
    ("1.0 - 2.0-stable", ">=1.0.0.0-dev <2.1.0.0-dev"),
    ("1.0@dev - 2.0@beta", ">=1.0.0.0-dev <2.1.0.0-dev @dev"),
    ("1.0  -\t2.0", ">=1.0.0.0-dev <2.1.0.0-dev"),
    (">1.0", ">1.0.0.0"),
    (">=1.0", ">=1.0.0.0-dev"),
    ("<2.0", "<2.0.0.0-dev"),
    ("<=2.0", "<=2.0.0.0"),
    ("=1.0", "==1.0.0.0"),
    ("==1.0", "==1.0.0.0"),
    ("!=1.0", "!=1.0.0.0"),
    ("<>1.0", "!=1.0.0.0"),
    ("> \t1.0", ">1.0.0.0"),
    (">=1.0@stable", ">=1.0.0.0-dev @stable"),
    (">=1.0@dev", ">=1.0.0.0-dev @dev"),
    ("<=1.0@dev", "<=1.0.0.0-dev @dev"),
    (">1.0-p1@dev", ">1.0.0.0-patch1-dev @dev"),
];

const LAST_READ: [(&str, &str); 29] = [
    (">1.0-p1@RC", ">1.0.0.0-patch1 @RC"),
    ("!=1.0@alpha", "!=1.0.0.0-alpha @alpha"),
    ("==1.0@beta", "==1.0.0.0 @beta"),
    ("1.0@BETA", "==1.0.0.0 @beta"),
    (">1.0-beta@RC", ">1.0.0.0-beta @RC"),
    (">=1.0-p1", ">=1.0.0.0-patch1"),
    ("<1.0-RC1", "<1.0.0.0-RC1 ~RC"),
    ("<1.0-dev", "<1.0.0.0-dev ~dev"),
    (">=dev-main", ">=dev-main ~dev"),
    ("!=dev-main", "!=dev-main ~dev"),
    ("master", "==dev-master ~dev"),
    ("<=1.x-dev", "<=1.9999999.9999999.9999999-dev ~dev"),
    (">=1.0 <2.0", ">=1.0.0.0-dev <2.0.0.0-dev"),
    (">=1.0 ,\t<2.0", ">=1.0.0.0-dev <2.0.0.0-dev"),
    (
        ">=1.0,<2.0||>=3.0",
        ">=1.0.0.0-dev <2.0.0.0-dev | >=3.0.0.0-dev",
    ),
    (" 1|2 | dev-a ", "==1.0.0.0 | ==2.0.0.0 | ==dev-a"),
    ("1.0@dev@beta", "==1.0.0.0 @beta"),
    (
        "1.0@RC 2.0@dev|3.0@alpha",
        "==1.0.0.0 ==2.0.0.0 | ==3.0.0.0 @dev",
    ),
    ("1.0-beta 2.0", "==1.0.0.0-beta ==2.0.0.0"),
    ("==dev-a#b", "==dev-a#b ~dev"),
    ("== dev-a#b", "==dev-a ~dev"),
    ("1.x-dev#abc", "==1.9999999.9999999.9999999-dev ~dev"),
    ("==1.0-dev#abc", "==1.0.0.0-dev ~dev"),
    ("DEV-a#b", "==dev-a#b ~dev"),
    ("dev-main#abc@dev", "==dev-main @dev"),
    ("dev-main@dev#abc", "==dev-main ~dev"),
    ("1.0+build", "==1.0.0.0"),
    ("~1.2+b", ">=1.2.0.0-dev <2.0.0.0-dev"),
    (">=1.0+b", ">=1.0.0.0-dev"),
];

/// Texts, and where a part is bad or missing.
const BAD: [(&str, u64); 56] = [
    ("", 0),
    ("  ", 2),
    ("1.0 ||", 6),
    ("1.0||  ", 7),
    ("|| 1.0", 0),
    ("|||1.0", 0),
    ("1.0 ||| 2.0", 6),
    ("1.0 | | 2.0", 6),
    ("1.0||||2.0", 5),
    ("1.0,,2.0", 4),
    ("1.0 , , 2.0", 6),
    (",1.0", 0),
    ("1.0,", 4),
    ("1.0, ", 5),
    ("1.0,|2.0", 4),
    ("1.0|,2.0", 4),
    ("self.version | 1.0", 0),
    ("1.2.3.4.*", 0),
    ("V1.*", 0),
    ("1000000000000000000.*", 0),
    ("1.*.2", 0),
    ("*.1", 0),
    ("~dev-main", 0),
    ("~1.x-dev", 0),
    ("~", 0),
    ("^*", 0),
    ("^1.x", 0),
    ("1.0 - dev-main", 0),
    ("1.x-dev - 2.0", 0),
    ("1.0 - 2.*", 0),
    ("1.0 -", 4),
    ("> 1.0 - 2.0", 6),
    ("1.0 - > 2.0", 0),
    ("- 1.0", 0),
    (">=@dev", 0),
    (">= @dev", 0),
    (">=~1.0", 0),
    ("=>1.0", 0),
    (">==1.0", 0),
    ("!1.0", 0),
    ("~>1.0", 0),
    ("> , 1.0", 0),
    ("1.0 as", 4),
    ("as 1.0", 0),
    ("1.0, as 2.0", 5),
    ("1.0 as, 2.0", 4),
    ("1.0 as | 2.0", 4),
    ("1.0 AS 2.0", 4),
    ("one as 2.0", 0),
    ("1.0 foo as 2.0", 4),
    ("1.0 - as 2.0", 0),
    (">= as 1.0", 0),
    ("1.0#abc", 0),
    ("dev-#a", 0),
    ("2010-01-02", 0),
    ("1.0 2.0 three", 8),
];

/// Texts, and where an inline alias stands.
const ALIASES: [(&str, u64); 7] = [
    ("1.0 as 2.0", 4),
    ("1.0 as two", 4),
    ("1.0 as 2.0 nonsense", 4),
    ("1.0 as - 2.0", 4),
    ("dev-main as 1.0 | one", 9),
    ("1.0 , 2.0 as 3.0,,", 10),
    ("1.0 as as 2.0", 4),
];

/// Texts that are no constraints.
const REFUSED: [(&str, ConstraintFault); 3] = [
    ("1.0 as 2.0", ConstraintFault::InlineAlias(4)),
    ("", ConstraintFault::BadConstraint(0)),
    ("1.0 ||", ConstraintFault::BadConstraint(6)),
];

/// Constraints, and whether they meet.
const MET: [(&str, &str, bool); 5] = [
    ("^1.0", "^2.0", false),
    ("<=1.0.0", ">=1.0.0", true),
    ("dev-main", "!=dev-main", false),
    ("dev-main", "*", true),
    ("1.0.0", "!=1.0.0", false),
];

/// Versions, and their normal texts.
const NORMAL: [(&str, &str); 6] = [
    ("v1.2", "1.2.0.0"),
    ("1.0-b.2", "1.0.0.0-beta2"),
    ("1.0.0-RC1-dev", "1.0.0.0-RC1-dev"),
    ("2.0-stable", "2.0.0.0"),
    ("1.0+abc", "1.0.0.0"),
    ("master", "dev-master"),
];

/// Texts that are no versions.
const NO_VERSIONS: [(&str, VersionFault); 3] = [
    ("2010-01-02", VersionFault::DateVersion),
    ("one", VersionFault::NotAVersion),
    ("1.0.", VersionFault::NotAVersion),
];

/// From the lowest to the highest.
const ASCENDING: [&str; 9] = [
    "1.0.0.0-dev",
    "1.0.0.0-alpha-dev",
    "1.0.0.0-alpha",
    "1.0.0.0-beta1-dev",
    "1.0.0.0-beta1",
    "1.0.0.0-beta1.2",
    "1.0.0.0-RC",
    "1.0.0.0",
    "1.0.0.0-patch",
];

fn is_normal_text(alloc: Global, text: &str, wanted: &str) -> bool {
    let Ok(version) = normalise(alloc, text.as_bytes()) else {
        return false;
    };
    match print(alloc, &version) {
        Ok(text) => text.as_slice() == wanted.as_bytes(),
        Err(_) => false,
    }
}

fn is_no_version(alloc: Global, text: &str, wanted: VersionFault) -> bool {
    match normalise(alloc, text.as_bytes()) {
        Ok(_) => false,
        Err(fault) => fault == wanted,
    }
}

fn order_of(alloc: Global, first: &str, second: &str) -> Option<Ordering> {
    let first = normalise(alloc, first.as_bytes()).ok()?;
    let second = normalise(alloc, second.as_bytes()).ok()?;
    match (&first, &second) {
        (Version::Numbered(first), Version::Numbered(second)) => {
            Some(compare_numbered(first, second))
        }
        _ => None,
    }
}

#[test]
fn versions(rt: HostRuntime) {
    for (text, wanted) in READ {
        assert!(rt; is_read_as(rt.alloc(), text, wanted), "{text}");
    }
    for (text, wanted) in REFUSED {
        assert!(rt; is_refused_as(rt.alloc(), text, wanted), "{text}");
    }
    for (first, second, met) in MET {
        assert!(rt;
            do_meet(rt.alloc(), first, second) == Some(met),
            "{first} {second}"
        );
    }
    for (text, wanted) in NORMAL {
        assert!(rt; is_normal_text(rt.alloc(), text, wanted), "{text}");
    }
    for (text, wanted) in NO_VERSIONS {
        assert!(rt; is_no_version(rt.alloc(), text, wanted), "{text}");
    }
    for (i, first) in ASCENDING.iter().enumerate() {
        for (j, second) in ASCENDING.iter().enumerate() {
            assert!(rt;
                order_of(rt.alloc(), first, second) == Some(i.cmp(&j)),
                "{first} {second}"
            );
        }
    }
}

#[test]
fn more_versions(rt: HostRuntime) {
    for (text, wanted) in MORE_READ {
        assert!(rt; is_read_as(rt.alloc(), text, wanted), "{text}");
    }
}

#[test]
fn last_versions(rt: HostRuntime) {
    for (text, wanted) in LAST_READ {
        assert!(rt; is_read_as(rt.alloc(), text, wanted), "{text}");
    }
}

#[test]
fn faults(rt: HostRuntime) {
    for (text, at) in BAD {
        assert!(rt;
            is_refused_as(rt.alloc(), text, ConstraintFault::BadConstraint(at)),
            "{text}"
        );
    }
    for (text, at) in ALIASES {
        assert!(rt;
            is_refused_as(rt.alloc(), text, ConstraintFault::InlineAlias(at)),
            "{text}"
        );
    }
}

/// More constraints, and whether they meet.
const MEETING: [(&str, &str, bool); 12] = [
    (">1.0", "<1.0-p-dev", true),
    ("<0.0-dev", "<0.0-dev", true),
    ("1.0 2.0", "*", false),
    ("!=1.0 !=dev-main", "!=2.0", true),
    (">=1.0 <=1.0 !=1.0.0.0-dev", "!=1.0", true),
    ("<=1.0.0", ">=1.0.0@stable", true),
    ("<1.0.0-p1", ">1.0.0-RC1", true),
    ("<=1.0.0", ">1.0.0", false),
    (">1.0.0 <=1.1", "<1.1 >1.0.5", true),
    ("dev-main", "dev-other", false),
    (">=dev-main", "*", false),
    ("dev-main | 1.0", "!=dev-main", true),
];

fn do_meet(alloc: Global, first: &str, second: &str) -> Option<bool> {
    let first = constraint(alloc, first)?;
    let second = constraint(alloc, second)?;
    Some(first.meets(&second))
}

fn is_copied(alloc: Global, text: &str) -> bool {
    let Some(constraint) = constraint(alloc, text) else {
        return false;
    };
    match constraint.copy(alloc) {
        Ok(copy) => copy == constraint,
        Err(_) => false,
    }
}

#[test]
fn meeting_pairs(rt: HostRuntime) {
    for (first, second, met) in MEETING {
        assert!(rt;
            do_meet(rt.alloc(), first, second) == Some(met),
            "{first} {second}"
        );
        assert!(rt;
            do_meet(rt.alloc(), second, first) == Some(met),
            "{second} {first}"
        );
        assert!(rt; is_copied(rt.alloc(), first), "{first}");
    }
}

/// Whether a version satisfies a constraint.
fn is_satisfied(alloc: Global, wants: &Constraint, version: &str) -> Option<bool> {
    let version = normalise(alloc, version.as_bytes()).ok()?;
    Some(wants.satisfies(&version))
}

fn agrees_on_versions(alloc: Global, row: &Row) -> bool {
    let Some(wants) = constraint(alloc, row.constraint) else {
        return false;
    };
    for (version, bit) in VERSIONS.iter().zip(row.satisfied) {
        if is_satisfied(alloc, &wants, version) != Some(*bit == b'1') {
            return false;
        }
    }
    true
}

/// Constraints that meet for composer/semver alone: no version satisfies the second one.
const MEET_THERE: (&str, &str) = ("*", ">2.0 <1.0");

fn agrees_on_meeting(alloc: Global, row: &Row) -> bool {
    for (other, bit) in ROWS.iter().zip(row.meets) {
        let differs = MEET_THERE == (row.constraint, other.constraint)
            || MEET_THERE == (other.constraint, row.constraint);
        let wanted = *bit == b'1' && !differs;
        if do_meet(alloc, row.constraint, other.constraint) != Some(wanted) {
            return false;
        }
    }
    true
}

#[test]
fn composer_says(rt: HostRuntime) {
    for row in ROWS {
        assert!(rt; agrees_on_versions(rt.alloc(), &row), "{}", row.constraint);
        assert!(rt; agrees_on_meeting(rt.alloc(), &row), "{}", row.constraint);
    }
}
