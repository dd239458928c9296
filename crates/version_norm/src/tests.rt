use super::*;
use std::cmp::Ordering;
use std::test::*;

fn normal(rt: &impl AllocGlobal, text: &str) -> Result<Vec<u8>, Fail> {
    let version = normalise(rt.alloc(), text.as_bytes())?;
    Ok(print(rt.alloc(), &version)?)
}

/// Texts, and their normal texts.
const NORMAL_FORMS: [(&str, &str); 59] = [
    ("v1.2", "1.2.0.0"),
    ("1.0-b.2", "1.0.0.0-beta2"),
    ("1.0.0-RC1-dev", "1.0.0.0-RC1-dev"),
    ("2.0-stable", "2.0.0.0"),
    ("1.0+abc", "1.0.0.0"),
    ("master", "dev-master"),
    ("1", "1.0.0.0"),
    ("1.2.3.4", "1.2.3.4"),
    ("V1.2.3", "1.2.3.0"),
    (" \t1.0 \r\n", "1.0.0.0"),
    ("01.002.0003", "1.2.3.0"),
    ("00001", "1.0.0.0"),
    ("99999", "99999.0.0.0"),
    ("1.999999999999999999", "1.999999999999999999.0.0"),
    ("1.0stable", "1.0.0.0"),
    ("1.0-STABLE2.3-dev", "1.0.0.0"),
    ("1.0alpha", "1.0.0.0-alpha"),
    ("1.0a1", "1.0.0.0-alpha1"),
    ("1.0_beta", "1.0.0.0-beta"),
    ("1.0.b3", "1.0.0.0-beta3"),
    ("1.0rc", "1.0.0.0-RC"),
    ("1.0-Rc.1-2", "1.0.0.0-RC1.2"),
    ("1.0-PATCH1", "1.0.0.0-patch1"),
    ("1.0pl2", "1.0.0.0-patch2"),
    ("1.0-p", "1.0.0.0-patch"),
    ("1.0-alpha.01", "1.0.0.0-alpha1"),
    ("1.0-beta1.2-3.4", "1.0.0.0-beta1.2.3.4"),
    (
        "1.0-beta999999999999999999",
        "1.0.0.0-beta999999999999999999",
    ),
    ("1.0dev", "1.0.0.0-dev"),
    ("1.0.dev", "1.0.0.0-dev"),
    ("1.0_DEV", "1.0.0.0-dev"),
    ("1.0-adev", "1.0.0.0-alpha-dev"),
    ("1.0-beta_dev", "1.0.0.0-beta-dev"),
    ("1.0p1.dev", "1.0.0.0-patch1-dev"),
    ("1.0@dev", "1.0.0.0"),
    ("1.0-beta2@BETA", "1.0.0.0-beta2"),
    ("1.0@RC", "1.0.0.0"),
    ("1.0@Stable", "1.0.0.0"),
    ("1.0@alpha", "1.0.0.0"),
    ("trunk", "dev-trunk"),
    ("default", "dev-default"),
    ("master@dev", "dev-master"),
    ("dev-feature/x+y", "dev-feature/x+y"),
    ("DEV-Main", "dev-Main"),
    ("dev-1.0@stable", "dev-1.0"),
    ("dev-a@b", "dev-a@b"),
    ("1.0+a+b", "1.0.0.0"),
    ("1.0++", "1.0.0.0"),
    ("2010.01.02", "2010.1.2.0"),
    ("2010", "2010.0.0.0"),
    ("1.x-dev", "1.9999999.9999999.9999999-dev"),
    ("v2.3.*-dev", "2.3.9999999.9999999-dev"),
    ("1.X.DEV", "1.9999999.9999999.9999999-dev"),
    ("1.*dev", "1.9999999.9999999.9999999-dev"),
    ("1.2.x.4-dev", "1.2.9999999.4-dev"),
    ("01.x-dev", "1.9999999.9999999.9999999-dev"),
    ("123456-dev", "123456.9999999.9999999.9999999-dev"),
    ("123456.7dev", "123456.7.9999999.9999999-dev"),
    (
        "999999999999999999.x-dev",
        "999999999999999999.9999999.9999999.9999999-dev",
    ),
];

#[test]
fn normal_forms(rt: HostRuntime) -> Result<(), Fail> {
    for (text, wanted) in NORMAL_FORMS {
        assert_eq!(rt; normal(&rt, text)?.as_slice(), wanted.as_bytes(), "{text}");
    }
    Ok(())
}

/// Texts that are dates.
const DATES: [&str; 9] = [
    "2010-01-02",
    "20100102",
    "100000",
    "v2010.01.02.03.04",
    "2010:01",
    "2010-1",
    "1234567890123456789",
    "2010-01-02+build",
    "2010-01-02@dev",
];

/// Texts that are no versions.
const NO_VERSIONS: [&str; 40] = [
    "one",
    "1.0.",
    "",
    "@dev",
    "stable",
    "1.0@dev@beta",
    "1.0 @dev",
    "Master",
    "dev-",
    "dev-a b",
    "dev-a,b",
    "dev-a|b",
    "1.0+a b",
    "1.0+a,b",
    "1.0+",
    "+1.0",
    "1.0.0.0.0",
    "1.0-1",
    "1.0-",
    "1..0",
    "1.0-gamma",
    "1.0.-dev",
    "1.0--dev",
    "1.0-devel",
    "1.0-betaa",
    "v",
    "v.1",
    "vv1",
    "1.1000000000000000000",
    "1.0-beta1000000000000000000",
    "1000000000000000000.x-dev",
    "V1.x-dev",
    "1.x",
    "1.x_dev",
    "1.2.3.4.x-dev",
    "x-dev",
    "2010-01-02-",
    "V2010-01",
    "201-01-02",
    "2010-01-02a",
];

#[test]
fn refusals(rt: HostRuntime) {
    for text in DATES {
        assert!(rt;
            matches!(
                normalise(rt.alloc(), text.as_bytes()),
                Err(VersionFault::DateVersion)
            ),
            "{text}"
        );
    }
    for text in NO_VERSIONS {
        assert!(rt;
            matches!(
                normalise(rt.alloc(), text.as_bytes()),
                Err(VersionFault::NotAVersion)
            ),
            "{text}"
        );
    }
}

/// From the lowest to the highest, with their stabilities.
const ASCENDING: [(&str, Grade); 9] = [
    ("1.0.0.0-dev", Grade::Dev),
    ("1.0.0.0-alpha-dev", Grade::Dev),
    ("1.0.0.0-alpha", Grade::Alpha),
    ("1.0.0.0-beta1-dev", Grade::Dev),
    ("1.0.0.0-beta1", Grade::Beta),
    ("1.0.0.0-beta1.2", Grade::Beta),
    ("1.0.0.0-RC", Grade::Rc),
    ("1.0.0.0", Grade::Stable),
    ("1.0.0.0-patch", Grade::Stable),
];

#[test]
fn order_and_stability(rt: HostRuntime) -> Result<(), Fail> {
    let mut versions = Vec::new(rt.alloc());
    for (text, grade) in ASCENDING {
        let version = normalise(rt.alloc(), text.as_bytes())?;
        assert!(rt; version.copy(rt.alloc())? == version, "{text}");
        assert!(rt; stability(&version) == grade, "{text}");
        versions.push(version)?;
    }
    for (i, first) in versions.iter().enumerate() {
        for (j, second) in versions.iter().enumerate() {
            assert!(rt; order_of(first, second) == Some(i.cmp(&j)), "{i} {j}");
        }
    }
    assert_eq!(rt; Grade::Rc.rank(), 5);
    Ok(())
}

/// The order of two numbered versions.
fn order_of(first: &Version, second: &Version) -> Option<Ordering> {
    match (first, second) {
        (Version::Numbered(_), Version::Numbered(_)) => Some(compare(first, second)),
        _ => None,
    }
}
