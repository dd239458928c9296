//! Patterns.

use crate::Pattern;
use path_name::Path;
use std::alloc::Global;
use std::test::Fail;

/// Patterns, and files that they exclude or not, as the regular expressions do that Composer makes of such patterns, from
/// the first byte on.
static PATTERNS: [(&str, &str, bool); 51] = [
    ("tests/*/fix", "tests/unit/fix/A.php", true),
    ("tests/*/fix", "tests/fix/A.php", false),
    ("tests/*/fix", "tests/unit/fixture/A.php", false),
    ("tests/*/fix", "tests/unit/fix", true),
    ("tests/*/fix", "tests/a/b/fix/A.php", false),
    ("tests/**/fix", "tests/a/b/fix/A.php", true),
    ("tests/**/fix", "tests/fix/A.php", false),
    ("/Tests/", "Tests/A.php", true),
    ("Tests", "src/Tests/A.php", false),
    ("**/Tests", "src/Tests/A.php", true),
    ("**/Tests", "Tests/A.php", false),
    ("**/Tests", "a/b/Tests", true),
    ("Tests", "Tests", true),
    ("Tests", "TestsX/A.php", false),
    ("Tests", "Test", false),
    ("test", "Test/A.php", false),
    ("*", "A.php", true),
    ("*", "a/A.php", true),
    ("*.php", "A.php", true),
    ("*.php", "a/A.php", false),
    ("**.php", "a/A.php", true),
    ("*.php", ".php", false),
    ("a*", "a", false),
    ("a*", "ab", true),
    ("a*b", "ab", false),
    ("a*b", "axb", true),
    ("a*b", "axyb/C.php", true),
    ("a*b", "ax/yb", false),
    ("a**b", "ax/yb", true),
    ("a**b", "a/b", true),
    ("a**b", "ab", false),
    ("***", "a", false),
    ("***", "ab", true),
    ("***", "a/b", true),
    ("****", "a", false),
    ("****", "ab", true),
    ("*/**", "a/b", true),
    ("**/*", "a", false),
    ("//a///b//", "a/b/C.php", true),
    ("a/b", "a/bc", false),
    ("a.b", "axb", false),
    ("a.b", "a.b", true),
    ("[a]", "a", false),
    ("[a]", "[a]", true),
    ("a+", "aa", false),
    ("", "a", false),
    ("/", "a", false),
    ("src/X.php", "src/X.php", true),
    ("src/X.php", "src/X.php.php", false),
    ("*/*/*", "a/b", false),
    ("*/*/*", "a/b/c/d", true),
];

fn excludes(alloc: Global, text: &str, file: &str) -> Result<bool, Fail> {
    let folder = Path::read(alloc, b"app")?;
    let file = folder.follow(alloc, file.as_bytes())?;
    let pattern = Pattern::read(alloc, &folder, text.as_bytes())?;
    Ok(pattern.excludes(alloc, &file)?)
}

#[test]
fn patterns(rt: HostRuntime) -> Result<(), Fail> {
    for (text, file, excluded) in &PATTERNS {
        assert!(rt; excludes(rt.alloc(), text, file)? == *excluded);
    }
    Ok(())
}
