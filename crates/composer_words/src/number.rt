//! The number of a demo's packages.

ghost use Rattle.std.specs.Prelude.{◌≡◌};
ghost use Rattle.composer_words.specs.Words as means;

use path_name::is_number;

/// The number that one to three digits stand for.
fn short_number(text: &str) -> Option<u32>
    ensures { result ≡ means.short_number text.now }
{
    if text.len() > 3 {
        return None;
    }
    if !is_number(text.as_bytes()) {
        return None;
    }
    match text.parse::<u32>() {
        Ok(number) => Some(number),
        Err(_) => None,
    }
}

/// The number that a word stands for. None where it is not one to three digits that stand for a number from
/// 1 to 400.
pub fn demo_number(text: &str) -> Option<u32>
    ensures { result ≡ means.demo_number text.now }
{
    match short_number(text) {
        None => None,
        Some(number) => {
            if 1 <= number && number <= 400 {
                Some(number)
            } else {
                None
            }
        }
    }
}
