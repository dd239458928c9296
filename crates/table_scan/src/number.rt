//! Numbers.

ghost use Rattle.std.specs.Prelude.{◌≡◌, ◌<◌, ◌≤◌, length, take, drop, IfOk};
ghost use Rattle.table_scan.specs.TableTokens.{front_digits, most_digits, piece_at, tokens};
ghost use Rattle.table_scan.specs.TableSteps.{IsNoGap, Stands, number_at};

use crate::stop::Stop;
use path_name::is_digit;

/// How many digits a number has at most.
const MOST_DIGITS: usize = 20;

/// How many digits stand at the front, or as many as a number has at most.
fn digits_len(text: &[u8]) -> usize
    ensures within { result ≤ length text.now }
    ensures few { result ≤ most_digits }
    ensures digits { front_digits most_digits text.now ≡ (take result text.now, drop result text.now) }
{
    let mut len = 0;
    while len < MOST_DIGITS && len < text.len() {
        if !is_digit(text[len]) {
            return len;
        }
        len += 1;
    }
    len
}

/// The digits of the number at the front, and what follows them.
pub fn number(text: &[u8]) -> Result<(&[u8], &[u8]), Stop>
    requires { IsNoGap (piece_at text.now) }
    ensures reads { Stands (λ x. (x.0.now, tokens x.1.now)) (number_at (tokens text.now)) result }
    ensures few { IfOk result (λ x. length x.0.now ≤ most_digits) }
    ensures shorter { IfOk result (λ x. length x.1.now < length text.now) }
{
    let len = digits_len(text);
    if len == 0 {
        return Err(Stop::Bad(text.len()));
    }
    Ok(text.split_at(len))
}
