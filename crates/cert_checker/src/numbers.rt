//! Numbers as certificates write them: in decimal, without leading zeros, and below 2^64.
ghost use Rattle.std.specs.Prelude.{◌≡◌, ◌+◌, ◌*◌, ◌^◌, ◌<◌, ◌≤◌, ◌++◌, ℕ, List, length, take, take_while, true, false, None, Some, IfSome, IsSomeAnd, MatchOption};
ghost use Rattle.std.specs.Char.{digit_value};
ghost use Rattle.std.specs.Fmt.{decimal};
ghost use Rattle.std.specs.Str.Parse.{digits_value};
ghost use Rattle.y86_base.specs.Text.{begins, behind, below_word, is_decimal as is_digit};
ghost use Rattle.cert_checker.specs.Lines.{AreWords, numbers_text};

use y86_base::{after_byte, is_decimal};

/// A number with one more digit at its end, if that is below 2^64.
#[tactic(auto, using(crate::proofs::Decimals::more_digit))]
fn with_digit(n: u64, digit: u8) -> Option<u64>
    requires { is_digit digit ≡ true }
    ensures { result ≡ below_word (n * 10 + digit_value digit) }
{
    n.checked_mul(10)?.checked_add((digit - b'0') as u64)
}

/// The leading digits as a number, and the bytes after them; `None` if the number isn't below 2^64.
#[tactic(auto, using(crate::proofs::Decimals::run_more, crate::proofs::Decimals::run_stops_at, crate::proofs::Decimals::run_too_large))]
fn digits_at(bytes: &[u8]) -> Option<(u64, &[u8])>
    ensures { MatchOption result (below_word (digits_value 10 (take_while is_digit bytes.now)) ≡ None)
        (λ x. (below_word (digits_value 10 (take_while is_digit bytes.now)) ≡ Some x.0) × (x.1.now ≡ behind is_digit bytes.now)) }
{
    let mut n = 0;
    for i in 0..bytes.len() {
        if !is_decimal(bytes[i]) {
            return Some((n, &bytes[i..]));
        }
        match with_digit(n, bytes[i]) {
            Some(more) => n = more,
            None => return None,
        }
    }
    Some((n, &bytes[bytes.len()..]))
}

/// The number at the front, and the bytes after its digits.
fn number_at(bytes: &[u8]) -> Option<(u64, &[u8])>
    ensures found { IfSome result (λ x. bytes.now ≡ decimal x.0 ++ x.1.now) }
    ensures small { IfSome result (λ x. x.0 < 2 ^ 64) }
    ensures only { (n : ℕ) (rest : List ℕ) → n < 2 ^ 64 → begins is_digit rest ≡ false → bytes.now ≡ decimal n ++ rest →
        IsSomeAnd result (λ x. (x.0 ≡ n) × (x.1.now ≡ rest)) }
{
    if bytes.is_empty() {
        return None;
    }
    if !is_decimal(bytes[0]) {
        return None;
    }
    if bytes[0] == b'0' {
        return Some((0, &bytes[1..]));
    }
    digits_at(bytes)
}

/// `count` numbers, each after a blank, then the end of the line; and the bytes after it. The numbers fill the first of
/// six places.
pub fn numbers_at(bytes: &[u8], count: usize) -> Option<([u64; 6], &[u8])>
    requires { count ≤ 6 }
    ensures found { IfSome result (λ x. bytes.now ≡ numbers_text (take count x.0) ++ x.1.now) }
    ensures six { IfSome result (λ x. length x.0 ≡ 6) }
    ensures words { IfSome result (λ x. AreWords (take count x.0)) }
    ensures only { (ns rest : List ℕ) → length ns ≡ count → AreWords ns → bytes.now ≡ numbers_text ns ++ rest →
        IsSomeAnd result (λ x. (take count x.0 ≡ ns) × (x.1.now ≡ rest)) }
{
    let mut numbers = [0; 6];
    let mut rest = bytes;
    for i in 0..count {
        let Some(behind) = after_byte(rest, b' ') else {
            return None;
        };
        let Some((n, more)) = number_at(behind) else {
            return None;
        };
        numbers[i] = n;
        rest = more;
    }
    match after_byte(rest, b'\n') {
        Some(behind) => Some((numbers, behind)),
        None => None,
    }
}
