//! The meaning of digits and names.

ghost use Rattle.std.specs.List.{list_all};
ghost use Rattle.std.specs.Prelude.{◌≡◌, ◌<◌, ◌≤◌, ◌^◌, IfSome, MatchOption, true};
ghost use Rattle.tf_expr_template.specs.Bytes.{is_digit};
ghost use Rattle.tf_expr_template.specs.Word.{decimal, decimal_from, keyword};

/// The meaning of a name.
#[derive(Clone, Copy)]
pub(crate) enum Keyword {
    True,
    False,
    Null,
    Free,
}

#[tactic(auto, unfolding(crate::specs::Word::keyword))]
pub(crate) fn keyword_of(word: &str) -> Keyword
    ensures { result ≡ keyword word.now }
{
    if word == "true" {
        Keyword::True
    } else if word == "false" {
        Keyword::False
    } else if word == "null" {
        Keyword::Null
    } else {
        Keyword::Free
    }
}

/// Returns the number that digits spell, if it is at most `i64::MAX`.
pub(crate) fn number_of(digits: &str) -> Option<u64>
    ensures { MatchOption result (2 ^ 63 ≤ decimal digits.now)
        (λ n. (decimal digits.now ≡ n) × (n < 2 ^ 63)) }
{
    let mut number: u64 = 0;
    for digit in digits.as_bytes() {
        if number > MAX / 10 {
            return None;
        }
        number = number * 10 + u64::from(digit.saturating_sub(b'0'));
        if number > MAX {
            return None;
        }
    }
    Some(number)
}

const MAX: u64 = 9_223_372_036_854_775_807;
