//! Round numbers: those of which all decimal digits after the first two are 0. Given-up tests are asked again under round limits
//! alone, so that a test of a mutation has few rows.
ghost use Rattle.std.specs.Prelude.{◌≡◌};
ghost use Rattle.result_book.specs.Rounds.{is_limit as is_one, is_round};

/// The greatest limit of a test.
pub const MAX_LIMIT: u32 = 100_000;

/// Whether all decimal digits of the number after the first two are 0.
pub(crate) fn is_round(number: u32) -> bool
    ensures { result ≡ is_round number }
{
    let mut rest = number;
    while rest >= 100 {
        if rest % 10 != 0 {
            return false;
        }
        rest /= 10;
    }
    true
}

/// Whether given-up tests may be asked again under this limit: a round number from 1 to `MAX_LIMIT`.
pub fn is_limit(number: u32) -> bool
    ensures { result ≡ is_one number }
{
    is_round(number) && 1 <= number && number <= MAX_LIMIT
}
