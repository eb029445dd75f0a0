//! Numbers among the words.
ghost use Rattle.std.specs.Prelude.{◌≡◌, true};
ghost use Rattle.std.specs.List.{list_all};
ghost use Rattle.sv_words.specs.Words.{is_digit, is_number, number_within, parsed, within};

fn is_digit(byte: u8) -> bool
    ensures { result ≡ is_digit byte }
{
    48 <= byte && byte <= 57
}

fn are_digits(bytes: &[u8]) -> bool
    ensures { result ≡ list_all is_digit bytes.now }
{
    bytes.iter().all(|byte| is_digit(*byte))
}

// 1 to 20 ASCII digits.
fn is_number(word: &str) -> bool
    ensures { result ≡ is_number word.now }
{
    let digits = are_digits(word.as_bytes());
    let some = 1 <= word.len();
    let few = word.len() <= 20;
    digits && (some && few)
}

fn parsed(word: &str) -> Option<u64>
    requires { is_number word.now ≡ true }
    ensures { result ≡ parsed word.now }
{
    word.parse::<u64>().ok()
}

fn within(least: u64, most: u64, number: Option<u64>) -> Option<u64>
    ensures { result ≡ within least most number }
{
    match number {
        Some(number) => {
            if least <= number && number <= most {
                Some(number)
            } else {
                None
            }
        }
        None => None,
    }
}

/// The number that the word writes, where it has 1 to 20 digits and is within these bounds.
pub fn number_within(least: u64, most: u64, word: &str) -> Option<u64>
    ensures { result ≡ number_within least most word.now }
{
    if !is_number(word) {
        return None;
    }
    within(least, most, parsed(word))
}
