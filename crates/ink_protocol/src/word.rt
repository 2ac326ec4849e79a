//! What stands in a typed line, of a session or of a reader: a word at its beginning, and a choice's number.

ghost use Rattle.std.specs.Prelude.{◌≡◌, ◌≤◌, ◌<◌, length, true, option_map};
ghost use Rattle.std.specs.List.{list_all};
ghost use Rattle.ink_model.specs.Text.Bytes.{after as after_word, is_digit as digit, number_from};
ghost use Rattle.ink_model.specs.Protocol.Command as command;

/// The most digits of a choice's number.
const MAX_DIGITS: usize = 9;

/// What follows a word at a line's beginning; none where the line begins otherwise.
pub fn after<'a>(word: &str, text: &'a str) -> Option<&'a str>
    ensures { option_map (λ rest. rest.now) result ≡ after_word word.now text.now }
{
    text.strip_prefix(word)
}

/// The number of a choice, which has 1 to 9 digits; none where the text is no such number.
pub fn choice_number(digits: &str) -> Option<u32>
    ensures { option_map command.Choose result ≡ command.choose_command digits.now }
{
    if digits.is_empty() || digits.len() > MAX_DIGITS || !is_number(digits) {
        return None;
    }
    Some(number_of(digits))
}

fn is_number(text: &str) -> bool
    ensures { result ≡ list_all digit text.now }
{
    text.as_bytes().iter().all(|byte| is_digit(*byte))
}

fn is_digit(byte: u8) -> bool
    ensures { result ≡ digit byte }
{
    b'0' <= byte && byte <= b'9'
}

// The number that digits are.
fn number_of(digits: &str) -> u32
    requires filled { 0 < length digits.now }
    requires few { length digits.now ≤ 9 }
    requires digits { list_all digit digits.now ≡ true }
    ensures { result ≡ number_from 0 digits.now }
{
    digits.parse::<u32>().unwrap()
}
