//! What a marker says.

ghost use Rattle.std.specs.Prelude.{◌≡◌, ◌^◌, ◌<◌, ◌≤◌, false, length, SomeIff};
ghost use Rattle.std.specs.Option.{option_map};
ghost use Rattle.std.specs.List.{list_all, prefix_len};
ghost use Rattle.std.specs.Char.{digit_value, is_digit};
ghost use Rattle.ck_base.specs.Literals.{are_digits, value_of};
ghost use Rattle.ck_base.specs.Tokens.{is_word_byte as word_byte};
ghost use Rattle.ck_base.specs.Lexes.{is_space as space, behind_spaces, next_word as word_behind, behind_word};
ghost use Rattle.line_marks.specs.Marks.{directive_of, from_number, number_of, quote_at, closed_name, name_at};

#[tactic(auto, unfolding(ck_base::specs::Lexes::is_space))]
fn is_space(b: u8) -> bool
    ensures { result ≡ space b }
{
    b == b' ' || b == b'\t'
}

#[tactic(auto, unfolding(ck_base::specs::Tokens::is_word_byte, ck_base::specs::Tokens::is_nondigit))]
fn is_word_byte(b: u8) -> bool
    ensures { result ≡ word_byte b }
{
    b.is_ascii_alphabetic() || b == b'_' || b.is_ascii_digit()
}

// How many spaces and tabs stand at the front.
fn spaces_length(bytes: &[u8]) -> usize
    ensures value { result ≡ prefix_len space bytes.now }
    ensures within { result ≤ length bytes.now }
{
    bytes.iter().take_while(|b| is_space(**b)).count()
}

// How many bytes of a word stand at the front.
fn word_length(bytes: &[u8]) -> usize
    ensures value { result ≡ prefix_len word_byte bytes.now }
    ensures within { result ≤ length bytes.now }
{
    bytes.iter().take_while(|b| is_word_byte(**b)).count()
}

fn behind_spaces(bytes: &[u8]) -> &[u8]
    ensures { result.now ≡ behind_spaces bytes.now }
{
    &bytes[spaces_length(bytes)..]
}

// The word behind spaces and tabs, and what stands behind that word.
fn next_word(bytes: &[u8]) -> (&[u8], &[u8])
    ensures word { result.0.now ≡ word_behind bytes.now }
    ensures rest { result.1.now ≡ behind_word bytes.now }
{
    let rest = behind_spaces(bytes);
    rest.split_at(word_length(rest))
}

// What stands behind the `#` of a directive line.
pub fn directive_of(line: &[u8]) -> Option<&[u8]>
    ensures { option_map (λ bytes. bytes.now) result ≡ directive_of line.now }
{
    match behind_spaces(line) {
        [b'#', bytes @ ..] => Some(bytes),
        _ => None,
    }
}

// The value of a digit of either case, or 36.
fn digit_of(b: u8) -> u8
    ensures { result ≡ digit_value b }
{
    match b {
        b'0'..=b'9' => b - b'0',
        b'a'..=b'z' => b - b'a' + 10,
        b'A'..=b'Z' => b - b'A' + 10,
        _ => 36,
    }
}

fn are_all_digits(word: &[u8]) -> bool
    ensures { result ≡ list_all (λ b. is_digit b 10) word.now }
{
    word.iter().all(|b| digit_of(*b) < 10)
}

// Whether these are one or more decimal digits.
fn is_decimal(word: &[u8]) -> bool
    ensures { result ≡ are_digits 10 word.now }
{
    !word.is_empty() && are_all_digits(word)
}

// The number that decimal digits write, or None where it is 2^32 or more.
fn value_of(digits: &[u8]) -> Option<u32>
    ensures { SomeIff result (value_of 10 digits.now < 2 ^ 32) (value_of 10 digits.now) }
{
    let mut value = 0u32;
    for b in digits {
        value = value.checked_mul(10)?.checked_add(u32::from(digit_of(*b)))?;
    }
    Some(value)
}

// The number that a word writes.
fn number_of(word: &[u8]) -> Option<u32>
    ensures { result ≡ number_of word.now }
{
    if is_decimal(word) {
        value_of(word)
    } else {
        None
    }
}

// How many bytes stand before the first quote that no backslash takes along.
fn quote_at(bytes: &[u8]) -> usize
    ensures { result ≡ quote_at false bytes.now }
{
    let mut escaped = false;
    for (i, b) in bytes.iter().enumerate() {
        if escaped {
            escaped = false;
        } else if *b == b'"' {
            return i;
        } else {
            escaped = *b == b'\\';
        }
    }
    bytes.len()
}

// The name behind an opening quote, or the one in force.
fn closed_name<'a>(kept: &'a [u8], bytes: &'a [u8]) -> &'a [u8]
    ensures { result.now ≡ closed_name kept.now bytes.now }
{
    let n = quote_at(bytes);
    if n < bytes.len() { &bytes[..n] } else { kept }
}

fn name_at<'a>(kept: &'a [u8], bytes: &'a [u8]) -> &'a [u8]
    ensures { result.now ≡ name_at kept.now bytes.now }
{
    match bytes {
        [b'"', rest @ ..] => closed_name(kept, rest),
        _ => kept,
    }
}

// The number of a marker, and the name that is in force behind it, of what stands behind its `#`.
pub fn marker_of<'a>(kept: &'a [u8], bytes: &'a [u8]) -> (Option<u32>, &'a [u8])
    ensures number { result.0 ≡ number_of (word_behind (from_number bytes.now)) }
    ensures name { result.1.now ≡ name_at kept.now (behind_spaces (behind_word (from_number bytes.now))) }
{
    let (word, rest) = next_word(bytes);
    let (word, rest) = if word == b"line".as_slice() {
        next_word(rest)
    } else {
        (word, rest)
    };
    (number_of(word), name_at(kept, behind_spaces(rest)))
}
