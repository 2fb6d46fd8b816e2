//! The words that a line is made of: names and digits, as bytes.

ghost use Rattle.std.specs.Prelude.{◌≡◌, ◌==◌, ◌∷◌, [], MatchOption, IfSome, bytes_eq, ◌+◌, ◌<◌, length};
ghost use Rattle.std.specs.Char.{is_ascii_alphanumeric, is_ascii_digit};
ghost use Rattle.std.specs.List.{slice_split, list_all, list_any};
ghost use Rattle.psc_top.specs.Words as spec;

/// The words of the language itself, which name no value.
const KEYWORDS: [&str; 24] = [
    "module", "where", "import", "data", "type", "newtype", "class", "instance", "derive",
    "foreign", "infix", "infixl", "infixr", "let", "in", "do", "ado", "case", "of", "if", "then",
    "else", "true", "false",
];

/// Whether a word is one of these texts.
pub fn is_among(texts: &[&str], word: &[u8]) -> bool
    ensures { result ≡ list_any (λ text. bytes_eq text.now word.now) texts.now }
{
    texts.iter().any(|text| text.as_bytes() == word)
}

fn is_keyword(word: &[u8]) -> bool
    ensures { result ≡ spec.is_keyword word.now }
{
    is_among(&KEYWORDS, word)
}

fn are_letters_or_digits(word: &[u8]) -> bool
    ensures { result ≡ list_all is_ascii_alphanumeric word.now }
{
    word.iter().all(|byte| byte.is_ascii_alphanumeric())
}

fn are_all_digits(word: &[u8]) -> bool
    ensures { result ≡ list_all is_ascii_digit word.now }
{
    word.iter().all(|byte| byte.is_ascii_digit())
}

/// Whether these bytes are letters or digits, of which the first is an upper letter.
pub fn is_module_word(word: &[u8]) -> bool
    ensures { result ≡ spec.is_module_word word.now }
{
    !word.is_empty() && word[0].is_ascii_uppercase() && are_letters_or_digits(word)
}

fn is_lower_word(word: &[u8]) -> bool
    ensures { result ≡ spec.is_lower_word word.now }
{
    !word.is_empty() && word[0].is_ascii_lowercase() && are_letters_or_digits(word)
}

/// Whether these bytes are letters or digits, of which the first is a lower letter, and no keyword.
pub fn is_value_word(word: &[u8]) -> bool
    ensures { result ≡ spec.is_value_word word.now }
{
    is_lower_word(word) && !is_keyword(word)
}

/// Whether these bytes are digits, which begin with 0 only where they are just 0.
pub fn are_digits(word: &[u8]) -> bool
    ensures { result ≡ spec.are_digits word.now }
{
    !word.is_empty() && are_all_digits(word) && (word[0] != b'0' || word.len() == 1)
}

/// The bytes before the first `at`, and those behind it.
pub fn cut(bytes: &[u8], at: u8) -> Option<(&[u8], &[u8])>
    ensures parts { MatchOption result
        (slice_split (λ b. b == at) bytes.now ≡ bytes.now ∷ [])
        (λ parts. slice_split (λ b. b == at) bytes.now ≡ parts.0.now ∷ slice_split (λ b. b == at) parts.1.now) }
    ensures shorter { IfSome result (λ parts. length parts.0.now + length parts.1.now < length bytes.now) }
{
    for (i, byte) in bytes.iter().enumerate() {
        if *byte == at {
            return Some((&bytes[..i], &bytes[i + 1..]));
        }
    }
    None
}
