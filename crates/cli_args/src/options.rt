//! Options: each is a name, with a value behind it.
ghost use Rattle.std.specs.Prelude.{◌≡◌, ◌≤◌, length, map, string_bytes, bytes_eq, option_map};
ghost use Rattle.std.specs.List.{list_any};
ghost use Rattle.cli_args.specs.Options.{value_of, is_new, are_options, begins_option, leading_count};

/// The value behind the first option of this name.
pub(crate) fn value_of<'a>(name: &str, words: &'a [String]) -> Option<&'a str>
    ensures { option_map (λ value. value.now) result ≡ value_of name.now (map string_bytes words.now) }
{
    let mut rest = words;
    while let Some((word, values)) = rest.split_first() {
        let Some((value, behind)) = values.split_first() else {
            return None;
        };
        if word.as_str() == name {
            return Some(value.as_str());
        }
        rest = behind;
    }
    None
}

/// Whether a word is one of these names.
fn is_known(names: &[&str], word: &str) -> bool
    ensures { result ≡ list_any (bytes_eq word.now) (map (λ name. name.now) names.now) }
{
    for name in names {
        if word == *name {
            return true;
        }
    }
    false
}

/// Whether a word is one of these names, and no option behind it has the same name.
#[tactic(auto, unfolding(crate::specs::Options::is_new))]
pub(crate) fn is_new(names: &[&str], word: &str, behind: &[String]) -> bool
    ensures { result ≡ is_new (map (λ name. name.now) names.now) word.now (map string_bytes behind.now) }
{
    is_known(names, word) && value_of(word, behind).is_none()
}

/// Whether the words are options of these names, each at most once and with a value.
pub(crate) fn are_options(names: &[&str], words: &[String]) -> bool
    ensures { result ≡ are_options (map (λ name. name.now) names.now) (map string_bytes words.now) }
{
    let mut rest = words;
    while let Some((word, values)) = rest.split_first() {
        let Some((_, behind)) = values.split_first() else {
            return false;
        };
        if !is_new(names, word.as_str(), behind) {
            return false;
        }
        rest = behind;
    }
    true
}

/// Whether an argument begins an option: with `--`.
fn begins_option(word: &str) -> bool
    ensures { result ≡ begins_option word.now }
{
    match word.as_bytes() {
        [first, second, ..] => *first == b'-' && *second == b'-',
        _ => false,
    }
}

/// How many arguments stand before the first option.
pub(crate) fn leading_count(words: &[String]) -> usize
    ensures value { result ≡ leading_count (map string_bytes words.now) }
    ensures within { result ≤ length words.now }
{
    let mut count = 0;
    for word in words {
        if begins_option(word.as_str()) {
            return count;
        }
        count += 1;
    }
    count
}
