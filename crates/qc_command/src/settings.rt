//! The words that set the options of a command.
ghost use Rattle.std.specs.Prelude.{◌≡◌, ◌++◌, ℕ, List, codes, map, MatchBool, MatchOption};
ghost use Rattle.std.specs.Char.{is_ascii_digit};
ghost use Rattle.std.specs.List.{list_all};
ghost use Rattle.qc_command.specs.Settings.{IsNumber, IsSetting};
ghost use Rattle.qc_command.specs.Command.{texts_of};
ghost use Rattle.qc_command.specs.Inner.CommandWords.{option_of, AreApart, HasValue, HaveValues, IsNewSetting, IsNoNumber};
ghost use Rattle.qc_command.specs.Inner.CommandWords.{IsNoSetting, IsSetTo, IsSettingCount, IsUnset, SetsNew};

/// An option of a command.
#[derive(Clone, Copy)]
pub(crate) struct OptionRule {
    pub(crate) name: &'static str,
    pub(crate) least: u64,
    pub(crate) most: u64,
    /// Its value where it isn't given.
    pub(crate) default: u64,
}

const MOST_DIGITS: usize = 10;

fn are_digits(text: &str) -> bool
    ensures { result ≡ list_all is_ascii_digit text.now }
{
    text.as_bytes().iter().all(|byte| byte.is_ascii_digit())
}

/// The number that 1 to 10 decimal digits write.
fn number(digits: &str) -> Option<u64>
    ensures { MatchOption result (IsNoNumber digits.now) (λ n. IsNumber digits.now n) }
{
    if digits.len() > MOST_DIGITS || !are_digits(digits) {
        return None;
    }
    digits.parse().ok()
}

/// What follows `--name=`.
fn after_name<'a>(name: &str, word: &'a str) -> Option<&'a str>
    ensures { MatchOption result
        ((digits : List ℕ) → word.now ≡ codes "--" ++ (name.now ++ (codes "=" ++ digits)) → ⊥)
        (λ digits. word.now ≡ codes "--" ++ (name.now ++ (codes "=" ++ digits.now))) }
{
    word.strip_prefix("--")?
        .strip_prefix(name)?
        .strip_prefix("=")
}

/// The value that the word sets the option to.
fn setting(rule: &OptionRule, word: &str) -> Option<u64>
    ensures { MatchOption result
        (IsNoSetting (option_of rule.now) word.now)
        (λ value. IsSetting (option_of rule.now) word.now value) }
{
    let digits = after_name(rule.name, word)?;
    let value = number(digits)?;
    if rule.least <= value && value <= rule.most {
        Some(value)
    } else {
        None
    }
}

/// The value that one of the words sets the option to.
fn value_in(rule: &OptionRule, words: &[String]) -> Option<u64>
    ensures { MatchOption result
        (IsUnset (option_of rule.now) (texts_of words.now))
        (λ value. IsSetTo (option_of rule.now) (texts_of words.now) value) }
{
    for word in words {
        if let Some(value) = setting(rule, word) {
            return Some(value);
        }
    }
    None
}

/// The value of the option: the one that a word sets it to, or else its default.
pub(crate) fn value_of(rule: &OptionRule, words: &[String]) -> u64
    ensures { HasValue (option_of rule.now) (texts_of words.now) result }
{
    match value_in(rule, words) {
        Some(value) => value,
        None => rule.default,
    }
}

/// Whether the word sets the option, and none of those before it does.
fn is_new_setting(rule: &OptionRule, before: &[String], word: &str) -> bool
    ensures { MatchBool result
        (IsNewSetting (option_of rule.now) (texts_of before.now) word.now)
        (IsNewSetting (option_of rule.now) (texts_of before.now) word.now → ⊥) }
{
    match setting(rule, word) {
        Some(_) => value_in(rule, before).is_none(),
        None => false,
    }
}

/// Whether the word sets one of the options, and none of those before it sets the same.
fn sets_new(rules: &[OptionRule], before: &[String], word: &str) -> bool
    ensures { MatchBool result
        (SetsNew (map option_of rules.now) (texts_of before.now) word.now)
        (SetsNew (map option_of rules.now) (texts_of before.now) word.now → ⊥) }
{
    match rules {
        [] => false,
        [rule, more @ ..] => is_new_setting(rule, before, word) || sets_new(more, before, word),
    }
}

/// How many of the words, from the first on, set options, each at most once.
pub(crate) fn setting_count(rules: &[OptionRule], words: &[String]) -> usize
    requires { AreApart (map option_of rules.now) }
    ensures { IsSettingCount (map option_of rules.now) (texts_of words.now) result }
{
    for (place, word) in words.iter().enumerate() {
        if !sets_new(rules, &words[..place], word) {
            return place;
        }
    }
    words.len()
}
