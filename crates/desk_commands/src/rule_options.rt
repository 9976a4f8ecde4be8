//! The options of `columnconfig` and `rowconfig`, which give the rule of a track.

ghost use Rattle.std.specs.Prelude.{◌≡◌};
ghost use Rattle.desk_model.specs.ConfigOptions.{rule_option_refusal, rule_options_refusal, with_rule_option, with_rule_options};

use crate::ranges::unless_within;
use cmd_words::{ConfigOption, Refusal};

/// The refusal of an option.
fn rule_option_refusal(option: &(ConfigOption, i32)) -> Option<Refusal>
    ensures { result ≡ rule_option_refusal option.now }
{
    match option.0 {
        ConfigOption::Size => unless_within(0, 1024, option.1),
        ConfigOption::Weight => unless_within(0, 1000, option.1),
    }
}

/// The first refusal of the options, from left to right.
pub(crate) fn rule_options_refusal(options: &[(ConfigOption, i32)]) -> Option<Refusal>
    ensures { result ≡ rule_options_refusal options.now }
{
    for option in options {
        match rule_option_refusal(option) {
            Some(refusal) => return Some(refusal),
            None => {}
        }
    }
    None
}

/// The rule with an option in it.
fn with_rule_option(option: &(ConfigOption, i32), rule: (u32, u32)) -> (u32, u32)
    ensures { result ≡ with_rule_option option.now rule }
{
    match option.0 {
        ConfigOption::Size => (option.1.unsigned_abs(), rule.1),
        ConfigOption::Weight => (rule.0, option.1.unsigned_abs()),
    }
}

/// The rule with the options in it, one after the other.
pub(crate) fn with_rule_options(options: &[(ConfigOption, i32)], rule: (u32, u32)) -> (u32, u32)
    ensures { result ≡ with_rule_options options.now rule }
{
    let mut made = rule;
    for option in options {
        made = with_rule_option(option, made);
    }
    made
}
