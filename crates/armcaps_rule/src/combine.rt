//! One value for two, for many, and under an override.

ghost use Rattle.std.specs.Prelude.{◌≡◌, ◌<◌, length};
ghost use Rattle.armcaps_rule.specs.Rule.{fold_of, forced_of, merged};

use crate::rule::Rule;

/// Merges the value that a field has so far with one more core's value (Linux, `arm64_ftr_safe_value`).
/// Equal values stay. `safe` is the field's safe value, which only [`Rule::Exact`] uses.
pub fn merge(rule: Rule, safe: i64, current: i64, other: i64) -> i64
    ensures { result ≡ merged rule safe current other }
{
    match rule {
        Rule::Exact => { if current == other { current } else { safe } }
        Rule::Lower => current.min(other),
        Rule::Higher => current.max(other),
        Rule::HigherOrZero => {
            if current == 0 || other == 0 {
                0
            } else {
                current.max(other)
            }
        }
    }
}

/// The one value for all of `values`.
pub fn fold(rule: Rule, safe: i64, values: &[i64]) -> i64
    requires { 0 < length values.now }
    ensures { result ≡ fold_of rule safe values.now }
{
    let mut folded = values[0];
    for value in &values[1..] {
        folded = merge(rule, safe, folded, *value);
    }
    folded
}

/// The one value for all of `values` under an override from the command line. An Exact field takes only its safe
/// value from there, and with any other rule the override counts as one more value.
pub fn forced(rule: Rule, safe: i64, override_: Option<i64>, values: &[i64]) -> i64
    requires { 0 < length values.now }
    ensures { result ≡ forced_of rule safe override_ values.now }
{
    let folded = fold(rule, safe, values);
    match override_ {
        None => folded,
        Some(value) => match rule {
            Rule::Exact => { if value == safe { safe } else { folded } }
            Rule::Lower | Rule::Higher | Rule::HigherOrZero => merge(rule, safe, folded, value),
        },
    }
}
