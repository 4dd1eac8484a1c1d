//! What a list file says of the cost of loading.
ghost use Rattle.std.specs.Prelude.{◌≡◌, option_map};
ghost use Rattle.toml.specs.Data.{get_member};
ghost use Rattle.toml.specs.View.{table_view, view};
ghost use Rattle.pklist.specs.Allow.{are_unsaid};
ghost use Rattle.pklist.specs.ListFile.{build_in, build_word, cost_limits_in, each_rule_fault};
ghost use Rattle.pklist.specs.ListFile.{greatest_cost, greatest_sum, is_unlimited};
ghost use Rattle.pklist.specs.ListFile.{limit_said, rule_fault, rules_fault, unlimited_key};
ghost use Rattle.pklist.specs.ListFile.{value_in};

use crate::allow::rules::value_at;
use crate::allow::{AllowError, Where};
use toml::{Table, Value};

/// What a list file says of the cost of loading: `None` where it says nothing. `pkcheck` doesn't
/// read it; `pkload` does.
#[derive(Clone, Copy, Debug, PartialEq, Eq)]
pub struct CostLimits {
    /// The most levels of tuples in a key, at most 1,022; 4,294,967,295 is no limit.
    pub levels: Option<u32>,
    /// The greatest weight of a key, at most 1,048,574; 4,294,967,295 is no limit.
    pub weight: Option<u32>,
    /// The greatest weight of all keys together.
    pub work: Option<u64>,
    /// The greatest weight of all keys whose hash isn't salted.
    pub clash: Option<u64>,
    /// The most bytes of memory that loading may take.
    pub memory: Option<u64>,
    /// Whether BUILD may take an object that an import answered.
    pub builds: Option<bool>,
}

impl CostLimits {
    /// Whether the list says nothing of costs.
    pub fn are_unsaid(&self) -> bool
        ensures { result ≡ are_unsaid self.now }
    {
        self.levels.is_none()
            && self.weight.is_none()
            && self.work.is_none()
            && self.clash.is_none()
            && self.memory.is_none()
            && self.builds.is_none()
    }
}

/// What the tables `limits` and `rules` say.
pub fn cost_limits_in(limits: Option<&Value>, rules: Option<&Value>) -> CostLimits
    ensures { result ≡ cost_limits_in (option_map (λ v. view v.now) limits.entry)
        (option_map (λ v. view v.now) rules.entry) }
{
    CostLimits {
        levels: weight_said(value_in(limits, "levels")),
        weight: weight_said(value_in(limits, "weight")),
        work: sum_said(value_in(limits, "work")),
        clash: sum_said(value_in(limits, "clash")),
        memory: sum_said(value_in(limits, "memory")),
        builds: build_in(value_in(rules, "build")),
    }
}

/// The value at a key of a table, if both are there.
pub fn value_in<'a>(table: Option<&'a Value>, key: &str) -> Option<&'a Value>
    ensures { option_map (λ v. view v.now) result
        ≡ value_in key.now (option_map (λ v. view v.now) table.entry) }
{
    match table {
        Some(Value::Table(members)) => value_at(members, key),
        _ => None,
    }
}

/// A limit on the cost of a key, or the number that says that there is none.
fn weight_said(value: Option<&Value>) -> Option<u32>
    ensures { result ≡ limit_said unlimited_key (option_map (λ v. view v.now) value.entry) }
{
    match value {
        Some(Value::Integer(number)) => {
            if *number >= 0 && *number <= 4_294_967_295 {
                Some(*number as u32)
            } else {
                None
            }
        }
        _ => None,
    }
}

/// A limit on a sum.
fn sum_said(value: Option<&Value>) -> Option<u64>
    ensures { result ≡ limit_said greatest_sum (option_map (λ v. view v.now) value.entry) }
{
    match value {
        Some(Value::Integer(number)) => {
            if *number >= 0 {
                Some(*number as u64)
            } else {
                None
            }
        }
        _ => None,
    }
}

/// The greatest value of a limit on the cost of loading, if the key names one.
pub fn greatest_cost(key: &str) -> Option<u64>
    ensures { result ≡ greatest_cost key.now }
{
    if key == "levels" {
        Some(1_022)
    } else if key == "weight" {
        Some(1_048_574)
    } else if key == "work" || key == "clash" || key == "memory" {
        Some(9_223_372_036_854_775_807)
    } else {
        None
    }
}

/// Whether the value says that there is no limit on levels or weights.
pub fn is_unlimited(key: &str, value: &Value) -> bool
    ensures { result ≡ is_unlimited key.now (view value.now) }
{
    match value {
        Value::Integer(number) => {
            (key == "levels" || key == "weight") && *number == 4_294_967_295
        }
        _ => false,
    }
}

/// The first error in the table `rules`, if there is such a table.
pub fn rules_fault(rules: Option<&Value>) -> Option<AllowError>
    ensures { result ≡ rules_fault (option_map (λ v. view v.now) rules.entry) }
{
    match rules {
        None => None,
        Some(Value::Table(rules)) => each_rule_fault(rules),
        Some(_) => Some(AllowError::Shape(Where::Rules)),
    }
}

/// The first error among the keys, in the order of their bytes.
fn each_rule_fault(rules: &Table) -> Option<AllowError>
    ensures { result ≡ each_rule_fault (table_view rules.now) }
{
    for (key, value) in rules {
        let fault = rule_fault(key.as_str(), value);
        if fault.is_some() {
            return fault;
        }
    }
    None
}

fn rule_fault(key: &str, value: &Value) -> Option<AllowError>
    ensures { result ≡ rule_fault key.now (view value.now) }
{
    if key != "build" {
        return Some(AllowError::Shape(Where::RuleKey));
    }
    if build_in(Some(value)).is_some() {
        None
    } else {
        Some(AllowError::Shape(Where::Rule))
    }
}

/// What a value of `build` says.
fn build_in(value: Option<&Value>) -> Option<bool>
    ensures { result ≡ build_in (option_map (λ v. view v.now) value.entry) }
{
    match value {
        Some(Value::String(word)) => build_word(word.as_str()),
        _ => None,
    }
}

fn build_word(word: &str) -> Option<bool>
    ensures { result ≡ build_word word.now }
{
    if word == "any" {
        Some(true)
    } else if word == "made" {
        Some(false)
    } else {
        None
    }
}
