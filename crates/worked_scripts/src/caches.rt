//! More than one cache, handle or rule.

ghost use Rattle.worked_scripts.specs.Caches.{CachesStandApart, EachRuleHasItsDeadline};

/// Calls of two caches do not wait for each other.
pub fn caches_stand_apart()
    ensures { CachesStandApart }
{}

/// A rule whose deadline the cached credential does not outlast loads another.
pub fn each_rule_has_its_deadline()
    ensures { EachRuleHasItsDeadline }
{}
