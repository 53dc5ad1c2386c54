//! That the order of the calls of a network plays no part. Each function here does nothing: its contract is the law.
//!
//! The posted sets are those with which the variables were added, cut by what they were restricted to. Each call keeps
//! it that the domains lie within the posted sets and that no family within these which the rules support loses a
//! member. So once all is settled the domains are the greatest such family within the posted sets, whatever the calls
//! and budgets before were.
ghost use Rattle.ivl_network.specs.NetworkLaws.{AddingKeepsUnder, AllIsGreatestUnder, RequiringKeepsUnder, RestrictingKeepsUnder, SettlingKeepsUnder};

/// Where a variable is added to the posted sets and to the domains.
pub fn adding_keeps()
    ensures { AddingKeepsUnder }
{}

/// Where the same variable is cut in both.
pub fn restricting_keeps()
    ensures { RestrictingKeepsUnder }
{}

/// Where a rule is required.
pub fn requiring_keeps()
    ensures { RequiringKeepsUnder }
{}

/// Where narrowing stops early.
pub fn settling_keeps()
    ensures { SettlingKeepsUnder }
{}

/// Where all is settled.
pub fn all_is_greatest()
    ensures { AllIsGreatestUnder }
{}
