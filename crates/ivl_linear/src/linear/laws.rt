//! The laws of a narrowing by a linear rule. Each function here does nothing: its contract is the law.
ghost use Rattle.ivl_linear.specs.Laws.{LinearIsLocal, LinearIsMonotone, LinearKeepsPoints, LinearKeepsSupported, LinearSettlesAtOnce};

/// A rule speaks only of the numbers of the variables that it names.
pub fn is_local()
    // Where two points agree at the variables that a rule names, both satisfy it or neither.
    ensures { LinearIsLocal }
{}

/// A larger family narrows to a larger one.
pub fn is_monotone()
    // Of two families, one within the other, the first narrows to one within that of the second.
    ensures { LinearIsMonotone }
{}

/// No supported family loses a member.
pub fn keeps_supported()
    // A family in which each member of a named set stands in a point stays within what narrowing leaves of one that holds it.
    ensures { LinearKeepsSupported }
{}

/// No point that satisfies the rule is lost.
pub fn keeps_points()
    // Each point of the domains that satisfies the rule is one of what narrowing leaves.
    ensures { LinearKeepsPoints }
{}

/// A second narrowing changes nothing, and nothing else did that leaves the named sets alone.
pub fn settles_at_once()
    // Where a family was narrowed by a rule, and then only sets lost members that the rule does not name, narrowing takes nothing.
    ensures { LinearSettlesAtOnce }
{}
