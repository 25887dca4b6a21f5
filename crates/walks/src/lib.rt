//! Walks out of the flanks of a route in the words of the subject, and the theorems that the search finds exactly what they come to.
#![tactic(auto)]

ghost use Rattle.walks.specs.Exactly.{ChainsEnd, UsedExact, FlanksExact, RequestsExact, RequestsAscend, BranchesExact, BranchesAscend};

/// No chain of signals is cut short, the search starts from what a route uses and from its flanks, what a route requests is what
/// walks come to, its open branches are where walks end open, and both are listed in order, each once.
pub fn walks_are_exact()
    ensures chains { ChainsEnd }
    ensures used { UsedExact }
    ensures flanks { FlanksExact }
    ensures requests { RequestsExact }
    ensures branches { BranchesExact }
    ensures requests_order { RequestsAscend }
    ensures branches_order { BranchesAscend }
{}
