//! What is true of the definitions. These functions do nothing: their contracts are the laws.
ghost use Rattle.prefix_share.specs.SubnetLaws.{HaveTheirBits, LieWithin};
ghost use Rattle.prefix_share.specs.PlanLaws.{AreApart, FitThePrefix, OneFault, PlansObey};

/// A subnet has the prefix's bits, then the SLA id, then zeros, and each of its addresses is one of the prefix.
pub fn subnets_are_of_the_prefix()
    ensures bits { HaveTheirBits }
    ensures within { LieWithin }
{}

/// Shares are a plan exactly where they have one length, fit what is asked for and have unlike SLA ids. The
/// subnets of any two of them in one prefix have then no address in common. Shares have one first fault at most.
pub fn planned_shares_are_apart()
    ensures rules { PlansObey }
    ensures apart { AreApart }
    ensures fault { OneFault }
{}

/// Shares that are planned each have a subnet in a prefix that isn't longer than the one that is asked for.
pub fn planned_shares_fit()
    ensures { FitThePrefix }
{}
