//! The lists that the definitions take from the code. The function does nothing: its contract holds each of them.

ghost use Rattle.std.specs.Prelude.{◌≡◌, [], ◌∷◌};

use crate::variables::{
    JOB_VARIABLES, JobVariable, LEASE6_VARIABLES, Lease6Variable, NET_VARIABLES, NetVariable,
};

/// Law: which variables a job has, and in which order.
pub fn variables_are_these()
    ensures job { JOB_VARIABLES
        ≡ JobVariable.Interface ∷ JobVariable.Reason ∷ JobVariable.Carrier ∷ JobVariable.Metric ∷ [] }
    ensures net { NET_VARIABLES ≡ NetVariable.Address ∷ NetVariable.Length ∷ NetVariable.Mask ∷ [] }
    ensures lease6 { LEASE6_VARIABLES
        ≡ Lease6Variable.Addresses ∷ Lease6Variable.Prefixes ∷ Lease6Variable.NameServers
        ∷ Lease6Variable.DomainSearch ∷ [] }
{}
