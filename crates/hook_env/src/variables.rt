//! The variables by their names, as in dhcpcd-run-hooks(8).
ghost use Rattle.std.specs.Prelude.{◌≡◌};
ghost use Rattle.hook_env.specs.Words.{job_word, lease6_word, net_word};

/// A variable that each job has.
#[derive(Clone, Copy, PartialEq, Eq)]
pub enum JobVariable {
    Interface,
    Reason,
    Carrier,
    Metric,
}

/// The variables that each job has, in order.
pub const JOB_VARIABLES: [JobVariable; 4] = [
    JobVariable::Interface,
    JobVariable::Reason,
    JobVariable::Carrier,
    JobVariable::Metric,
];

pub(crate) fn job_word(variable: JobVariable) -> &'static str
    ensures { result.now ≡ job_word variable }
{
    match variable {
        JobVariable::Interface => "interface",
        JobVariable::Reason => "reason",
        JobVariable::Carrier => "ifcarrier",
        JobVariable::Metric => "ifmetric",
    }
}

/// A variable of an IPv4 address with its network.
#[derive(Clone, Copy, PartialEq, Eq)]
pub enum NetVariable {
    Address,
    Length,
    Mask,
}

/// The variables of an IPv4 address with its network, in order.
pub const NET_VARIABLES: [NetVariable; 3] = [
    NetVariable::Address,
    NetVariable::Length,
    NetVariable::Mask,
];

pub(crate) fn net_word(variable: NetVariable) -> &'static str
    ensures { result.now ≡ net_word variable }
{
    match variable {
        NetVariable::Address => "ip_address",
        NetVariable::Length => "subnet_cidr",
        NetVariable::Mask => "subnet_mask",
    }
}

/// A variable of a DHCPv6 lease.
#[derive(Clone, Copy, PartialEq, Eq)]
pub enum Lease6Variable {
    Addresses,
    Prefixes,
    NameServers,
    DomainSearch,
}

/// The variables of a DHCPv6 lease, in order.
pub const LEASE6_VARIABLES: [Lease6Variable; 4] = [
    Lease6Variable::Addresses,
    Lease6Variable::Prefixes,
    Lease6Variable::NameServers,
    Lease6Variable::DomainSearch,
];

pub(crate) fn lease6_word(variable: Lease6Variable) -> &'static str
    ensures { result.now ≡ lease6_word variable }
{
    match variable {
        Lease6Variable::Addresses => "dhcp6_addresses",
        Lease6Variable::Prefixes => "dhcp6_prefixes",
        Lease6Variable::NameServers => "dhcp6_name_servers",
        Lease6Variable::DomainSearch => "dhcp6_domain_search",
    }
}
