//! What is true of each life of an interface. These functions do nothing: their contracts are the laws.

ghost use Rattle.origin_laws.specs.Granted6.{KeptLeasesAreGranted6};
ghost use Rattle.origin_laws.specs.Origins4.{KeptLeasesTellOrigins4};
ghost use Rattle.origin_laws.specs.Origins6.{KeptLeasesTellOrigins6};

/// Law: over every beginning, opening and list of turns of an interface, the DHCPv6 lease that it keeps is that of its
/// file, and no Reply granted another; or the last Reply that granted one granted it, in an exchange that its client
/// had open, and the interface's hardware address and the moment of that turn are its origin. Items may have gone.
pub fn kept_leases6_are_granted()
    ensures { KeptLeasesAreGranted6 }
{}

/// Law: in each life of an interface the DHCPv6 lease that it keeps is that of its file, or the first good Reply of an
/// exchange that its frames show came in at the moment that the lease's origin tells, with this interface's hardware
/// address, and the lease names that Reply's server (RFC 8415, section 18.2.10).
pub fn kept_leases6_tell_their_origin()
    ensures { KeptLeasesTellOrigins6 }
{}

/// Law: over every beginning, opening and list of turns of an interface, the DHCPv4 lease that it keeps is that of its
/// file, or in one of these turns an ACK that its client accepted granted it, and then the interface's hardware address
/// and the moment of that turn are its origin (RFC 2131, section 4.4.1).
pub fn kept_leases4_tell_their_origin()
    ensures { KeptLeasesTellOrigins4 }
{}
