//! The laws on what the judges of an interface tell. These functions do nothing: their contracts are the laws.

ghost use Rattle.iface_judge.specs.Among.{AllAreTold};
ghost use Rattle.iface_judge.specs.Laws.{OwnAddressesAreTold, SharedAddressesAreTold};

/// Law: an address rests on what its interface showed exactly where it has its basis there: as a static address, as a
/// link-local one, for a lease, or for a kept lease.
pub fn own_addresses_are_told()
    ensures { OwnAddressesAreTold }
{}

/// Law: an address rests on what the interface upstream showed exactly where it is a share of one of its prefixes (RFC
/// 3633, section 12.1), which the Replies give or a kept lease.
pub fn shared_addresses_are_told()
    ensures { SharedAddressesAreTold }
{}

/// Law: so at one managed interface or another exactly where it has its basis at one of them.
pub fn all_addresses_are_told()
    ensures { AllAreTold }
{}
