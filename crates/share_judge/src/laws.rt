//! The laws that a share is told by the prefixes held. These functions do nothing: their contracts are the laws.

ghost use Rattle.evidence.specs.Lease6Evidence.HeldItems.{ItemRests};
ghost use Rattle.evidence.specs.Lease6Evidence.ItemBasis.{ItemBasis};
ghost use Rattle.evidence.specs.Lease6Evidence.KeptBasis6.{KeptBasis6};
ghost use Rattle.share_judge.specs.Laws.{KeptSharesAreTold, ListsTellShares, SharesAreTold, SharesOfEither};

/// Law: an address rests on a share exactly where some prefix that has its basis gives it (RFC 3633, section 12.1).
pub fn shares_are_told()
    ensures { SharesAreTold ItemRests }
{}

/// Law: so where a list has the prefixes that have their basis, and no other ones, it tells the same.
pub fn listed_prefixes_tell_shares()
    ensures { ListsTellShares ItemRests }
{}

/// Law: a share rests on a prefix that a Reply gave, or on one of the kept lease.
pub fn shares_are_of_either()
    ensures { SharesOfEither ItemBasis KeptBasis6 }
{}

/// Law: an address rests on a share of a prefix of the kept lease exactly where the judge of that lease tells it (RFC
/// 8415, section 18.2.12).
pub fn kept_shares_are_told()
    ensures { KeptSharesAreTold }
{}
