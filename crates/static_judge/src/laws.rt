//! The law that the judge lets a static address stand where it has its basis, and nowhere else.

ghost use Rattle.static_judge.specs.Judge.{StaticsHaveBases};

/// Law: an address stands as a static one exactly where it has the basis of one.
pub fn static_addresses_have_bases()
    ensures { StaticsHaveBases }
{}
