//! What judges the addresses of one interface.
ghost use Rattle.std.specs.Prelude.{◌≡◌, ◌<◌, ◌^◌, ℕ, Bool, true, List, [], ◌∷◌, IfOk};
ghost use Rattle.net_types.specs.declared.address.Net.{Net};
ghost use Rattle.audit_words.specs.EvidenceWords.Entries as told;
ghost use Rattle.audit_words.specs.EvidenceWords.IfaceLives.{now_in};
ghost use Rattle.audit_words.specs.EvidenceWords.Inputs as told_of;
ghost use Rattle.audit_words.specs.Shown.{FitsSite, entry_shown, site_shown};

use audit_words::{Entry, Site};
use net_types::{Net, NoMemory};
use std::alloc::Global;

/// What is shown the turns of a life, one after another, and tells which addresses of an interface rest on them.
pub trait Judge: Sized {
    // what it holds, after these turns
    ghost Tells: { Self → told_of.Site → List told.Entry → Type 0 };

    // whether an address on the interface itself rests on the turns
    ghost is_own: { told_of.Site → Net → List told.Entry → Bool };

    // whether an address on another one does, of that number, as a share of this one's prefixes
    ghost is_shared: { told_of.Site → ℕ → Net → List told.Entry → Bool };

    /// Before all turns.
    fn first(alloc: Global, site: &Site) -> Result<Self, NoMemory>
        requires { FitsSite site.now }
        ensures { IfOk result (λ judge. Tells judge (site_shown site.now) []) };

    /// After a turn more.
    fn turned(self, alloc: Global, site: &Site, entry: &Entry) -> Result<Self, NoMemory>
        requires site { FitsSite site.now }
        requires moment { entry.now.moment < 10 ^ 15 }
        ensures { IfOk result
            (λ next. (past : List told.Entry)
            → Tells self (site_shown site.now) past
            → Tells next (site_shown site.now) (entry_shown entry.now ∷ past)) };

    /// Whether it stays as it is in a turn more, and so need not be shown that one.
    fn stays(&self, site: &Site, entry: &Entry) -> bool
        requires site { FitsSite site.now }
        requires moment { entry.now.moment < 10 ^ 15 }
        ensures { result ≡ true
            → (past : List told.Entry)
            → Tells self.now (site_shown site.now) past
            → Tells self.now (site_shown site.now) (entry_shown entry.now ∷ past) };

    /// Whether an address on the interface rests on the turns, at the moment of the last one.
    fn owns(&self, site: &Site, net: Net, moment: u64) -> bool
        requires { FitsSite site.now }
        ensures { (past : List told.Entry)
            → moment ≡ now_in past
            → Tells self.now (site_shown site.now) past
            → result ≡ is_own (site_shown site.now) net past };

    /// Whether an address on the interface of this number does, as a share of this one's prefixes.
    fn shares(&self, site: &Site, index: u32, net: Net, moment: u64) -> bool
        requires { FitsSite site.now }
        ensures { (past : List told.Entry)
            → moment ≡ now_in past
            → Tells self.now (site_shown site.now) past
            → result ≡ is_shared (site_shown site.now) index net past };
}
