//! Whether an address is held as a static one.

ghost use Rattle.std.specs.Prelude.{◌≡◌, []};
ghost use Rattle.audit_words.specs.Shown.{site_shown};
ghost use Rattle.static_judge.specs.Judge.{gives_in};
ghost use Rattle.basis_turns.specs.Turns.{shown_after};

use crate::shown_turn::ShownTurn;
use audit_words::Site;
use net_types::Net;
use static_judge::StaticJudge;

/// Whether an address is configured, and stands as a static one after some turns.
pub fn is_static(site: &Site, turns: &[ShownTurn], net: Net) -> bool
    ensures { result ≡ gives_in (site_shown site.now) net (shown_after [] turns.now) }
{
    let mut judge = StaticJudge::first(site);
    'turns: for turn in turns {
        let next = judge.turned(site, &turn.entry);
        judge = next;
    }
    judge.gives(site, net)
}
