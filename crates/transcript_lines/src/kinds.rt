//! By which word a line begins.
ghost use Rattle.std.specs.Prelude.{◌≡◌, map, option_map};
ghost use Rattle.transcript_lines.specs.LineKinds.{kind_among, kind_at};

use net_types::strip_word;

/// Which kind of line.
#[derive(Clone, Copy)]
pub enum Kind {
    Interface,
    Life,
    Start,
    Asides,
    AsidesFailed,
    Wrote,
    Synced,
    Renamed,
    Removed,
    Settled,
    Read,
    Turn,
    HookPolled,
    HookAbandoned,
    HookDropped,
    HookStarted,
    Variable,
    Send,
    HostListed,
    Row,
    HostListFailed,
    HostDel,
    HostAdd,
    Until,
    Hold,
    EndOfLife,
}

/// The first kind of the table with whose word the text begins, and the text after the word.
fn kind_among<'a>(kinds: &[(Kind, &[u8])], text: &'a [u8]) -> Option<(Kind, &'a [u8])>
    ensures { option_map (λ p. (p.0, p.1.now)) result ≡ kind_among (map (λ r. (r.0, r.1.now)) kinds.now) text.now }
{
    for (kind, word) in kinds {
        if let Some(rest) = strip_word(text, word) {
            return Some((*kind, rest));
        }
    }
    None
}

/// The kind of a line, and the text after its word. What comes most often stands first.
#[tactic(auto, unfolding(crate::specs::LineKinds::kind_at))]
pub fn kind_of(text: &[u8]) -> Option<(Kind, &[u8])>
    ensures { option_map (λ p. (p.0, p.1.now)) result ≡ kind_at text.now }
{
    let kinds: [(Kind, &[u8]); 26] = [
        (Kind::Turn, b"turn "),
        (Kind::Until, b"until "),
        (Kind::Send, b"send "),
        (Kind::Row, b"row "),
        (Kind::Variable, b"var "),
        (Kind::HostListed, b"host list ok "),
        (Kind::HostAdd, b"host add "),
        (Kind::HostDel, b"host del "),
        (Kind::HookStarted, b"hook start "),
        (Kind::HookPolled, b"hook poll "),
        (Kind::HookDropped, b"hook drop "),
        (Kind::HookAbandoned, b"hook abandon "),
        (Kind::Wrote, b"store write "),
        (Kind::Synced, b"store sync "),
        (Kind::Renamed, b"store rename "),
        (Kind::Removed, b"store remove "),
        (Kind::Settled, b"store settle "),
        (Kind::Read, b"store read "),
        (Kind::Asides, b"store list ok"),
        (Kind::AsidesFailed, b"store list failed"),
        (Kind::HostListFailed, b"host list failed"),
        (Kind::Hold, b"hold "),
        (Kind::EndOfLife, b"end"),
        (Kind::Life, b"life "),
        (Kind::Start, b"start "),
        (Kind::Interface, b"if "),
    ];
    kind_among(&kinds, text)
}
