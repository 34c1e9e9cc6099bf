ghost use Rattle.std.specs.Prelude.{◌≡◌, ◌≤◌, map, length, vec_capacity};
ghost use Rattle.std.specs.List.{list_any};
ghost use Rattle.swap_lender.specs.Lender.{is_peer, is_greeted};
ghost use Rattle.swap_lender.specs.Table.{greet_peer, without_peer};

use crate::Peer;
use swap_base::Link;

/// Whether a link stands.
pub(crate) fn stands(peers: &[Peer], link: Link) -> bool
    ensures { result ≡ list_any (is_peer link) peers.now }
{
    peers.iter().any(|peer| peer.link.0 == link.0)
}

/// Whether a link has greeted.
pub(crate) fn has_greeted(peers: &[Peer], link: Link) -> bool
    ensures { result ≡ list_any (is_greeted link) peers.now }
{
    peers
        .iter()
        .any(|peer| peer.link.0 == link.0 && peer.greeted)
}

fn greeted(link: Link, peer: Peer) -> Peer
    ensures { result ≡ greet_peer link peer }
{
    if peer.link.0 == link.0 {
        Peer {
            greeted: true,
            ..peer
        }
    } else {
        peer
    }
}

/// A link has greeted.
pub(crate) fn greet(peers: &mut [Peer], link: Link)
    ensures { peers.new ≡ map (λ peer. greet_peer link peer) peers.old }
{
    for peer in peers.iter_mut() {
        *peer = greeted(link, *peer);
    }
}

/// A link is gone.
pub(crate) fn forget(peers: &mut Vec<Peer>, link: Link)
    ensures items { peers.new.items ≡ without_peer link peers.old.items }
    ensures fewer { length peers.new.items ≤ length peers.old.items }
    ensures capacity { vec_capacity peers.new ≡ vec_capacity peers.old }
{
    peers.retain(|peer| peer.link.0 != link.0);
}
