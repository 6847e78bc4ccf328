//! What a node puts out, as items and frames.

ghost use Rattle.std.specs.Prelude.{◌≡◌, ◌≤◌, ◌-◌, ◌++◌, false, IfOk, OnOk, length, option_to_list, take};
ghost use Rattle.std.specs.List.{flat_map};
ghost use Rattle.node_laws.specs.site_node.Node.{node_places};
ghost use Rattle.world_log.specs.Growing.{frame_from, frame_over, frames_at, item_from, item_over, items_at};

use link::{PortSent, Sent};
use node_laws::SiteNode;
use npdu::{Mac, Station};
use std::alloc::{AllocError, Allocator};
use tags::Items;
use traffic::{FramePut, Item, RecentItems};

/// Returns what goes out from an address of BACnet/IP, as an item.
fn item<A: Allocator>(sent: Sent<A>, net: u16, from: Mac, now: u64) -> Item<A>
    ensures { result ≡ record {
      net = net;
      from = from;
      to = sent.to;
      octets = sent.octets;
      stamp = sent.stamp;
      put_out = now;
      is_delivered = false;
    } }
{
    Item {
        net,
        from,
        to: sent.to,
        octets: sent.octets,
        stamp: sent.stamp,
        put_out: now,
        is_delivered: false,
    }
}

/// Appends what goes out at a place, where there is one: an item, or a frame behind the items from the number `first`
/// on.
#[tactic(auto, using(crate::proofs::PutLaws::put_rules))]
fn put<A: Allocator + Copy>(
    items: &mut RecentItems<A>,
    frames: &mut Vec<FramePut<A>, A>,
    first: usize,
    place: Option<Station>,
    sent: Sent<A>,
    now: u64,
) -> Result<(), AllocError>
    requires { first ≤ length items.old.items }
    ensures items { OnOk result (items.new.items ≡ items.old.items
        ++ flat_map (λ x. item_from now x.net x.mac sent) (option_to_list place)) }
    ensures frames { OnOk result (frames.new.items ≡ frames.old.items
        ++ flat_map (λ x. frame_from (length items.old.items - first) x.net x.mac sent) (option_to_list place)) }
    ensures first { items.new.first ≡ items.old.first }
    ensures on { take (length items.old.items) items.new.items ≡ items.old.items }
{
    let Some(place) = place else {
        return Ok(());
    };
    match place.mac {
        Mac::Six(_) => items.push(item(sent, place.net, place.mac, now))?,
        Mac::One(sender) => frames.push(FramePut {
            net: place.net,
            sender,
            octets: sent.octets,
            stamp: sent.stamp,
            behind: (items.len() - first) as u64,
        })?,
    }
    Ok(())
}

/// Appends what goes out over a port of a node, where it has such a port.
fn put_over<A: Allocator + Copy>(
    items: &mut RecentItems<A>,
    frames: &mut Vec<FramePut<A>, A>,
    first: usize,
    node: &SiteNode<A>,
    sent: PortSent<A>,
    now: u64,
) -> Result<(), AllocError>
    requires { first ≤ length items.old.items }
    ensures items { OnOk result (items.new.items ≡ items.old.items ++ item_over now (node_places node.now) sent) }
    ensures frames { OnOk result (frames.new.items ≡ frames.old.items
        ++ frame_over (length items.old.items - first) (node_places node.now) sent) }
    ensures first { items.new.first ≡ items.old.first }
    ensures on { take (length items.old.items) items.new.items ≡ items.old.items }
{
    let place = node.place(sent.port);
    put(items, frames, first, place, sent.sent, now)?;
    Ok(())
}

/// Appends the items that a node puts out at the moment `now`, in milliseconds, in order, and returns the frames.
///
/// # Errors
/// Want of memory. Some may then be appended.
pub(crate) fn put_out<A: Allocator + Copy>(
    alloc: A,
    items: &mut RecentItems<A>,
    node: &SiteNode<A>,
    all: Items<PortSent<A>, A>,
    now: u64,
) -> Result<Vec<FramePut<A>, A>, AllocError>
    ensures items { OnOk result (items.new.items ≡ items.old.items ++ items_at now (node_places node.now) all) }
    ensures frames { IfOk result (λ frames. frames.items ≡ frames_at (node_places node.now) all) }
    ensures first { items.new.first ≡ items.old.first }
    ensures on { take (length items.old.items) items.new.items ≡ items.old.items }
{
    let first = items.len();
    let mut frames = Vec::new(alloc);
    for sent in all.into_vec() {
        put_over(items, &mut frames, first, node, sent, now)?;
    }
    Ok(frames)
}
