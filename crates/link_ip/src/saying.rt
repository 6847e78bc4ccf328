//! The datagrams that a port puts out.

ghost use Rattle.std.specs.Prelude.{◌≡◌, ◌<◌, ◌^◌, ◌++◌, ◌∷◌, [], IfOk, IfErr, OnOk, OnErr, map};
ghost use Rattle.bvll.specs.Datagram.{broadcast, datagram_of, whole_length};
ghost use Rattle.carry.specs.Datagrams.{mac_at};
ghost use Rattle.link.specs.Step.{PutsOver, over_port};
ghost use Rattle.link_ip.specs.Saying.{sent};

use crate::port::{IpPort, Reach};
use bvll::{Address, Bvll};
use link::{PortSent, Sent, is_target};
use npdu::{Mac, Parcel, Target};
use std::alloc::Allocator;
use tags::{Fault, Items, Octets};

/// A datagram to an address, said at a moment.
fn sent<A: Allocator + Copy>(
    alloc: A,
    to: Mac,
    what: &Bvll<'_>,
    stamp: u64,
) -> Result<Sent<A>, Fault>
    requires { whole_length (datagram_of what.now) < 2 ^ 16 }
    ensures sent { IfOk result (λ s. s ≡ sent to (datagram_of what.now) stamp) }
    ensures memory { IfErr result (λ fault. fault ≡ Fault.Memory) }
{
    let mut octets = Vec::new(alloc);
    octets.reserve(usize::from(what.whole_length().unwrap()))?;
    what.write(&mut octets)?;
    Ok(Sent {
        to,
        octets: Octets::from_vec(octets),
        stamp,
    })
}

/// Puts a datagram to an address behind others, over the port of this number.
#[tactic(auto, using(crate::proofs::Sending::put_rules))]
fn put<A: Allocator + Copy>(
    alloc: A,
    to: Mac,
    what: &Bvll<'_>,
    stamp: u64,
    port: usize,
    out: &mut Items<PortSent<A>, A>,
) -> Result<(), Fault>
    requires fits { whole_length (datagram_of what.now) < 2 ^ 16 }
    ensures put { OnOk result (out.new ≡ out.old ++ over_port port (sent to (datagram_of what.now) stamp ∷ [])) }
    ensures unchanged { OnErr result (out.new ≡ out.old) }
    ensures over { PutsOver port out.old out.new }
    ensures memory { IfErr result (λ fault. fault ≡ Fault.Memory) }
{
    let sent = sent(alloc, to, what, stamp)?;
    out.push(PortSent { port, sent })?;
    Ok(())
}

/// Puts a datagram to a station of BACnet/IP behind others, over the port of this number.
fn put_at<A: Allocator + Copy>(
    alloc: A,
    to: Address,
    what: &Bvll<'_>,
    stamp: u64,
    port: usize,
    out: &mut Items<PortSent<A>, A>,
) -> Result<(), Fault>
    requires fits { whole_length (datagram_of what.now) < 2 ^ 16 }
    ensures put { OnOk result (out.new ≡ out.old
        ++ over_port port (sent (mac_at to) (datagram_of what.now) stamp ∷ [])) }
    ensures unchanged { OnErr result (out.new ≡ out.old) }
    ensures over { PutsOver port out.old out.new }
    ensures memory { IfErr result (λ fault. fault ≡ Fault.Memory) }
{
    put(alloc, Mac::Six(to.to_octets()), what, stamp, port, out)
}

/// Puts an Original-Broadcast-NPDU to each of these behind others, in order (J.4.5).
#[tactic(auto, using(crate::proofs::Sending::put_rules))]
fn put_each<A: Allocator + Copy>(
    alloc: A,
    others: &[Address],
    npdu: &[u8],
    stamp: u64,
    port: usize,
    out: &mut Items<PortSent<A>, A>,
) -> Result<(), Fault>
    requires fits { whole_length (broadcast npdu.now) < 2 ^ 16 }
    ensures put { OnOk result (out.new ≡ out.old
        ++ over_port port (map (λ other. sent (mac_at other) (broadcast npdu.now) stamp) others.now)) }
    ensures over { PutsOver port out.old out.new }
    ensures memory { IfErr result (λ fault. fault ≡ Fault.Memory) }
{
    let what = Bvll::OriginalBroadcastNpdu(npdu);
    let mut left = others;
    while let [other, rest @ ..] = left {
        put_at(alloc, *other, &what, stamp, port, out)?;
        left = rest;
    }
    Ok(())
}

impl<A: Allocator + Copy> IpPort<A> {
    ghost use Rattle.std.specs.Prelude.{◌≡◌, ◌≤◌, ◌++◌, OnOk, OnErr, IfErr, length};
    ghost use Rattle.link.specs.Limits.{max_npdu_at};
    ghost use Rattle.link.specs.Step.{PutsOver, over_port};
    ghost use Rattle.link_ip.specs.Port.{station_of};
    ghost use Rattle.link_ip.specs.Saying as spec;

    /// Puts the datagrams of a parcel behind others, where it is from here and for an address of BACnet/IP, or for all.
    #[tactic(auto, using(crate::proofs::Sending::put_rules))]
    pub(crate) fn put_out(
        &self,
        parcel: &Parcel<A>,
        port: usize,
        out: &mut Items<PortSent<A>, A>,
    ) -> Result<(), Fault>
        requires fits { length parcel.now.npdu ≤ max_npdu_at (station_of self.now).mac }
        ensures put { OnOk result (out.new ≡ out.old ++ over_port port (spec.says self.now parcel.now)) }
        ensures over { PutsOver port out.old out.new }
        ensures memory { IfErr result (λ fault. fault ≡ Fault.Memory) }
    {
        if !self.is_taken(parcel) {
            return Ok(());
        }
        self.put_datagrams(parcel, port, out)
    }

    /// Whether a parcel is from here and for an address of BACnet/IP, or for all.
    fn is_taken(&self, parcel: &Parcel<A>) -> bool
        ensures { result ≡ spec.is_taken self.now parcel.now }
    {
        let own = self.station().mac;
        parcel.from == own && is_target(own, parcel.to)
    }

    /// Puts the datagrams of a parcel behind others.
    fn put_datagrams(
        &self,
        parcel: &Parcel<A>,
        port: usize,
        out: &mut Items<PortSent<A>, A>,
    ) -> Result<(), Fault>
        requires fits { length parcel.now.npdu ≤ max_npdu_at (station_of self.now).mac }
        ensures put { OnOk result (out.new ≡ out.old
            ++ over_port port (spec.datagrams self.now.reach parcel.now.to parcel.now)) }
        ensures over { PutsOver port out.old out.new }
        ensures memory { IfErr result (λ fault. fault ≡ Fault.Memory) }
    {
        let npdu = parcel.npdu.as_slice();
        let stamp = parcel.stamp;
        match (parcel.to, &self.reach) {
            (Target::One(to), _) => {
                put(
                    self.alloc,
                    to,
                    &Bvll::OriginalUnicastNpdu(npdu),
                    stamp,
                    port,
                    out,
                )
            }
            (Target::All, Reach::Members(others)) => {
                put_each(self.alloc, others.as_slice(), npdu, stamp, port, out)
            }
            (Target::All, Reach::Foreign { manager, .. }) => {
                let what = Bvll::DistributeBroadcastToNetwork(npdu);
                put_at(self.alloc, *manager, &what, stamp, port, out)
            }
        }
    }

    /// Puts the registration of a foreign device behind others (J.5.2).
    pub(crate) fn put_registration(
        &self,
        port: usize,
        now: u64,
        out: &mut Items<PortSent<A>, A>,
    ) -> Result<(), Fault>
        ensures put { OnOk result (out.new ≡ out.old ++ over_port port (spec.registration self.now.reach now)) }
        ensures unchanged { OnErr result (out.new ≡ out.old) }
        ensures memory { IfErr result (λ fault. fault ≡ Fault.Memory) }
    {
        match &self.reach {
            Reach::Members(_) => Ok(()),
            Reach::Foreign {
                manager,
                seconds_to_live,
            } => {
                let what = Bvll::RegisterForeignDevice {
                    seconds_to_live: *seconds_to_live,
                };
                put_at(self.alloc, *manager, &what, now, port, out)
            }
        }
    }
}
