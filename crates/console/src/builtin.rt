//! The built-in device of `answer`, from octets to octets.

ghost use Rattle.std.specs.Prelude.{◌≡◌, ◌≤◌, ◌++◌, IfOk, IfErr, OnOk, OnErr, map};
ghost use Rattle.std.specs.List.{flat_map};
ghost use Rattle.console.specs.Builtin.{builtin_port, builtin_site};
ghost use Rattle.console.specs.Hearing.{Brings};
ghost use Rattle.console.specs.Respond.{Responds, SaysTo, datagrams_of};
ghost use Rattle.link_ip.specs.Port.{station_of};

use bvll::Address;
use endpoint::Device;
use link::{Change, Link, PortSent};
use link_ip::{IpPort, Reach};
use npdu::{Mac, Parcel};
use objects::{SiteObject, SiteObjects, ValueKind};
use profile::LinkKind;
use std::alloc::{AllocError, Allocator};
use std::marker::Model;
use tags::{Fault, Items, Octets, Value};

/// The built-in device: instance 99 on network 1 at 127.0.0.1:47808, with one Binary Value 1 whose
/// Relinquish_Default is active. It hears each datagram at the moment 0.
#[derive(Drop)]
pub struct Builtin<A: Allocator + Copy> {
    alloc: A,
    device: Device<A>,
    port: IpPort<A>,
}

impl<A: Allocator + Copy> Model for Builtin<A> {
    ghost use Rattle.std.specs.Prelude.{◌≡◌};
    ghost use Rattle.device.specs.Device.{DeviceState};
    ghost use Rattle.console.specs.Builtin.{builtin_address, builtin_port};

    ghost Value = { DeviceState A };

    ghost view = { λ s. s.device };

    ghost invariant = { λ s. (s.device.server.moment ≡ 0) × (s.device.mac ≡ builtin_address.mac) ×
        (s.port ≡ builtin_port) };
}

/// The address of the built-in device, on network 1.
const ADDRESS: Address = Address {
    ip: [127, 0, 0, 1],
    port: 47808,
};

/// The number of its one port.
const ITS_PORT: usize = 0;

/// The one other member of its subnet.
const OTHER: Address = Address {
    ip: [127, 0, 0, 1],
    port: 47809,
};

impl<A: Allocator + Copy> Builtin<A> {
    ghost use Rattle.std.specs.Prelude.{◌≡◌, IfOk, IfErr};
    ghost use Rattle.console.specs.Builtin.{builtin_device};

    /// The device as it opens.
    ///
    /// # Errors
    /// `Memory` alone.
    #[tactic(auto, using(crate::proofs::SiteLaws::site_rules))]
    pub fn new(alloc: A) -> Result<Self, Fault>
        ensures opened { IfOk result (λ device. device ≡ builtin_device) }
        ensures memory { IfErr result (λ fault. fault ≡ Fault.Memory) }
    {
        let port = builtin_port(alloc)?;
        let device = Device::new(alloc, builtin_site(alloc)?, port.station())?;
        Ok(Builtin {
            alloc,
            device,
            port,
        })
    }

    /// An equal device, in the same memory.
    ///
    /// # Errors
    /// Want of memory.
    pub fn copy(&self) -> Result<Self, AllocError>
        ensures { IfOk result (λ copy. copy ≡ self.now) }
    {
        Ok(Builtin {
            alloc: self.alloc,
            device: self.device.copy()?,
            port: self.port.copy()?,
        })
    }
}

/// The port of the device.
fn builtin_port<A: Allocator + Copy>(alloc: A) -> Result<IpPort<A>, AllocError>
    ensures { IfOk result (λ port. port ≡ builtin_port) }
{
    let others = Items::from_slice(alloc, &[OTHER])?;
    Ok(IpPort::new(alloc, 1, ADDRESS, Reach::Members(others)))
}

/// The device as its site has it.
fn builtin_site<A: Allocator + Copy>(alloc: A) -> Result<SiteObjects<A>, AllocError>
    ensures { IfOk result (λ site. site ≡ builtin_site) }
{
    let mut objects = Items::new(alloc);
    objects.push(SiteObject {
        kind: ValueKind::Binary,
        instance: 1,
        name: Octets::from_slice(alloc, b"BV1")?,
        default: Value::Enum(1),
        description: Octets::new(alloc),
    })?;
    Ok(SiteObjects {
        name: Octets::from_slice(alloc, b"device")?,
        instance: 99,
        vendor: 0,
        data_link: LinkKind::BacnetIp,
        objects,
    })
}

/// What the device says when it hears a datagram from a station (5.4.5, 16.10.2, J.2): an APDU whole, or the segments
/// that are due. A request that it remembers is answered again and not executed. What comes from an address of MS/TP
/// brings nothing.
///
/// # Errors
/// `Memory` alone. The device is then as it was.
pub fn respond<A: Allocator + Copy>(
    device: &mut Builtin<A>,
    from: Mac,
    datagram: &[u8],
) -> Result<Items<Octets<A>, A>, Fault>
    ensures responds { IfOk result (λ said. Responds from datagram.now device.old device.new said) }
    ensures memory { IfErr result (λ fault. fault ≡ Fault.Memory) }
    ensures unchanged { OnErr result (device.new ≡ device.old) }
{
    let Some(parcel) = handed_up(device.alloc, &device.port, from, datagram)? else {
        return Ok(Items::new(device.alloc));
    };
    let mut next = device.device.copy()?;
    let said = say_to(device.alloc, &mut next, &device.port, &parcel)?;
    device.device = next;
    Ok(said)
}

/// Returns what a datagram from a station hands up at the moment 0, if it hands anything up.
#[tactic(auto, using(crate::proofs::HearLaws::link_rules))]
fn handed_up<A: Allocator + Copy>(
    alloc: A,
    port: &IpPort<A>,
    from: Mac,
    datagram: &[u8],
) -> Result<Option<Parcel<A>>, Fault>
    requires { port.now ≡ builtin_port }
    ensures up { IfOk result (λ up. Brings (station_of (builtin_port {A = A})).mac from datagram.now up) }
    ensures memory { IfErr result (λ fault. fault ≡ Fault.Memory) }
{
    let mut change = Change::Nothing;
    let mut out = Items::new(alloc);
    match port.heard(&mut change, from, datagram, 0, ITS_PORT, 0, &mut out) {
        Ok(Some(up)) => Ok(Some(up.to_parcel(alloc)?)),
        Ok(None) => Ok(None),
        Err(Fault::Memory) => Err(Fault::Memory),
        Err(_) => Ok(None),
    }
}

/// Returns what a device says that hears a parcel, at the moment 0. After an `Err` it may have changed.
fn say_to<A: Allocator + Copy>(
    alloc: A,
    device: &mut Device<A>,
    port: &IpPort<A>,
    parcel: &Parcel<A>,
) -> Result<Items<Octets<A>, A>, Fault>
    requires order { device.old.server.moment ≤ 0 }
    requires port { port.now ≡ builtin_port }
    ensures says { IfOk result (λ said. SaysTo parcel.now device.old device.new said) }
    ensures memory { IfErr result (λ fault. fault ≡ Fault.Memory) }
{
    let told = device.on_parcel(parcel, 0)?;
    datagrams(alloc, port, told.said.as_slice())
}

/// Returns the datagrams of parcels.
fn datagrams<A: Allocator + Copy>(
    alloc: A,
    port: &IpPort<A>,
    parcels: &[Parcel<A>],
) -> Result<Items<Octets<A>, A>, Fault>
    requires { port.now ≡ builtin_port }
    ensures said { IfOk result (λ said. said ≡ flat_map datagrams_of parcels.now) }
    ensures memory { IfErr result (λ fault. fault ≡ Fault.Memory) }
{
    let mut said = Items::new(alloc);
    for parcel in parcels {
        put_down(alloc, port, parcel, &mut said)?;
    }
    Ok(said)
}

/// Appends the datagrams of a parcel: none where it is too long.
#[tactic(auto, using(crate::proofs::SayLaws::say_rules))]
fn put_down<A: Allocator + Copy>(
    alloc: A,
    port: &IpPort<A>,
    parcel: &Parcel<A>,
    said: &mut Items<Octets<A>, A>,
) -> Result<(), Fault>
    requires { port.now ≡ builtin_port }
    ensures said { OnOk result (said.new ≡ said.old ++ datagrams_of parcel.now) }
    ensures memory { IfErr result (λ fault. fault ≡ Fault.Memory) }
{
    let mut change = Change::Nothing;
    let mut out = Items::new(alloc);
    match port.down(&mut change, parcel, ITS_PORT, 0, &mut out) {
        Ok(()) => Ok(put_octets(out, said)?),
        Err(Fault::TooLong) => Ok(()),
        Err(fault) => Err(fault),
    }
}

/// Appends the octets of what is put out.
fn put_octets<A: Allocator + Copy>(
    out: Items<PortSent<A>, A>,
    said: &mut Items<Octets<A>, A>,
) -> Result<(), AllocError>
    ensures { OnOk result (said.new ≡ said.old ++ map (λ s. s.sent.octets) out) }
{
    for sent in out.into_vec() {
        said.push(sent.sent.octets)?;
    }
    Ok(())
}
