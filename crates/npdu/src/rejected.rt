//! What a Reject-Message-To-Network says.

ghost use Rattle.std.specs.Prelude.{◌≡◌, ◌++◌, ◌≤◌, IfSome, IfNone, IfErr, OnOk, OnErr};
ghost use Rattle.npdu.specs.Rejected.{NoRejected, OnlyRejected, SpellsRejected, rejected_octets};

use crate::message::NetworkRejectReason;
use byteorder::{BigEndian, ByteOrder};
use std::alloc::{AllocError, Allocator};

/// The contents of a Reject-Message-To-Network (6.4.4).
#[derive(Clone, Copy, Debug, PartialEq, Eq)]
pub struct Rejected {
    /// Why a message was not passed on.
    pub reason: NetworkRejectReason,
    /// The number of the network that it was for, or, where its type was not known, of the one that it was heard
    /// on: 0..=65535.
    pub net: u16,
}

impl Rejected {
    /// What the contents say. `None` for a reason that this product doesn't have, and for other than three octets.
    #[tactic(auto, using(crate::proofs::RejectedLaws::rejected_rules))]
    pub fn read(contents: &[u8]) -> Option<Rejected>
        ensures read { IfSome result (SpellsRejected contents.now) }
        ensures only { IfSome result (OnlyRejected contents.now) }
        ensures refused { IfNone result (NoRejected contents.now) }
    {
        let [reason, high, low] = contents else {
            return None;
        };
        let Ok(reason) = NetworkRejectReason::try_from(*reason) else {
            return None;
        };
        Some(Rejected {
            reason,
            net: BigEndian::read_u16(&[*high, *low]),
        })
    }

    /// Appends the contents: three octets.
    ///
    /// # Errors
    /// Want of memory. The buffer is then as it was.
    pub fn write<B: Allocator>(&self, out: &mut Vec<u8, B>) -> Result<(), AllocError>
        ensures written { OnOk result (out.new.items ≡ out.old.items ++ rejected_octets self.now) }
        ensures unchanged { OnErr result (out.new.items ≡ out.old.items) }
    {
        let mut net = [0u8; 2];
        BigEndian::write_u16(&mut net, self.net);
        out.reserve(3)?;
        out.push(u8::from(self.reason))?;
        out.extend_from_slice(&net)
    }
}
