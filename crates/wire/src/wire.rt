//! What a wire is.

ghost use Rattle.std.specs.Prelude.{◌≡◌, ◌↔◌, ℕ, None, Option, IfOk, IfErr, OnOk, OnErr, IsTrue, is_some, option_map};
ghost use Rattle.wire.specs.Counts.{raised};
ghost use Rattle.wire.specs.Datagrams.{Datagram, IsWhole, datagram_of};

use npdu::Mac;
use profile::MAX_DATAGRAM_OCTETS;
use tags::Fault;

/// A datagram that came, as a wire lends it.
#[derive(Clone, Copy, Debug, PartialEq, Eq)]
pub struct Got<'a> {
    /// The address that sent it.
    pub from: Mac,
    /// The address of this wire that it came to.
    pub to: Mac,
    pub octets: &'a [u8],
}

impl Got<'_> {
    /// Whether it came whole: one that fills the buffer may have been cut.
    pub fn is_whole(&self) -> bool
        ensures { IsTrue result ↔ IsWhole (datagram_of self.now) }
    {
        self.octets.len() < MAX_DATAGRAM_OCTETS
    }
}

/// What sends and receives datagrams, and counts what it did. A count stays at 2^64 - 1.
pub trait Wire {
    ghost faults: { Self → ℕ };

    ghost sends: { Self → ℕ };

    ghost recvs: { Self → ℕ };

    ghost latest: { Self → Option Datagram };

    /// Sends a datagram. What came last stays.
    ///
    /// # Errors
    /// `Wire` where it failed, which counts as a fault.
    fn send(&mut self, from: Mac, to: Mac, octets: &[u8]) -> Result<(), Fault>
        ensures sends { sends self.new ≡ raised (sends self.old) 1 }
        ensures recvs { recvs self.new ≡ recvs self.old }
        ensures latest { latest self.new ≡ latest self.old }
        ensures sound { OnOk result (faults self.new ≡ faults self.old) }
        ensures failed { OnErr result (faults self.new ≡ raised (faults self.old) 1) }
        ensures cause { IfErr result (λ fault. fault ≡ Fault.Wire) };

    /// Receives at most one datagram, and tells whether one came. It never waits.
    ///
    /// # Errors
    /// `Wire` where it failed, which counts as a fault.
    fn recv(&mut self) -> Result<bool, Fault>
        ensures sends { sends self.new ≡ sends self.old }
        ensures recvs { recvs self.new ≡ raised (recvs self.old) 1 }
        ensures came { IfOk result (λ came. came ≡ is_some (latest self.new)) }
        ensures none { OnErr result (latest self.new ≡ None) }
        ensures sound { OnOk result (faults self.new ≡ faults self.old) }
        ensures failed { OnErr result (faults self.new ≡ raised (faults self.old) 1) }
        ensures cause { IfErr result (λ fault. fault ≡ Fault.Wire) };

    /// Lets time pass, until a datagram may be there, and at most so many milliseconds. It may return at once.
    fn wait(&mut self, at_most_ms: u64)
        ensures sends { sends self.new ≡ sends self.old }
        ensures recvs { recvs self.new ≡ recvs self.old }
        ensures faults { faults self.new ≡ faults self.old }
        ensures latest { latest self.new ≡ latest self.old };

    /// What the latest `recv` brought: none where it brought nothing or failed.
    fn last(&self) -> Option<Got<'_>>
        ensures { option_map datagram_of result ≡ latest self.now };

    /// How often a call failed.
    fn faults(&self) -> u64
        ensures { result ≡ faults self.now };

    /// How often `send` was called.
    fn sends(&self) -> u64
        ensures { result ≡ sends self.now };

    /// How often `recv` was called.
    fn recvs(&self) -> u64
        ensures { result ≡ recvs self.now };
}
