//! What a body has one after another: references, writes and results.

ghost use Rattle.std.specs.Prelude.{◌≡◌, ◌++◌, OnOk, OnErr, IfErr};
ghost use Rattle.std.specs.List.{AllByRecursion};
ghost use Rattle.tags.specs.Canonical.{Extends};
ghost use Rattle.services.specs.CanonicalRequest.{in_turn};

use std::alloc::Allocator;
use tags::Fault;

/// A part of a body, with octets of its own.
pub(crate) trait Spelled {
    ghost use Rattle.std.specs.Prelude.{◌≡◌, ◌++◌, ℕ, List, OnOk, OnErr, IfErr};
    ghost use Rattle.tags.specs.Canonical.{Extends};

    ghost IsSound: { Self → Type 0 };

    ghost octets: { Self → List ℕ };

    /// Appends its octets in their shortest form.
    ///
    /// # Errors
    /// `Memory` alone. Some of its octets may then stand in the buffer.
    fn put<B: Allocator>(&self, out: &mut Vec<u8, B>) -> Result<(), Fault>
        requires { IsSound self.now }
        ensures put { OnOk result (out.new.items ≡ out.old.items ++ octets self.now) }
        ensures memory { IfErr result (λ fault. fault ≡ Fault.Memory) }
        ensures err { OnErr result (Extends out.old.items out.new.items) };
}

/// Appends parts one after another.
#[tactic(auto, using(crate::proofs::RequestOctets::extends_laws))]
pub(crate) fn put_each<P: Spelled, B: Allocator>(
    parts: &[P],
    out: &mut Vec<u8, B>,
) -> Result<(), Fault>
    requires { AllByRecursion P.IsSound parts.now }
    ensures put { OnOk result (out.new.items ≡ out.old.items ++ in_turn P.octets parts.now) }
    ensures memory { IfErr result (λ fault. fault ≡ Fault.Memory) }
    ensures err { OnErr result (Extends out.old.items out.new.items) }
{
    for part in parts {
        part.put(out)?;
    }
    Ok(())
}
