//! What holds of every spelling of a request (15, 18.9). A function without a body is a law: its
//! contract, for the proofs of the layers above.

ghost use Rattle.services.specs.RequestLaws.{OneRequest, RequestIsSpelled, RequestReadsBack, RejectedIsNone};
ghost use Rattle.services.specs.RequestLaws.{RejectedOnce, RequestIsShortest};

use std::alloc::Allocator;

/// A service and the octets behind it spell one request only.
#[tactic(auto, using(crate::proofs::OneRequest::one_request))]
pub fn one_request<A: Allocator>()
    ensures { OneRequest A }
{}

/// The canonical octets of a sound request spell it.
#[tactic(auto, using(crate::proofs::CanonicalBody::request_spelled))]
pub fn request_is_spelled<A: Allocator>()
    ensures { RequestIsSpelled A }
{}

/// What is written of a sound request is read as that request.
#[tactic(auto, using(crate::proofs::CanonicalBody::request_reads_back))]
pub fn request_reads_back<A: Allocator>()
    ensures { RequestReadsBack A }
{}

/// What is rejected spells no request.
pub fn rejected_is_none<A: Allocator>()
    ensures { RejectedIsNone A }
{}

/// What is rejected is rejected for one reason.
pub fn rejected_once<A: Allocator>()
    ensures { RejectedOnce A }
{}

/// No octets that spell a request are fewer than its canonical ones.
pub fn request_is_shortest<A: Allocator>()
    ensures { RequestIsShortest A }
{}
