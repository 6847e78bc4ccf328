//! What the names that don't compute stand for: a step of a transaction mentions these. A function
//! without a body is a law: its contract, for the proofs of the layers above.

ghost use Rattle.std.specs.Prelude.{◌≡◌};
ghost use Rattle.apdu.specs.Numbers.{service_number};
ghost use Rattle.answers.specs.objects.Machine.{reply, after};
ghost use Rattle.answers.specs.object_model.Objects.{PlainTable};
ghost use Rattle.primitives.specs.declared.plain_data.Request.{Request};
ghost use Rattle.services.specs.Asked.{replied, left_by, request_octets, service_asked};
ghost use Rattle.services.specs.CanonicalRequest.{canonical_request};
ghost use Rattle.services.specs.Request.{request_service};

use std::alloc::Allocator;

/// What is replied is what the object machine replies (15).
#[tactic(auto, using(crate::proofs::AskedNames::replied_is))]
pub fn replied_is_reply<A: Allocator>()
    ensures { (t : PlainTable A) (request : Request A) → replied t request ≡ reply t request }
{}

/// What is left is what the object machine leaves (15).
#[tactic(auto, using(crate::proofs::AskedNames::left_by_is))]
pub fn left_by_is_after<A: Allocator>()
    ensures { (t : PlainTable A) (request : Request A) → left_by t request ≡ after t request }
{}

/// The octets of a request are its shortest spelling (15).
#[tactic(auto, using(crate::proofs::AskedNames::request_octets_are))]
pub fn request_octets_are_canonical<A: Allocator>()
    ensures { (request : Request A) → request_octets request ≡ canonical_request request }
{}

/// The service asked is that of the request (21).
#[tactic(auto, using(crate::proofs::AskedNames::service_asked_is))]
pub fn service_asked_is_service<A: Allocator>()
    ensures { (request : Request A) → service_asked request ≡ service_number (request_service request) }
{}
