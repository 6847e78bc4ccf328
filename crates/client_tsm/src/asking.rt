//! What a client says of a request (5.4.4.1, 5.4.4.2).

ghost use Rattle.std.specs.Prelude.{◌≡◌, IfOk};
ghost use Rattle.primitives.specs.Sound.{IsSoundRequest};
ghost use Rattle.services.specs.Asked.{request_octets};

use crate::said::ClientSaid;
use crate::transaction::Transaction;
use apdu::Segment;
use primitives::Request;
use profile::WINDOW_SIZE;
use segments::{Piece, Sender};
use services::encode_request;
use std::alloc::{AllocError, Allocator};
use tags::{Items, Octets};

/// How many octets the service data of a request take at first: so they don't grow for a short one.
const SHORT_REQUEST: usize = 32;

/// The octets behind the service of a request.
#[tactic(auto, using(crate::proofs::Names::asked_octets))]
pub(crate) fn octets_of<A: Allocator + Copy>(
    alloc: A,
    request: &Request<A>,
) -> Result<Octets<A>, AllocError>
    requires { IsSoundRequest request.now }
    ensures { IfOk result (λ octets. octets ≡ request_octets request.now) }
{
    let mut out = Vec::with_capacity(alloc, SHORT_REQUEST)?;
    if encode_request(request, &mut out).is_err() {
        return Err(AllocError);
    }
    Ok(Octets::from_vec(out))
}

impl<A: Allocator + Copy> Transaction<A> {
    ghost use Rattle.std.specs.Prelude.{◌≡◌, ◌++◌, ◌∷◌, [], IfOk, OnOk};
    ghost use Rattle.segments.specs.Pieces.{piece_of};
    ghost use Rattle.client_tsm.specs.Asking.{asked_by, piece_said, request_said};

    /// Its request, or a segment of it with these octets.
    fn request_said(
        &self,
        alloc: A,
        segment: Option<Segment>,
        octets: &[u8],
    ) -> Result<ClientSaid<A>, AllocError>
        ensures { IfOk result (λ said. said ≡ request_said segment octets.now self.now) }
    {
        Ok(ClientSaid::Request {
            way: self.way,
            accepts: self.accepts,
            segment,
            invoke_id: self.invoke_id,
            service: self.service(),
            data: Octets::from_slice(alloc, octets)?,
        })
    }

    /// A piece of its request, in a segment.
    fn piece_said(&self, alloc: A, piece: &Piece<'_>) -> Result<ClientSaid<A>, AllocError>
        ensures { IfOk result (λ said. said ≡ piece_said self.now (piece_of piece.now)) }
    {
        let segment = Segment {
            more_follows: piece.has_more,
            sequence_number: piece.number,
            window: WINDOW_SIZE,
        };
        self.request_said(alloc, Some(segment), piece.octets)
    }

    /// Appends its request whole, or the window of what goes on sending it.
    pub(crate) fn ask(
        &self,
        alloc: A,
        sending: Option<Sender>,
        said: &mut Items<ClientSaid<A>, A>,
    ) -> Result<(), AllocError>
        ensures { OnOk result (said.new ≡ said.old ++ asked_by sending self.now) }
    {
        let Some(sender) = sending else {
            return said.push(self.request_said(alloc, None, self.body.as_slice())?);
        };
        for piece in sender.window(self.body.as_slice()) {
            said.push(self.piece_said(alloc, &piece)?)?;
        }
        Ok(())
    }
}
