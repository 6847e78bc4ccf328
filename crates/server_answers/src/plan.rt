//! What is planned for an input, before anything changes.

ghost use Rattle.std.specs.Prelude.{◌≡◌, option_copied};
ghost use Rattle.server_answers.specs.Answering.{answer_if_whole, whole_answers};

use crate::asked::Asked;
use crate::said::ServerSaid;
use apdu::Segment;
use npdu::Way;
use primitives::{Reply, Request};
use remembered::{Asker, Record};
use segments::Sender;
use std::alloc::{AllocError, Allocator};
use std::marker::Model;
use tags::{Items, Octets};

/// Who asked, the request, and what the objects reply to it.
#[derive(Drop)]
struct ExecutedRequest<A: Allocator> {
    asker: Asker,
    request: Request<A>,
    reply: Reply<A>,
}

/// A request that is executed, in memory of its own: what is told of it is handed on cheaply.
#[derive(Drop)]
pub struct Executed<A: Allocator> {
    held: Box<ExecutedRequest<A>, A>,
}

impl<A: Allocator> Model for Executed<A> {
    ghost use Rattle.server_answers.specs.Executed as spec;

    ghost Value = { spec.Executed A };

    ghost view = { λ s. record {
      asker = s.held.value.asker;
      request = s.held.value.request;
      reply = s.held.value.reply;
    } };
}

impl<A: Allocator> Executed<A> {
    ghost use Rattle.std.specs.Prelude.{◌≡◌, IfOk};

    /// Returns a request of this asker that is executed with this reply.
    ///
    /// # Errors
    /// Want of memory.
    pub fn new(
        alloc: A,
        asker: Asker,
        request: Request<A>,
        reply: Reply<A>,
    ) -> Result<Self, AllocError>
        ensures { IfOk result (λ executed.
            executed ≡ record { asker = asker; request = request; reply = reply }) }
    {
        Ok(Executed {
            held: Box::new(
                alloc,
                ExecutedRequest {
                    asker,
                    request,
                    reply,
                },
            )?,
        })
    }

    /// Returns who asked.
    pub fn asker(&self) -> Asker
        ensures { result ≡ self.now.asker }
    {
        self.held.asker
    }

    /// Returns the request.
    pub fn request(&self) -> &Request<A>
        ensures { result.now ≡ self.now.request }
    {
        &self.held.request
    }

    /// Returns what the objects reply to it.
    pub fn reply(&self) -> &Reply<A>
        ensures { result.now ≡ self.now.reply }
    {
        &self.held.reply
    }

    /// Returns what the objects reply to it, to be kept.
    pub fn into_reply(self) -> Reply<A>
        ensures { result ≡ self.reply }
    {
        Box::into_inner(self.held).reply
    }
}

/// How the answer to an asker is said.
#[derive(Clone, Copy)]
pub struct Saying {
    /// Who asked.
    pub asker: Asker,
    /// Where it goes.
    pub way: Way,
    /// What goes on sending it, if anything does.
    pub sending: Option<Sender>,
}

/// What is to change of a server where nothing is executed.
#[derive(Drop)]
pub enum QuietChange<A: Allocator> {
    /// Nothing.
    Stays,
    /// An answer is said so.
    Says(Saying),
    /// A segment with these octets joins what came of a request, of who asks so.
    Gathers(Asked, Segment, Octets<A>),
    /// What came of a request of this asker is given up.
    GivesUp(Asker),
    /// The server wakes: what is too old is forgotten, and answers are said so.
    Wakes(Items<Saying, A>),
}

/// What is planned for an input that comes to something.
#[derive(Drop)]
pub enum Planned<A: Allocator> {
    /// This is said and changes, and nothing is executed.
    Changes(Items<ServerSaid<A>, A>, QuietChange<A>),
    /// This is said first, a request is executed, and this remembered of it. Where its answer goes whole, it is said
    /// from there, behind all else.
    Executes(Items<ServerSaid<A>, A>, Executed<A>, Record<A>),
}

/// What is said and executed of an input, and what it changes. What is planned is large, and so lies in memory of its
/// own: the calls that plan hand it on.
#[derive(Drop)]
pub struct ServerPlan<A: Allocator> {
    held: Option<Box<Planned<A>, A>>,
}

impl<A: Allocator> Model for ServerPlan<A> {
    ghost use Rattle.std.specs.Prelude.{option_map};
    ghost use Rattle.server_answers.specs.Plan.{ServerPlan, plan_of};

    ghost Value = { ServerPlan A };

    ghost view = { λ p. plan_of (option_map (λ planned. planned.value) p.held) };
}

/// What a plan says, in order.
#[derive(Drop)]
pub struct ServerPlanSaid<'a, A: Allocator> {
    /// What is said first.
    pub listed: &'a [ServerSaid<A>],
    /// What is remembered of an answer that is said whole behind it.
    pub whole: Option<&'a Record<A>>,
}

/// What is remembered of an answer, where it goes whole.
fn if_whole<A: Allocator>(entry: &Record<A>) -> Option<&Record<A>>
    ensures { whole_answers (option_copied result) ≡ answer_if_whole entry.now.sending entry.now }
{
    match entry.sending {
        None => Some(entry),
        Some(_) => None,
    }
}

impl<A: Allocator> ServerPlan<A> {
    ghost use Rattle.std.specs.Prelude.{◌≡◌, ◌++◌, Some, None, IfOk, option_copied};
    ghost use Rattle.server_answers.specs.Answering.{answer_if_whole, whole_answers};
    ghost use Rattle.server_answers.specs.Plan.{Stays, Executes, change_of, plan_of, quiet};

    /// Nothing is said, executed or changed. It takes no memory.
    pub fn nothing() -> Self
        ensures { result ≡ quiet Stays }
    {
        ServerPlan { held: None }
    }

    /// This is said and changes, and nothing is executed.
    ///
    /// # Errors
    /// Want of memory.
    pub fn changing(
        alloc: A,
        said: Items<ServerSaid<A>, A>,
        change: QuietChange<A>,
    ) -> Result<Self, AllocError>
        ensures { IfOk result (λ plan. plan ≡ record { said = said; executed = None; change = change_of change }) }
    {
        let planned = Box::new(alloc, Planned::Changes(said, change))?;
        Ok(ServerPlan {
            held: Some(planned),
        })
    }

    /// A request is executed and its answer remembered, which is said behind this where it goes whole.
    ///
    /// # Errors
    /// Want of memory.
    pub fn executing(
        alloc: A,
        said: Items<ServerSaid<A>, A>,
        executed: Executed<A>,
        entry: Record<A>,
    ) -> Result<Self, AllocError>
        ensures { IfOk result (λ plan. plan ≡ record {
          said = said ++ answer_if_whole entry.sending entry;
          executed = Some executed;
          change = Executes executed.request entry;
        }) }
    {
        let planned = Box::new(alloc, Planned::Executes(said, executed, entry))?;
        Ok(ServerPlan {
            held: Some(planned),
        })
    }

    /// What it says.
    pub fn said(&self) -> ServerPlanSaid<'_, A>
        ensures { self.now.said ≡ result.listed.now ++ whole_answers (option_copied result.whole) }
    {
        let Some(planned) = &self.held else {
            return ServerPlanSaid {
                listed: &[],
                whole: None,
            };
        };
        match &**planned {
            Planned::Changes(said, _) => ServerPlanSaid {
                listed: said.as_slice(),
                whole: None,
            },
            Planned::Executes(said, _, entry) => ServerPlanSaid {
                listed: said.as_slice(),
                whole: if_whole(entry),
            },
        }
    }

    /// What is planned, if anything is.
    pub fn into_planned(self) -> Option<Planned<A>>
        ensures { plan_of result ≡ self }
    {
        match self.held {
            None => None,
            Some(planned) => Some(Box::into_inner(planned)),
        }
    }
}

/// What comes of an input.
#[derive(Drop)]
pub struct ServerTold<A: Allocator> {
    /// What is said, in order.
    pub said: Items<ServerSaid<A>, A>,
    /// The request that was executed, if one was.
    pub executed: Option<Executed<A>>,
}

impl<A: Allocator> Model for ServerTold<A> {
    ghost use Rattle.server_answers.specs.ServerTold as spec;

    ghost Value = { spec.ServerTold A };

    ghost view = { λ s. record { said = s.said; executed = s.executed } };

    ghost inverse = { λ s. record { said = s.said; executed = s.executed } };
}
