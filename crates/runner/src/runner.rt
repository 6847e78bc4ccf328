//! What a runner keeps, and its turn.

use crate::seeking::{are_late_before, last_match};
use crate::sending::send_all;
use crate::straying::take_stray;
use crate::turned::Turned;
use senders::Senders;
use simulator::{Event, Internetwork, World, WorldEntry};
use std::alloc::{AllocError, Allocator};
use std::marker::Model;
use tags::Fault;
use wire::{Got, Wire};

/// A site at a wire. What it keeps is kept of a world, with all its past, which came about from the site's opening by
/// events alone, as long as no datagram was heard that nobody of the site sent.
#[derive(Drop)]
pub struct Runner<A: Allocator + Copy> {
    world: Internetwork<A>,
    /// Who sent the items of the world, as far as it was seen: a stranger's datagram isn't sought among them.
    senders: Senders<A>,
    is_open: bool,
    strayed: bool,
    is_led: bool,
    /// Nothing was handed out or forgotten so far.
    is_whole: bool,
}

impl<A: Allocator + Copy> Model for Runner<A> {
    ghost use Rattle.std.specs.Prelude.{◌≡◌, true, drop};
    ghost use Rattle.runner.specs.Runner.{RunnerState};
    ghost use Rattle.senders.specs.Senders.{AreKnown, senders_of};
    ghost use Rattle.simulator.specs.Laws.{IsLed};
    ghost use Rattle.world_kept.specs.Kept.{IsKept};

    ghost Value = { RunnerState A };

    ghost view = { λ r. record {
      world = r.world;
      is_open = r.is_open;
      strayed = r.strayed;
      is_led = r.is_led;
      is_whole = r.is_whole;
    } };

    ghost invariant = { λ r. (r.is_led ≡ true → IsKept r.world)
        × (r.is_led ≡ true → r.is_whole ≡ true → IsLed r.world)
        × AreKnown r.senders (senders_of (drop r.world.first_item r.world.items)) };
}

impl<A: Allocator + Copy> Runner<A> {
    ghost use Rattle.std.specs.Prelude.{◌≡◌, ◌≢◌, true, false, Some, None, IfErr, IfNone, IfOk, IfSome, OnErr, OnOk};
    ghost use Rattle.std.specs.Prelude.{◌++◌};
    ghost use Rattle.simulator.specs.Judged.{instances_of, judged_of};
    ghost use Rattle.simulator.specs.Laws.{IsLed};
    ghost use Rattle.simulator.specs.carry_world.Laws.{IsLegal};
    ghost use Rattle.simulator.specs.world.Keeping.{Forgets, handed_out};
    ghost use Rattle.simulator.specs.world.Refusals.{IsRefused};
    ghost use Rattle.simulator.specs.world.Step.{IsSoundEvent, IsSoundIfAny};
    ghost use Rattle.runner.specs.Runner.{put_out};
    ghost use Rattle.runner.specs.Seeking.{IsLastMatch, IsStray};
    ghost use Rattle.runner.specs.Strays.{IsRefusedStray, TakesStray};
    ghost use Rattle.runner.specs.Turns.{HasMade, HasTurned, IsTurn, IsUndone, Refuses, received};
    ghost use Rattle.wire.specs.Counts.{IsRisen, raised};
    ghost use Rattle.wire.specs.Datagrams.{datagram_of};
    ghost use Rattle.world_kept.specs.Kept.{EndsLegal, IsKept};

    /// A world at a wire. An open runner lets a station hear what comes to its address and nobody of the site sent.
    #[tactic(auto, using(crate::proofs::SenderLaws::none_seen))]
    pub fn new(world: World<A>, is_open: bool) -> Self
        ensures begun { result ≡
            record { world = world; is_open = is_open; strayed = false; is_led = true; is_whole = true } }
        ensures led { IsLed world }
    {
        let world = world.into_internetwork();
        let senders = Senders::new(world.alloc());
        Runner {
            world,
            senders,
            is_open,
            strayed: false,
            is_led: true,
            is_whole: true,
        }
    }

    /// The site's stations, what is on its way between them, and what happened: what events led to, as long as no stray
    /// was heard, and nothing handed out or forgotten; and always what is kept of that, as long as no stray was heard.
    pub fn world(&self) -> &Internetwork<A>
        ensures world { result.now ≡ self.now.world }
        ensures led { self.now.is_led ≡ true → self.now.is_whole ≡ true → IsLed result.now }
        ensures kept { self.now.is_led ≡ true → IsKept result.now }
    {
        &self.world
    }

    /// What was issued, executed, answered and ended, in order, and wasn't handed out. As long as no stray was heard it
    /// is legal where nothing was, and else the end of a legal history.
    pub fn history(&self) -> &[WorldEntry<A>]
        ensures history { result.now ≡ self.now.world.history }
        ensures whole { self.now.is_led ≡ true → self.now.is_whole ≡ true →
            IsLegal (instances_of self.now.world.site) result.now (judged_of self.now.world) }
        ensures legal { self.now.is_led ≡ true → self.now.world.first_entry ≡ 0 →
            IsLegal (instances_of self.now.world.site) result.now (judged_of self.now.world) }
        ensures ends { self.now.is_led ≡ true → EndsLegal result.now self.now.world }
    {
        self.world.history()
    }

    /// Lets go of a site at a wire. Whoever calls it, and drops none, need not prove anew how all its parts are let go.
    pub fn close(self) {
        self.world.close()
    }

    /// Whether the latest turn had a stray that was heard, also where a sending failed then.
    pub fn strayed(&self) -> bool
        ensures { result ≡ self.now.strayed }
    {
        self.strayed
    }

    /// Whether no stray was heard so far.
    pub fn is_led(&self) -> bool
        ensures { result ≡ self.now.is_led }
    {
        self.is_led
    }

    /// Whether nothing was handed out or forgotten so far.
    pub fn is_whole(&self) -> bool
        ensures { result ≡ self.now.is_whole }
    {
        self.is_whole
    }

    /// Hands out all entries of the history that weren't handed out yet, behind others.
    ///
    /// # Errors
    /// Want of memory. All is then as it was.
    pub fn hand_out(&mut self, told: &mut Vec<WorldEntry<A>, A>) -> Result<(), AllocError>
        ensures told { OnOk result (told.new.items ≡ told.old.items ++ self.old.world.history) }
        ensures handed { OnOk result
            (self.new ≡ record self.old { world = handed_out self.old.world; is_whole = false }) }
        ensures nothing { OnErr result (told.new.items ≡ told.old.items) }
        ensures unchanged { OnErr result (self.new ≡ self.old) }
    {
        self.world.hand_out(told)?;
        self.is_whole = false;
        Ok(())
    }

    /// Forgets what can no longer matter: items that are too old to be heard, but for some of the last, what is known
    /// of frames that are, issues that a later one of their client under their invoke ID replaced, and what was said.
    /// Each list is looked through once about half of it can go, so it may be called behind each turn.
    pub fn forget(&mut self)
        ensures forgets { Forgets self.old.world self.new.world }
        ensures rest { self.new ≡ record self.old { world = self.new.world; is_whole = false } }
    {
        let before = self.world.first_item();
        self.world.forget();
        let after = self.world.first_item();
        self.senders.forget(after.saturating_sub(before));
        self.is_whole = false;
    }

    /// One turn: the given event happens; or, where none is given, at most one datagram is received. One that is an
    /// item is delivered; any other is dropped, or, in an open runner, heard by its station. Each datagram that is put
    /// out then is sent, all of them also where one fails. At a wake at which nothing is due nothing is said, told or
    /// put out.
    ///
    /// # Errors
    /// `Wire` where nothing could be received, and nothing has changed then; or where a sending failed, which is a
    /// loss. What the world refuses; or `Memory`. Nothing has changed then.
    #[tactic(auto, using(crate::proofs::TurnLaws::turn_rules))]
    pub fn turn<W: Wire>(&mut self, wire: &mut W, next: Option<Event<A>>) -> Result<Turned, Fault>
        requires sound { IsSoundIfAny next }
        ensures turns { IsTurn next (W.latest wire.new) self.old self.new result }
        ensures sends { W.sends wire.new ≡ raised (W.sends wire.old) (put_out self.old.world self.new.world) }
        ensures recvs { W.recvs wire.new ≡ received next (W.recvs wire.old) }
        ensures sound { OnOk result (W.faults wire.new ≡ W.faults wire.old) }
        ensures failed { IfErr result (λ fault. fault ≡ Fault.Wire → IsRisen (W.faults wire.old) (W.faults wire.new)) }
    {
        // Counts are read where their range is to be known.
        let _counts = (wire.sends(), wire.faults());
        self.strayed = false;
        let sent = self.world.item_count();
        let turned = self.act(wire, next)?;
        send_all(wire, &self.world, sent)?;
        Ok(turned)
    }

    /// What a turn does before it sends.
    fn act<W: Wire>(&mut self, wire: &mut W, next: Option<Event<A>>) -> Result<Turned, Fault>
        requires sound { IsSoundIfAny next }
        requires strayed { self.old.strayed ≡ false }
        ensures turned { IfOk result (HasTurned next (W.latest wire.new) self.old self.new) }
        ensures undone { IfErr result (IsUndone next (W.latest wire.new) self.old) }
        ensures unchanged { OnErr result (self.new ≡ self.old) }
        ensures sends { W.sends wire.new ≡ W.sends wire.old }
        ensures recvs { W.recvs wire.new ≡ received next (W.recvs wire.old) }
        ensures sound { OnOk result (W.faults wire.new ≡ W.faults wire.old) }
        ensures failed { IfErr result (λ fault. fault ≡ Fault.Wire → IsRisen (W.faults wire.old) (W.faults wire.new)) }
    {
        match next {
            Some(event) => {
                self.make(&event)?;
                Ok(Turned::Stepped)
            }
            None => self.receive(wire),
        }
    }

    /// At most one datagram is received, and answered.
    fn receive<W: Wire>(&mut self, wire: &mut W) -> Result<Turned, Fault>
        requires strayed { self.old.strayed ≡ false }
        ensures turned { IfOk result (HasTurned None (W.latest wire.new) self.old self.new) }
        ensures undone { IfErr result (IsUndone None (W.latest wire.new) self.old) }
        ensures unchanged { OnErr result (self.new ≡ self.old) }
        ensures sends { W.sends wire.new ≡ W.sends wire.old }
        ensures recvs { W.recvs wire.new ≡ raised (W.recvs wire.old) 1 }
        ensures sound { OnOk result (W.faults wire.new ≡ W.faults wire.old) }
        ensures failed { IfErr result (λ fault. fault ≡ Fault.Wire → IsRisen (W.faults wire.old) (W.faults wire.new)) }
    {
        // A count is read where its range is to be known.
        let _faults = wire.faults();
        wire.recv()?;
        let turned = self.answer(wire)?;
        Ok(turned)
    }

    /// An event happens, or is refused.
    #[tactic(auto, using(crate::proofs::LedRules::make_rules))]
    fn make(&mut self, event: &Event<A>) -> Result<(), Fault>
        requires sound { IsSoundEvent event.now }
        requires strayed { self.old.strayed ≡ false }
        ensures made { OnOk result (HasMade event.now self.old self.new) }
        ensures refused { IfErr result (λ fault. IsRefused event.now self.old.world fault) }
        ensures own { IfErr result (λ fault. fault ≢ Fault.Wire) }
        ensures unchanged { OnErr result (self.new ≡ self.old) }
    {
        match self.world.step(event) {
            Ok(()) => {
                self.senders.see(self.world.items());
                Ok(())
            }
            Err(fault) => Err(fault),
        }
    }

    /// What the wire brought is answered, if anything came.
    fn answer<W: Wire>(&mut self, wire: &W) -> Result<Turned, Fault>
        requires strayed { self.old.strayed ≡ false }
        ensures turned { IfOk result (HasTurned None (W.latest wire.now) self.old self.new) }
        ensures refused { IfErr result (Refuses None (W.latest wire.now) self.old) }
        ensures own { IfErr result (λ fault. fault ≢ Fault.Wire) }
        ensures unchanged { OnErr result (self.new ≡ self.old) }
    {
        match wire.last() {
            Some(got) => self.hear(&got),
            None => Ok(Turned::Nothing),
        }
    }

    /// The number of the item that a datagram is. A stranger's is none, whatever it says.
    #[tactic(auto, using(crate::proofs::SeekingLaws::seek_rules))]
    fn sought(&self, got: &Got<'_>) -> Option<usize>
        ensures is { IfSome result
            (IsLastMatch self.now.world.moment (datagram_of got.now) self.now.world.items) }
        ensures stray { IfNone result (IsStray self.now.world.moment (datagram_of got.now) self.now.world.items) }
    {
        let is_stranger = self.senders.is_stranger(self.world.items(), got.from);
        if is_stranger && are_late_before(&self.world, self.world.first_item()) {
            return None;
        }
        last_match(&self.world, got)
    }

    /// A datagram came.
    fn hear(&mut self, got: &Got<'_>) -> Result<Turned, Fault>
        requires strayed { self.old.strayed ≡ false }
        ensures turned { IfOk result (HasTurned None (Some (datagram_of got.now)) self.old self.new) }
        ensures refused { IfErr result (Refuses None (Some (datagram_of got.now)) self.old) }
        ensures own { IfErr result (λ fault. fault ≢ Fault.Wire) }
        ensures unchanged { OnErr result (self.new ≡ self.old) }
    {
        if !got.is_whole() {
            return Ok(Turned::Dropped);
        }
        if let Some(number) = self.sought(got) {
            let event = Event::Deliver(number as u64);
            self.make(&event)?;
            return Ok(Turned::Stepped);
        }
        if !self.is_open() {
            return Ok(Turned::Dropped);
        }
        self.take(got)?;
        Ok(Turned::Stray)
    }

    fn is_open(&self) -> bool
        ensures { result ≡ self.now.is_open }
    {
        self.is_open
    }

    /// A datagram that nobody of the site sent is heard by its station.
    #[tactic(auto, using(crate::proofs::NotWire::own_rules))]
    fn take(&mut self, got: &Got<'_>) -> Result<(), Fault>
        ensures takes { OnOk result (TakesStray (datagram_of got.now) self.old.world self.new.world) }
        ensures strayed { OnOk result
            (self.new ≡ record self.old { world = self.new.world; strayed = true; is_led = false }) }
        ensures refused { IfErr result (λ fault. IsRefusedStray (datagram_of got.now) self.old.world fault) }
        ensures own { IfErr result (λ fault. fault ≢ Fault.Wire) }
        ensures unchanged { OnErr result (self.new ≡ self.old) }
    {
        take_stray(&mut self.world, got)?;
        self.senders.see(self.world.items());
        self.strayed = true;
        self.is_led = false;
        Ok(())
    }
}
