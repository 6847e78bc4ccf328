//! A live run, round by round.

ghost use Rattle.std.specs.Prelude.{◌≡◌, ◌<◌, ◌≤◌, ◌+◌, ◌⊎◌, IfOk, OnOk, length};
ghost use Rattle.profile.specs.Times.{MAX_TICK_MS};
ghost use Rattle.runner.specs.world.Step.{IsSoundIfAny};
ghost use Rattle.site_live.specs.Laps.{HasNameAt};

use crate::lap::Lap;
use crate::observer::Observer;
use crate::timer::Timer;
use crate::turning::print_turn;
use due_times::DueTimes;
use profile::MAX_TICK_MS;
use runner::{Event, Heard, Internetwork, Runner, Turned, World, WorldEntry, next_hear};
use script::Step;
use site_history::{AskedFor, Counts, print_refusal, print_refused_time};
use site_verdicts::{Expectation, Refusals, Seen, Verdicts};
use std::alloc::{AllocError, Allocator};
use std::io;
use std::io::{ErrorKind, Write};
use std::marker::Model;
use tags::{Fault, Items, Octets};
use wire::{Got, Wire};
use words::Spelling;

/// For how many milliseconds a run rests at most where lines wait to be flushed.
const MAX_REST_MS: u64 = 1;

/// For how many milliseconds time passes at once at most where a datagram may be on its way: a tenth of the time in
/// which it is heard.
const MAX_BUSY_MS: u64 = 100;

/// How many datagrams are received in a round at most.
const MAX_IN_ROUND: u32 = 16;

/// A site at a wire, and the clock that its time comes from. It is not dropped, but closed.
pub struct Live<W: Wire + Drop, T: Timer + Drop, S: Observer<A> + Drop, A: Allocator + Copy> {
    alloc: A,
    runner: Runner<A>,
    /// How many entries of each kind were handed out.
    counts: Counts,
    /// It holds entries that are handed out, until they are let go of, and keeps its memory.
    told: Vec<WorldEntry<A>, A>,
    wire: W,
    timer: T,
    /// Who looks on.
    observer: S,
    /// How far the frames of the buses were heard.
    heard: Heard,
    /// How far it has come round the site, where stations wake.
    lap: Lap,
    /// Whether a datagram came in the latest round or was put out, or an event of the script happened behind it.
    is_busy: bool,
    /// Whether all lines are flushed.
    is_flushed: bool,
    /// The moment, in milliseconds, at which each station of the site registers next: never, where it is no foreign
    /// device.
    due: DueTimes<A>,
    /// Whether its script expects anything, which may be of any entry: then none is handed out.
    looks_back: bool,
    /// What was refused, and what came of expectations.
    refusals: Refusals,
    verdicts: Verdicts<A>,
}

impl<W: Wire + Drop, T: Timer + Drop, S: Observer<A> + Drop, A: Allocator + Copy> Model
    for Live<W, T, S, A> {
    ghost use Rattle.site_live.specs.Running.{LiveState};

    ghost Value = { LiveState A };

    ghost view = { λ l. record { runner = l.runner; counts = l.counts; lap = l.lap } };
}

/// Returns whether time passes by an event, if there is one.
fn is_tick<A: Allocator>(next: &Option<Event<A>>) -> bool {
    match next {
        Some(Event::Tick(_)) => true,
        Some(_) | None => false,
    }
}

/// Returns whether all lines are flushed behind a turn: where time passes by it, or where they were before and it
/// brought nothing, so that nothing is printed of it.
fn is_flushed_behind(answer: &Result<Turned, Fault>, passes: bool, was_flushed: bool) -> bool {
    match answer {
        Ok(Turned::Nothing) => passes || was_flushed,
        Ok(Turned::Stepped | Turned::Dropped | Turned::Stray) | Err(_) => passes,
    }
}

/// Returns the name of the node at this place of a site, in memory of `alloc`.
#[tactic(auto, using(crate::proofs::LapLaws::name_laws))]
fn name_at<A: Allocator + Copy>(
    alloc: A,
    world: &Internetwork<A>,
    place: usize,
) -> Result<Octets<A>, AllocError>
    requires there { place < length world.now.nodes }
    ensures named { IfOk result (λ name. HasNameAt place name world.now) }
{
    let node = &world.nodes()[place];
    Items::from_slice(alloc, node.name())
}

/// Returns the name of the station at this place of a site, if there is one, in memory of `alloc`.
fn station_name_at<A: Allocator + Copy>(
    alloc: A,
    world: &Internetwork<A>,
    place: usize,
) -> Result<Option<Octets<A>>, AllocError> {
    match world.site().stations().get(place) {
        Some(station) => Ok(Some(Items::from_slice(alloc, station.name.as_slice())?)),
        None => Ok(None),
    }
}

/// For how many seconds the station at this place of a site registers, where it is a foreign device (J.5.2).
fn seconds_to_live<A: Allocator + Copy>(world: &Internetwork<A>, place: usize) -> Option<u16> {
    let station = world.site().stations().get(place)?;
    let foreign = station.role.beyond()?;
    Some(foreign.seconds_to_live)
}

/// Returns the moment, in milliseconds, at which the station at this place of a site registers next, where it does at
/// this one: half of its seconds to live later, or never, where it is no foreign device (J.5.2.3).
fn next_registration<A: Allocator + Copy>(
    world: &Internetwork<A>,
    place: usize,
    moment: u64,
) -> u64 {
    match seconds_to_live(world, place) {
        Some(seconds) => moment.saturating_add(500 * u64::from(seconds)),
        None => u64::MAX,
    }
}

/// Returns for how many milliseconds time passes at once at a moment, where the next at which anything is due is this
/// one: one at least, and so many at most.
fn time_until(next: u64, moment: u64, most: u64) -> u64
    requires { 1 ≤ most }
    ensures least { 1 ≤ result }
    ensures most { result ≤ most }
    ensures until { (result ≡ 1) ⊎ (moment + result ≤ next) }
{
    if next > moment {
        most.min(next - moment)
    } else {
        1
    }
}

/// The datagram of a stranger that the latest turn had, if it had one that was heard.
fn stray_of<'w, W: Wire, A: Allocator + Copy>(runner: &Runner<A>, wire: &'w W) -> Option<Got<'w>> {
    if runner.strayed() { wire.last() } else { None }
}

/// Counts the refusal of a turn, if it was refused, which a line of the script may ask for.
fn count_refusal(
    refusals: &mut Refusals,
    answer: &Result<Turned, Fault>,
    moment: u64,
    script_line: Option<u64>,
) {
    if let Err(fault) = answer {
        refusals.put(*fault, moment, script_line);
    }
}

/// Judges what is expected of a run where so much was refused; what a property reads, no live run is asked.
fn judge<A: Allocator + Copy>(
    runner: &Runner<A>,
    refusals: Refusals,
    expected: &Expectation<A>,
    script_line: Option<u64>,
    verdicts: &mut Verdicts<A>,
) -> Result<(), AllocError> {
    let seen = Seen {
        history: runner.history(),
        stations: runner.world().site().stations(),
        refusals,
        read: None,
    };
    verdicts.judge(expected, script_line, seen)
}

impl<W: Wire + Drop, T: Timer + Drop, S: Observer<A> + Drop, A: Allocator + Copy> Live<W, T, S, A> {
    ghost use Rattle.std.specs.Prelude.{◌≡◌, ◌<◌, ◌≤◌, ◌+◌, ◌-◌, ◌^◌, [], true, false, Some, length};
    ghost use Rattle.std.specs.Prelude.{IfOk, IfSome, OnOk};
    ghost use Rattle.runner.specs.simulator.Laws.{IsLed};
    ghost use Rattle.runner.specs.world.Step.{IsSoundEvent};
    ghost use Rattle.runner.specs.Hearing.{left_to_hear};
    ghost use Rattle.site_history.specs.Asked.{refused_time_text};
    ghost use Rattle.site_history.specs.Printed.{refused_text};
    ghost use Rattle.site_live.specs.Laps.{GoesOn, IsInTime, places_left, start_of};
    ghost use Rattle.profile.specs.Times.{MAX_TICK_MS};
    ghost use Rattle.site_live.specs.Running.{HandsOut, IsToldOf, LetsGo, Lives, MissesOne, PassesOver, PrintsNothing};
    ghost use Rattle.site_live.specs.Runs.{begun};
    ghost use Rattle.script.specs.Steps.{IsSoundStep};
    ghost use Rattle.site_live.specs.Steps.{asked_at, asked_by, asked_in};

    /// A world at a wire, which is open or not. The clock begins with it, and the observer sees each turn. Where it
    /// looks back, what it is asked to expect may be of any entry, and none is handed out.
    ///
    /// # Errors
    /// Want of memory.
    pub fn new(
        alloc: A,
        world: World<A>,
        is_open: bool,
        looks_back: bool,
        wire: W,
        timer: T,
        observer: S,
    ) -> Result<Self, AllocError>
        ensures begun { IfOk result (λ live. live ≡ begun is_open world) }
        ensures led { OnOk result (IsLed world) }
    {
        match DueTimes::new(alloc, world.site().stations().len()) {
            Ok(due) => Ok(Live {
                alloc,
                runner: Runner::new(world, is_open),
                counts: Counts::none(),
                told: Vec::new(alloc),
                wire,
                timer,
                observer,
                heard: Heard::new(),
                lap: Lap::At(0),
                is_busy: false,
                is_flushed: true,
                due,
                looks_back,
                refusals: Refusals::none(),
                verdicts: Verdicts::new(alloc),
            }),
            Err(error) => {
                world.close();
                Err(error)
            }
        }
    }

    /// Lets go of it, and of its wire. Hands out what came of expectations.
    pub fn close(self) -> Verdicts<A> {
        let Live {
            alloc: _alloc,
            runner,
            counts: _counts,
            told: _told,
            wire: _wire,
            timer: _timer,
            observer: _observer,
            heard: _heard,
            lap: _lap,
            is_busy: _is_busy,
            is_flushed: _is_flushed,
            due: _due,
            looks_back: _looks_back,
            refusals: _refusals,
            verdicts,
        } = self;
        runner.close();
        verdicts
    }

    /// The site at the wire.
    pub fn runner(&self) -> &Runner<A>
        ensures { result.now ≡ self.now.runner }
    {
        &self.runner
    }

    /// Returns how many entries of each kind were handed out.
    pub fn counts(&self) -> Counts
        ensures { result ≡ self.now.counts }
    {
        self.counts
    }

    fn world(&self) -> &Internetwork<A>
        ensures { result.now ≡ self.now.runner.world }
    {
        self.runner.world()
    }

    /// Takes a turn, which a line of the script may ask for, and by which the run comes so far round the site, lets it
    /// be seen, and prints what comes of it, and behind its refusal what is told of its event. What was printed is
    /// handed out then, and what can no longer matter is forgotten. Where time passes, the lines of the millisecond
    /// before are flushed.
    fn take_turn<O: Write>(
        &mut self,
        next: Option<Event<A>>,
        lap: Lap,
        script_line: Option<u64>,
        asked: Option<AskedFor<A>>,
        spelling: Spelling,
        out: &mut O,
    ) -> io::Result<()>
        requires sound { IsSoundIfAny next }
        requires goes_on { GoesOn next self.old.lap lap self.old.runner.world }
        requires told { IsToldOf asked spelling next }
        ensures lives { OnOk result
            (Lives spelling (asked_in next) self.old self.new (O.contents out.old) (O.contents out.new)) }
        ensures lap { OnOk result (self.new.lap ≡ lap) }
    {
        let entries = self.runner.history().len();
        let passes = is_tick(&next);
        let answer = self.runner.turn(&mut self.wire, next);
        self.lap = lap;
        self.is_flushed = is_flushed_behind(&answer, passes, self.is_flushed);
        let stray = stray_of(&self.runner, &self.wire);
        self.observer.see(self.runner.world(), stray)?;
        let moment = self.runner.world().moment();
        count_refusal(&mut self.refusals, &answer, moment, script_line);
        print_turn(
            spelling,
            &self.runner,
            entries,
            asked.as_ref(),
            answer,
            passes,
            out,
        )?;
        self.let_go(spelling)
    }

    /// Hands out what was printed, where nothing is looked up in it, and forgets what can no longer matter.
    ///
    /// # Errors
    /// Where there are too many entries to be counted.
    fn let_go(&mut self, spelling: Spelling) -> io::Result<()>
        ensures { OnOk result (LetsGo spelling self.old self.new) }
    {
        self.hand_out(spelling)?;
        self.runner.forget();
        Ok(())
    }

    /// Hands out what was printed, where nothing is looked up in it. Where memory is wanting, it is handed out later.
    ///
    /// # Errors
    /// Where there are too many entries to be counted.
    fn hand_out(&mut self, spelling: Spelling) -> io::Result<()>
        ensures { OnOk result (HandsOut spelling self.old self.new) }
    {
        match spelling {
            Spelling::Numbers => self.hand_out_all(),
            Spelling::Names => Ok(()),
        }
    }

    /// Hands out what was printed, and counts it, or leaves it where memory is wanting, or where an expectation may
    /// look at it.
    ///
    /// # Errors
    /// Where there are too many entries to be counted.
    fn hand_out_all(&mut self) -> io::Result<()>
        ensures { OnOk result (HandsOut Spelling.Numbers self.old self.new) }
    {
        if self.looks_back {
            return Ok(());
        }
        let Some(counts) = self.counts.with(self.runner.history()) else {
            return Err(ErrorKind::OutOfMemory.into());
        };
        match self.runner.hand_out(&mut self.told) {
            Ok(()) => {
                self.counts = counts;
                self.told.clear();
                Ok(())
            }
            Err(_) => Ok(()),
        }
    }

    /// Takes a turn with an event of a script. With the standard's names, its refusal tells the script's line and the
    /// event, where there is memory for that.
    #[tactic(auto, using(crate::proofs::LapLaws::asked_laws))]
    fn take_asked<O: Write>(
        &mut self,
        event: Event<A>,
        script_line: Option<u64>,
        spelling: Spelling,
        out: &mut O,
    ) -> io::Result<()>
        requires sound { IsSoundEvent event }
        requires goes_on { GoesOn (Some event) self.old.lap self.old.lap self.old.runner.world }
        ensures { OnOk result
            (Lives spelling (asked_by event) self.old self.new (O.contents out.old) (O.contents out.new)) }
    {
        let asked = match spelling {
            Spelling::Numbers => None,
            Spelling::Names => AskedFor::of(self.alloc, script_line, &event).ok(),
        };
        let lap = self.lap;
        self.is_busy = true;
        self.take_turn(Some(event), lap, script_line, asked, spelling, out)
    }

    /// Prints that something is refused that is no turn.
    #[tactic(auto, using(crate::proofs::LiveLaws::refusal_laws))]
    fn refuse<O: Write>(&mut self, fault: Fault, out: &mut O) -> io::Result<()>
        ensures { OnOk result (PrintsNothing (refused_text fault self.old.runner.world.moment) self.old self.new
            (O.contents out.old) (O.contents out.new)) }
    {
        let moment = self.world().moment();
        self.is_flushed = false;
        self.refusals.put(fault, moment, None);
        print_refusal(fault, moment, out)
    }

    /// Prints that so many milliseconds don't pass for a step.
    #[tactic(auto, using(crate::proofs::LiveLaws::refusal_laws))]
    fn refuse_time<O: Write>(
        &mut self,
        n: u64,
        script_line: Option<u64>,
        spelling: Spelling,
        out: &mut O,
    ) -> io::Result<()>
        ensures { OnOk result
            (PrintsNothing (refused_time_text spelling script_line n Fault.NoSuch self.old.runner.world.moment)
            self.old self.new (O.contents out.old) (O.contents out.new)) }
    {
        let moment = self.world().moment();
        self.is_flushed = false;
        self.refusals.put(Fault::NoSuch, moment, script_line);
        print_refused_time(spelling, script_line, n, Fault::NoSuch, moment, out)
    }

    /// Returns for how many milliseconds time passes at once at most, by what may be on its way: for one, where frames
    /// of buses weren't heard yet, since a bus has its own times (9.5.3).
    fn longest_unheard(&self) -> u64
        ensures least { 1 ≤ result }
        ensures most { result ≤ MAX_TICK_MS }
    {
        if !self.heard.is_up_to(self.world().buses().frames) {
            1
        } else if self.is_busy {
            MAX_BUSY_MS
        } else {
            MAX_TICK_MS
        }
    }

    /// Returns for how many milliseconds time passes at once at most: not beyond the moment at which anything is due of
    /// a station, or a foreign device registers. So a site goes on as if no round came late.
    #[tactic(auto, using(crate::proofs::LapLaws::time_laws))]
    fn longest_pass(&self) -> u64
        ensures least { 1 ≤ result }
        ensures most { result ≤ MAX_TICK_MS }
        ensures in_time { IsInTime result self.now.runner.world }
    {
        let world = self.world();
        let next = world.next_due().min(self.due.next());
        time_until(next, world.moment(), self.longest_unheard())
    }

    /// Time passes, up to so many milliseconds from the beginning on, but not over anything that is on its way or due,
    /// and not before each station had its turn to wake.
    #[tactic(auto, using(crate::proofs::LapLaws::pass_laws))]
    fn pass<O: Write>(&mut self, elapsed: u64, spelling: Spelling, out: &mut O) -> io::Result<()>
        ensures { OnOk result (Lives spelling [] self.old self.new (O.contents out.old) (O.contents out.new)) }
    {
        let passed = elapsed.saturating_sub(self.world().moment());
        let passes = passed.min(self.longest_pass());
        match self.lap {
            Lap::Over if passed > 0 => self.take_turn(
                Some(Event::Tick(passes)),
                Lap::At(0),
                None,
                None,
                spelling,
                out,
            ),
            Lap::Over | Lap::At(_) => Ok(()),
        }
    }

    /// Prints that there is no memory to wake the station at this place, to which the run has come, and goes on to the
    /// next.
    #[tactic(auto, using(crate::proofs::LapLaws::lap_laws))]
    fn miss<O: Write>(&mut self, place: usize, out: &mut O) -> io::Result<()>
        requires here { self.old.lap ≡ Lap.At place }
        requires fits { place + 1 < 2 ^ 64 }
        ensures misses { OnOk result (MissesOne self.old self.new (O.contents out.old) (O.contents out.new)) }
        ensures next { self.new.lap ≡ Lap.At (place + 1) }
    {
        let moment = self.world().moment();
        self.lap = Lap::At(place + 1);
        self.is_flushed = false;
        self.refusals.put(Fault::Memory, moment, None);
        print_refusal(Fault::Memory, moment, out)
    }

    /// The station at this place wakes, to which the run has come, and it goes on to the next.
    #[tactic(auto, using(crate::proofs::LapLaws::wake_laws))]
    fn wake<O: Write>(&mut self, place: usize, spelling: Spelling, out: &mut O) -> io::Result<()>
        requires here { self.old.lap ≡ Lap.At place }
        requires there { place < length self.old.runner.world.nodes }
        requires fits { place + 1 < 2 ^ 64 }
        ensures lives { OnOk result (Lives spelling [] self.old self.new (O.contents out.old) (O.contents out.new)) }
        ensures next { OnOk result (self.new.lap ≡ Lap.At (place + 1)) }
    {
        match name_at(self.alloc, self.world(), place) {
            Ok(name) => self.take_turn(
                Some(Event::Wake(name)),
                Lap::At(place + 1),
                None,
                None,
                spelling,
                out,
            ),
            Err(_) => self.miss(place, out),
        }
    }

    /// Passes over stations of which nothing is due, from where the run has come to, or in a new lap. Returns the place
    /// of the next one of which anything may be due, or none where the lap ends.
    #[tactic(auto, using(crate::proofs::LapLaws::lap_laws))]
    fn pass_over(&mut self) -> Option<usize>
        ensures passes { PassesOver self.old self.new }
        ensures here { IfSome result (λ place. self.new.lap ≡ Lap.At place) }
        ensures there { IfSome result (λ place. place < length self.new.runner.world.nodes) }
        ensures on { IfSome result (λ place. start_of self.old.lap ≤ place) }
        ensures fits { IfSome result (λ place. place + 1 < 2 ^ 64) }
    {
        match self.world().first_due(self.lap.start()) {
            Some(place) => {
                self.lap = Lap::At(place);
                Some(place)
            }
            None => {
                self.lap = Lap::Over;
                None
            }
        }
    }

    /// The next station of the lap wakes of which anything may be due. Tells whether there was one.
    #[tactic(auto, using(crate::proofs::LapLaws::next_laws))]
    fn wake_next<O: Write>(&mut self, spelling: Spelling, out: &mut O) -> io::Result<bool>
        ensures lives { OnOk result (Lives spelling [] self.old self.new (O.contents out.old) (O.contents out.new)) }
        ensures less { IfOk result (λ more. more ≡ true → places_left self.new.lap < places_left self.old.lap) }
    {
        let Some(place) = self.pass_over() else {
            return Ok(false);
        };
        self.wake(place, spelling, out)?;
        Ok(true)
    }

    /// Each station wakes of which anything is due, in the order of the site.
    #[tactic(auto, using(crate::proofs::LiveLaws::live_laws))]
    fn wake_due<O: Write>(&mut self, spelling: Spelling, out: &mut O) -> io::Result<()>
        ensures { OnOk result (Lives spelling [] self.old self.new (O.contents out.old) (O.contents out.new)) }
    {
        while self.wake_next(spelling, out)? {}
        Ok(())
    }

    /// The station at this place of the site registers (J.5.2.3).
    #[tactic(auto, using(crate::proofs::LiveLaws::live_laws))]
    fn register<O: Write>(
        &mut self,
        place: usize,
        spelling: Spelling,
        out: &mut O,
    ) -> io::Result<()>
        ensures { OnOk result (Lives spelling [] self.old self.new (O.contents out.old) (O.contents out.new)) }
    {
        let lap = self.lap;
        match station_name_at(self.alloc, self.world(), place) {
            Ok(Some(name)) => {
                self.take_turn(Some(Event::Register(name)), lap, None, None, spelling, out)
            }
            Ok(None) => Ok(()),
            Err(_) => self.refuse(Fault::Memory, out),
        }
    }

    /// Returns the place of the next station, from this one on, whose time to register has come, and whether it is a
    /// foreign device: its next time is then known.
    #[tactic(auto, using(crate::proofs::LapLaws::register_laws))]
    fn next_to_register(&mut self, from: usize) -> Option<(usize, bool)>
        ensures same { self.new ≡ self.old }
        ensures on { IfSome result (λ r. from ≤ r.0) }
        ensures fits { IfSome result (λ r. r.0 + 1 < 2 ^ 64) }
    {
        let moment = self.world().moment();
        match self.due.first_due(from, moment) {
            Some(place) => {
                let next = next_registration(self.world(), place, moment);
                self.due.set(place, next);
                Some((place, next < u64::MAX))
            }
            None => None,
        }
    }

    /// The next station registers, from this place on, if it is time for one. Tells whether there may be another.
    #[tactic(auto, using(crate::proofs::LiveLaws::live_laws))]
    fn register_next<O: Write>(
        &mut self,
        from: &mut usize,
        spelling: Spelling,
        out: &mut O,
    ) -> io::Result<bool>
        ensures lives { OnOk result (Lives spelling [] self.old self.new (O.contents out.old) (O.contents out.new)) }
        ensures less { IfOk result (λ more. more ≡ true → 2 ^ 64 - from.new < 2 ^ 64 - from.old) }
    {
        let Some((place, is_foreign)) = self.next_to_register(*from) else {
            return Ok(false);
        };
        *from = place + 1;
        if is_foreign {
            self.register(place, spelling, out)?;
        }
        Ok(true)
    }

    /// Each foreign device registers for which it is time, in the order of the site.
    #[tactic(auto, using(crate::proofs::LiveLaws::live_laws))]
    fn register_all<O: Write>(&mut self, spelling: Spelling, out: &mut O) -> io::Result<()>
        ensures { OnOk result (Lives spelling [] self.old self.new (O.contents out.old) (O.contents out.new)) }
    {
        let mut from = 0;
        while self.register_next(&mut from, spelling, out)? {}
        Ok(())
    }

    /// At most one datagram is received. Tells whether one came.
    #[tactic(auto, using(crate::proofs::LiveLaws::live_laws))]
    fn receive_one<O: Write>(&mut self, spelling: Spelling, out: &mut O) -> io::Result<bool>
        ensures { OnOk result (Lives spelling [] self.old self.new (O.contents out.old) (O.contents out.new)) }
    {
        let lap = self.lap;
        self.take_turn(None, lap, None, None, spelling, out)?;
        Ok(self.wire.last().is_some())
    }

    /// Datagrams are received, until none comes, and sixteen at most: then a round goes on. Tells whether one came.
    #[tactic(auto, using(crate::proofs::LiveLaws::live_laws))]
    fn receive<O: Write>(&mut self, spelling: Spelling, out: &mut O) -> io::Result<bool>
        ensures { OnOk result (Lives spelling [] self.old self.new (O.contents out.old) (O.contents out.new)) }
    {
        for count in 0..MAX_IN_ROUND {
            if !self.receive_one(spelling, out)? {
                return Ok(count > 0);
            }
        }
        Ok(true)
    }

    /// Time passes, as the clock tells, but not beyond the moment `until`, in milliseconds. Tells whether more is to
    /// pass.
    #[tactic(auto, using(crate::proofs::LiveLaws::live_laws))]
    fn pass_until<O: Write>(
        &mut self,
        until: u64,
        spelling: Spelling,
        out: &mut O,
    ) -> io::Result<bool>
        ensures { OnOk result (Lives spelling [] self.old self.new (O.contents out.old) (O.contents out.new)) }
    {
        let elapsed = self.timer.elapsed()?.min(until);
        self.pass(elapsed, spelling, out)?;
        Ok(self.world().moment() < elapsed)
    }

    /// A station hears the next frame, if one has its turn. Tells whether there may be another.
    #[tactic(auto, using(crate::proofs::HearLaws::hear_laws))]
    fn hear_next<O: Write>(
        &mut self,
        heard: &mut Heard,
        spelling: Spelling,
        out: &mut O,
    ) -> io::Result<bool>
        ensures lives { OnOk result (Lives spelling [] self.old self.new (O.contents out.old) (O.contents out.new)) }
        ensures less { IfOk result (λ more. more ≡ true → left_to_hear heard.new < left_to_hear heard.old) }
    {
        match next_hear(self.world(), heard) {
            Ok(Some(event)) => {
                let lap = self.lap;
                self.take_turn(Some(event), lap, None, None, spelling, out)?;
                Ok(true)
            }
            Ok(None) => Ok(false),
            Err(fault) => {
                self.refuse(fault, out)?;
                Ok(fault != Fault::Memory)
            }
        }
    }

    /// Each frame that was put out on a bus before is heard, once at each other station there.
    #[tactic(auto, using(crate::proofs::LiveLaws::live_laws))]
    fn hear_all<O: Write>(&mut self, spelling: Spelling, out: &mut O) -> io::Result<()>
        ensures { OnOk result (Lives spelling [] self.old self.new (O.contents out.old) (O.contents out.new)) }
    {
        let mut heard = self.heard;
        heard.go_on(self.world().buses().frames);
        while self.hear_next(&mut heard, spelling, out)? {}
        self.heard = heard;
        Ok(())
    }

    /// Frames are heard, and each station wakes of which anything is due.
    #[tactic(auto, using(crate::proofs::LiveLaws::live_laws))]
    fn hear_and_wake<O: Write>(&mut self, spelling: Spelling, out: &mut O) -> io::Result<()>
        ensures { OnOk result (Lives spelling [] self.old self.new (O.contents out.old) (O.contents out.new)) }
    {
        self.hear_all(spelling, out)?;
        self.wake_due(spelling, out)
    }

    /// What stations do besides: frames are heard, each station wakes of which anything is due, and foreign devices
    /// register.
    #[tactic(auto, using(crate::proofs::LiveLaws::live_laws))]
    fn act<O: Write>(&mut self, spelling: Spelling, out: &mut O) -> io::Result<()>
        ensures { OnOk result (Lives spelling [] self.old self.new (O.contents out.old) (O.contents out.new)) }
    {
        self.hear_and_wake(spelling, out)?;
        self.register_all(spelling, out)
    }

    /// Datagrams are received, and stations do what they do. Tells whether any datagram came or was put out: what goes
    /// over a bus takes its time there.
    #[tactic(auto, using(crate::proofs::LiveLaws::live_laws))]
    fn receive_and_act<O: Write>(&mut self, spelling: Spelling, out: &mut O) -> io::Result<bool>
        ensures { OnOk result (Lives spelling [] self.old self.new (O.contents out.old) (O.contents out.new)) }
    {
        let sent = self.world().item_count();
        let came = self.receive(spelling, out)?;
        self.act(spelling, out)?;
        let puts_out = self.world().item_count() > sent;
        Ok(came || puts_out)
    }

    /// Rests until a datagram comes, or for as long as time may pass at once, but not beyond the moment `until`, in
    /// milliseconds. Where lines wait to be flushed, it is a millisecond at most: they are as that passes.
    #[tactic(auto, using(crate::proofs::LiveLaws::live_laws))]
    fn rest(&mut self, until: u64)
        ensures { self.new ≡ self.old }
    {
        let left = until.saturating_sub(self.world().moment());
        let most = if self.is_flushed {
            self.longest_pass()
        } else {
            MAX_REST_MS
        };
        self.wire.wait(most.min(left));
    }

    /// A round: time passes, but not beyond the moment `until`, in milliseconds; datagrams are received, frames are
    /// heard, each station wakes of which anything is due, and foreign devices register. Behind one that came in time,
    /// and in which no datagram came or was put out, it rests until a datagram comes or anything is due.
    #[tactic(auto, using(crate::proofs::LiveLaws::live_laws))]
    fn round_until<O: Write>(
        &mut self,
        until: u64,
        spelling: Spelling,
        out: &mut O,
    ) -> io::Result<()>
        ensures { OnOk result (Lives spelling [] self.old self.new (O.contents out.old) (O.contents out.new)) }
    {
        let is_late = self.pass_until(until, spelling, out)?;
        self.is_busy = self.receive_and_act(spelling, out)?;
        if !is_late && !self.is_busy {
            self.rest(until);
        }
        Ok(())
    }

    /// The first round: the site is as it opened, and no time passes yet.
    #[tactic(auto, using(crate::proofs::LiveLaws::live_laws))]
    pub fn take_round<O: Write>(&mut self, spelling: Spelling, out: &mut O) -> io::Result<()>
        ensures lives { OnOk result (Lives spelling [] self.old self.new (O.contents out.old) (O.contents out.new)) }
    {
        self.round_until(0, spelling, out)
    }

    /// Rounds, until so many milliseconds have passed, and no more.
    #[tactic(auto, using(crate::proofs::LiveLaws::live_laws))]
    pub fn let_pass<O: Write>(&mut self, n: u64, spelling: Spelling, out: &mut O) -> io::Result<()>
        ensures lives { OnOk result (Lives spelling [] self.old self.new (O.contents out.old) (O.contents out.new)) }
    {
        let end = self.world().moment().saturating_add(n);
        for _ in 0..u64::MAX {
            if self.world().moment() >= end {
                break;
            }
            self.round_until(end, spelling, out)?;
        }
        Ok(())
    }

    /// Takes a step that a line of a script asks for: an event, 1 to 60000 ms in which the run makes its own, or what
    /// is expected, which is judged. Events that it makes of itself, faults of the network, and what a station is at,
    /// it doesn't take from a script.
    #[tactic(auto, using(crate::proofs::LiveLaws::taken_laws))]
    pub fn take_step<O: Write>(
        &mut self,
        step: Step<A>,
        script_line: Option<u64>,
        spelling: Spelling,
        out: &mut O,
    ) -> io::Result<()>
        requires sound { IsSoundStep step }
        ensures lives { OnOk result
            (Lives spelling (asked_at step) self.old self.new (O.contents out.old) (O.contents out.new)) }
    {
        match step {
            Step::Happens(Event::Tick(_) | Event::Wake(_) | Event::Deliver(_) | Event::Hear { .. })
            | Step::Disturbs(_)
            | Step::Shows(_) => Ok(()),
            Step::Happens(event) => self.take_asked(event, script_line, spelling, out),
            Step::Flow(n) => {
                if n == 0 || n > MAX_TICK_MS {
                    return self.refuse_time(n, script_line, spelling, out);
                }
                self.let_pass(n, spelling, out)
            }
            Step::Expects(expected) => {
                self.expect(&expected, script_line)?;
                Ok(())
            }
        }
    }

    /// Judges what is expected of the run so far.
    fn expect(&mut self, expected: &Expectation<A>, script_line: Option<u64>) -> io::Result<()>
        ensures same { self.new ≡ self.old }
    {
        let refusals = self.refusals;
        match judge(
            &self.runner,
            refusals,
            expected,
            script_line,
            &mut self.verdicts,
        ) {
            Ok(()) => Ok(()),
            Err(AllocError) => Err(ErrorKind::OutOfMemory.into()),
        }
    }
}
