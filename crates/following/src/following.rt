//! The transactions of a capture, each followed to its end (5.4).

use crate::judging::{before_of, exchange_of, packets_of_change, unanswered};
use crate::listed::Listed;
use crate::strays::{Stray, Strays};
use crate::waiting::Waiting;
use diagnosis_parts::{
    Answered, Asked, At, Before, Key, RequestCounts, Settings, Times, Transaction, WentOn,
    digest_of, raise, subject_of,
};
use findings::{Finding, Findings, Kind, Packets};
use lru::{DefaultHasher, LruCache};
use request_findings::{Commands, Segments, Sender};
use std::alloc::{AllocError, Allocator};

/// A transaction stays known for so many microseconds after its last packet, beside the time that it waits.
const KNOWN_FOR: u64 = 60_000_000;

/// How many segments have sequence numbers of their own.
const SEQUENCE_NUMBERS: u32 = 256;

/// For so many microseconds a capture may show answers to requests from before it.
const AT_BEGINNING: u64 = 60_000_000;

/// The microseconds of a millisecond.
const MILLISECOND: u64 = 1000;

/// The transactions of a capture.
#[derive(Drop)]
pub struct Following<A: Allocator> {
    /// Those that are known by their keys.
    known: LruCache<Key, Transaction, DefaultHasher, A>,
    /// Those that are not any more.
    past: Listed<A>,
    /// The keys of those that have no answer.
    waiting: Waiting<A>,
    commands: Commands<A>,
    segments: Segments<A>,
    strays: Strays,
    /// For so many microseconds a request waits.
    timeout: u64,
    /// An answer that takes more microseconds is slow.
    slow: u64,
    times: Times<A>,
    counts: RequestCounts,
}

impl<A: Allocator + Copy> Following<A> {
    /// None yet.
    ///
    /// # Errors
    /// Want of memory.
    pub fn new(alloc: A, settings: Settings) -> Result<Following<A>, AllocError> {
        Ok(Following {
            known: LruCache::new(alloc, settings.transactions)?,
            past: Listed::new(alloc, settings.listed),
            waiting: Waiting::new(alloc, settings.transactions)?,
            commands: Commands::new(alloc, settings.transactions)?,
            segments: Segments::new(alloc, settings.sightings)?,
            strays: Strays::none(),
            timeout: settings.timeout.saturating_mul(MILLISECOND),
            slow: settings.slow.saturating_mul(MILLISECOND),
            times: Times::new(alloc)?,
            counts: RequestCounts::none(),
        })
    }

    /// A request came, or a segment of one.
    ///
    /// # Errors
    /// Want of memory.
    pub fn asked(
        &mut self,
        key: Key,
        asked: Asked<'_>,
        at: At,
        findings: &mut Findings<A>,
    ) -> Result<(), AllocError> {
        self.follow(key, asked, at, findings)?;
        match asked.segment {
            Some(segment) => {
                self.segments
                    .sent(key, Sender::Client, segment, at, findings)
            }
            None => Ok(()),
        }
    }

    /// Follows a transaction by its request, or a segment of that.
    fn follow(
        &mut self,
        key: Key,
        asked: Asked<'_>,
        at: At,
        findings: &mut Findings<A>,
    ) -> Result<(), AllocError> {
        let known = self.known.peek(&key).copied();
        if goes_on(asked, known) {
            return match known {
                Some(known) if known.outcome.is_none() => {
                    self.go_on(key, known.with_segment(at.moment))
                }
                Some(_) | None => Ok(()),
            };
        }
        let contents = digest_of(asked.data);
        match known {
            Some(known)
                if known.is_same(asked.service, contents)
                    && known.is_open(self.timeout, at.moment) => {
                raise(&mut self.counts.repeats);
                let known = known.repeated(at);
                self.commands.asked_again(key, &known)?;
                self.go_on(key, known)
            }
            Some(known) => self.asked_again(key, known, asked, at, findings),
            None => self.begin(key, asked, None, at),
        }
    }

    /// A request came whose key that of another transaction is, which has ended or is put an end to.
    fn asked_again(
        &mut self,
        key: Key,
        known: Transaction,
        asked: Asked<'_>,
        at: At,
        findings: &mut Findings<A>,
    ) -> Result<(), AllocError> {
        let is_same = known.is_same(asked.service, digest_of(asked.data));
        if !is_same && known.is_open(self.timeout, at.moment) {
            findings.tell(Finding {
                kind: Kind::InvokeIdReused(exchange_of(key, &known)),
                packets: Packets::two(known.said, at.packet),
            })?;
        }
        self.stop_waiting(key, &known, at, findings)?;
        self.end(key, known)?;
        if !is_same || known.answer.is_none() {
            return self.begin(key, asked, None, at);
        }
        raise(&mut self.counts.repeats_after_answer);
        let is_soon = at.moment.saturating_sub(known.began) <= self.timeout;
        let before = if is_soon { before_of(&known) } else { None };
        self.begin(key, asked, before, at)
    }

    /// A request came for the first time.
    fn begin(
        &mut self,
        key: Key,
        asked: Asked<'_>,
        before: Option<Before>,
        at: At,
    ) -> Result<(), AllocError> {
        raise(&mut self.counts.requests);
        let transaction = Transaction {
            first: at.packet,
            began: at.moment,
            last: at.moment,
            service: asked.service,
            subject: subject_of(asked.service, asked.data),
            contents: digest_of(asked.data),
            repeats: 0,
            said: at.packet,
            before,
            segments: u32::from(asked.segment.is_some()),
            answer: None,
            outcome: None,
        };
        let count = self.counts.requests;
        self.commands.asked(key, &transaction, asked.data, count)?;
        self.segments.begin(key);
        self.waiting.begin(key)?;
        self.keep(key, transaction)
    }

    /// An answer came, or a segment of one.
    ///
    /// # Errors
    /// Want of memory.
    pub fn answered(
        &mut self,
        key: Key,
        answered: Answered<'_>,
        at: At,
        findings: &mut Findings<A>,
    ) -> Result<(), AllocError> {
        let Some(known) = self.known.peek(&key).copied() else {
            return self.answered_nobody(key, at, findings);
        };
        if known.answer.is_none() {
            self.answered_first(key, &known, at, findings)?;
        }
        let contents = match answered.segment {
            Some(segment) => {
                self.segments
                    .sent(key, Sender::Server, segment, at, findings)?;
                None
            }
            None => Some(digest_of(answered.octets)),
        };
        if let Some(packets) = packets_of_change(&known, contents, at) {
            let kind = Kind::AnswerChanged(exchange_of(key, &known));
            findings.tell(Finding { kind, packets })?;
        }
        self.commands.answered(key, &known, answered, at, findings)?;
        let known = if answered.segment.is_some() {
            known.with_segment(at.moment)
        } else {
            known
        };
        let known = known
            .answered(contents, at)
            .with_outcome(answered.outcome, at.moment);
        self.keep(key, known)
    }

    /// The first answer to a request came, or its first segment.
    fn answered_first(
        &mut self,
        key: Key,
        known: &Transaction,
        at: At,
        findings: &mut Findings<A>,
    ) -> Result<(), AllocError> {
        raise(&mut self.counts.answered);
        let time = at.moment.saturating_sub(known.began);
        self.times.add(time);
        self.stop_waiting(key, known, at, findings)?;
        let exchange = exchange_of(key, known);
        if known.repeats != 0 {
            return findings.tell(Finding {
                kind: Kind::LateAnswer { exchange, time },
                packets: Packets::three(known.first, known.said, at.packet),
            });
        }
        let time = at.moment.saturating_sub(known.last);
        if time <= self.slow {
            return Ok(());
        }
        findings.tell(Finding {
            kind: Kind::Slow { exchange, time },
            packets: Packets::two(known.first, at.packet),
        })
    }

    /// A request waits for its answer no more; where it had to wait too long, that is told, and where another station
    /// answered in the meantime, that this was to no request.
    fn stop_waiting(
        &mut self,
        key: Key,
        known: &Transaction,
        at: At,
        findings: &mut Findings<A>,
    ) -> Result<(), AllocError> {
        let Some(stray) = self.waiting.end(key) else {
            return Ok(());
        };
        if known.is_silent(self.timeout, at.moment) {
            return self.tell_unanswered(key, known, stray, findings);
        }
        match stray {
            Some(stray) => findings.tell(stray.finding(key)),
            None => Ok(()),
        }
    }

    /// An answer came to a request that isn't known.
    fn answered_nobody(
        &mut self,
        key: Key,
        at: At,
        findings: &mut Findings<A>,
    ) -> Result<(), AllocError> {
        raise(&mut self.counts.strays);
        self.strays.note(at.packet);
        self.judge_sides(at.since, findings)?;
        let is_judged = AT_BEGINNING <= at.since && self.counts.left == 0;
        if !is_judged || self.strays.are_many(&self.counts) {
            return Ok(());
        }
        let stray = Stray {
            packet: at.packet,
            from: key.server,
        };
        if self.waiting.suspect(key, stray) {
            return Ok(());
        }
        findings.tell(stray.finding(key))
    }

    /// Tells once, after the first minute, that the capture sees one side.
    fn judge_sides(&mut self, since: u64, findings: &mut Findings<A>) -> Result<(), AllocError> {
        if since < AT_BEGINNING || !self.strays.is_one_sided(&self.counts) {
            return Ok(());
        }
        match self.strays.told(&self.counts) {
            Some(finding) => findings.tell(finding),
            None => Ok(()),
        }
    }

    /// The client gave up or took segments, or the server took segments.
    ///
    /// # Errors
    /// Want of memory.
    pub fn went_on(
        &mut self,
        key: Key,
        went_on: WentOn,
        at: At,
        findings: &mut Findings<A>,
    ) -> Result<(), AllocError> {
        let Some(known) = self.known.peek(&key).copied() else {
            return Ok(());
        };
        match went_on {
            WentOn::GaveUp(outcome) => {
                self.waiting.end(key);
                self.go_on(key, known.with_outcome(Some(outcome), at.moment))
            }
            WentOn::ClientTook(taken) => {
                self.segments
                    .taken(key, Sender::Server, taken, at, findings)?;
                self.go_on(key, known.with_outcome(None, at.moment))
            }
            WentOn::ServerTook(taken) => {
                self.segments
                    .taken(key, Sender::Client, taken, at, findings)?;
                self.go_on(key, known.with_outcome(None, at.moment))
            }
        }
    }

    /// Keeps a transaction of which another message came.
    fn go_on(&mut self, key: Key, transaction: Transaction) -> Result<(), AllocError> {
        self.waiting.touch(key);
        self.keep(key, transaction)
    }

    /// Keeps a transaction, in place of the one that is known by its key.
    fn keep(&mut self, key: Key, transaction: Transaction) -> Result<(), AllocError> {
        match self.known.push(key, transaction) {
            Ok(Some((other, left))) if other != key => {
                if left.answer.is_none() {
                    raise(&mut self.counts.left);
                }
                self.list(other, left)
            }
            Ok(_) => Ok(()),
            Err(_) => Err(AllocError),
        }
    }

    /// Ends a transaction that is known by its key no more.
    fn end(&mut self, key: Key, transaction: Transaction) -> Result<(), AllocError> {
        if transaction.answer.is_none() {
            raise(&mut self.counts.unanswered);
        }
        self.list(key, transaction)
    }

    /// Lists a transaction.
    fn list(&mut self, key: Key, transaction: Transaction) -> Result<(), AllocError> {
        if self.past.push(key, transaction)? {
            raise(&mut self.counts.unlisted);
        }
        Ok(())
    }

    /// A moment has come: tells of requests that wait no more, and forgets transactions of which nothing came for long,
    /// two of each at most, as each packet begins one at most.
    ///
    /// # Errors
    /// Want of memory.
    pub fn pass(&mut self, moment: u64, findings: &mut Findings<A>) -> Result<(), AllocError> {
        self.expire_one(moment, findings)?;
        self.expire_one(moment, findings)?;
        self.forget_one(moment)?;
        self.forget_one(moment)
    }

    fn expire_one(&mut self, moment: u64, findings: &mut Findings<A>) -> Result<(), AllocError> {
        let Some((key, stray)) = self.waiting.oldest() else {
            return Ok(());
        };
        match self.known.peek(&key).copied() {
            Some(known) if !known.is_silent(self.timeout, moment) => Ok(()),
            Some(known) => {
                self.waiting.end(key);
                self.tell_unanswered(key, &known, stray, findings)
            }
            None => {
                self.waiting.end(key);
                Ok(())
            }
        }
    }

    /// Tells that a request wasn't answered, or only by another station, where the capture sees both sides.
    fn tell_unanswered(
        &mut self,
        key: Key,
        known: &Transaction,
        stray: Option<Stray>,
        findings: &mut Findings<A>,
    ) -> Result<(), AllocError> {
        if self.strays.is_one_sided(&self.counts) {
            return Ok(());
        }
        findings.tell(unanswered(key, known, stray))
    }

    fn forget_one(&mut self, moment: u64) -> Result<(), AllocError> {
        let Some((_, oldest)) = self.known.peek_lru() else {
            return Ok(());
        };
        if !oldest.is_silent(KNOWN_FOR.saturating_add(self.timeout), moment) {
            return Ok(());
        }
        match self.known.pop_lru() {
            Some((key, oldest)) => self.end(key, oldest),
            None => Ok(()),
        }
    }

    /// The capture ends at a moment: tells what can be told only then.
    ///
    /// # Errors
    /// Want of memory.
    pub fn finish(&mut self, moment: u64, findings: &mut Findings<A>) -> Result<(), AllocError> {
        self.judge_sides(u64::MAX, findings)?;
        if self.strays.is_one_sided(&self.counts) {
            return Ok(());
        }
        for (key, stray) in self.waiting.by_age() {
            if let Some(known) = self.known.peek(key) {
                if known.is_silent(self.timeout, moment) {
                    findings.tell(unanswered(*key, known, *stray))?;
                }
            }
        }
        Ok(())
    }

    /// What is counted when the capture ends at a moment: those that wait no more
    /// are unanswered, and the others are open.
    pub fn counts(&self, moment: u64) -> RequestCounts {
        let mut counts = self.counts;
        for (_, known) in &self.known {
            if known.answer.is_none() {
                if known.is_over(self.timeout, moment) {
                    raise(&mut counts.unanswered);
                } else {
                    raise(&mut counts.open);
                }
            }
        }
        counts
    }

    /// The time, in microseconds, within which so many of a hundred answers came.
    pub fn percentile(&self, percent: u64) -> Option<u64> {
        self.times.percentile(percent)
    }

    /// Those that are listed and those that are known, by their first packets.
    ///
    /// # Errors
    /// Want of memory.
    pub fn all(&self, alloc: A) -> Result<Vec<(Key, Transaction), A>, AllocError> {
        let mut all = Vec::new(alloc);
        self.past.append_to(&mut all)?;
        for (key, known) in &self.known {
            all.push((*key, *known))?;
        }
        all.sort_by_key(|one| one.1.first)?;
        Ok(all)
    }
}

/// Whether a request is a segment after the first one; sequence numbers begin again after 255 (20.1.2.7).
fn goes_on(asked: Asked<'_>, known: Option<Transaction>) -> bool {
    let Some(segment) = asked.segment else {
        return false;
    };
    match known {
        Some(known) if known.outcome.is_none() && SEQUENCE_NUMBERS <= known.segments => true,
        Some(_) | None => segment.sequence_number != 0,
    }
}
