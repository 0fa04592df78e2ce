//! Calls that lead: they write batches outside the turn, put the device back, and lift it again.
ghost use Rattle.hy_hub.specs.declared.occurrence.AppendRefusal.TheVariants as AppendRefusal;
ghost use Rattle.std.specs.Prelude.{◌≡◌, ◌≢◌, ◌⊎◌, ◌↔◌, ℕ, Option, ◌<◌, ◌^◌, length, true, false, None, Some, Ok, Err, IfSome};
ghost use Rattle.std.specs.Prelude.{IfErr, slice_get, is_some, if◌then◌else◌};
ghost use mathlib.Core.List.{IsPrefix};
ghost use Rattle.hy_disk.specs.Moments.{LeavesSince};
ghost use Rattle.hy_hist.specs.Passes.{with_mine, made, Makes, WaitByClaim};
ghost use Rattle.hy_hub.specs.Trace.{flight_of, is_out};
ghost use Rattle.hy_hub.specs.Hub.{IsHubHistory};
ghost use Rattle.hy_hub.specs.Calls.{OwnTurn, IsFree, IsIdle, done_by, AppendDoes, is_declared_client};
ghost use Rattle.hy_hub.specs.Appends.{IsRunningFor};
ghost use Rattle.hy_hub.specs.HoldSteps.{claim_written, comes_early};
ghost use Rattle.hy_hub.specs.Flights.{IsOutWith, IsWrittenWith, are_appends};
ghost use Rattle.hy_hub.specs.Holds.{FailsAfter, KeepsMade, IsCarrier, HasLanded, LandsOwn, IsLiftAt, LedOn, LeadsOn};
ghost use Rattle.hy_hub.specs.Holds.{MayLeadOn, WritesOut, LeadsStill, lift_of, lift_found};

use crate::contents::Contents;
use crate::flights::{Concerned, write_batch};
use crate::hub::Hub;
use crate::occurrence::AppendRefusal;
use crate::request::Request;
use crate::since::Since;
use crate::step::Flight;
use hy_base::{Failed, Pos};
use hy_disk::Disk;
use hy_hist::Pass;
use hy_log::PipelinedLog;
use std::sync::Wait;

// How many batches a call writes at most once its own entry is in the log, one after another. A call whose answer is known
// shouldn't serve others for long; and with sixteen the wait for the next leader to wake comes once in seventeen batches.
const MOST_BATCHES: usize = 16;

// Whom a landing wakes: those whom it concerns, and the client of the batch that wakes the others.
#[derive(Drop)]
struct Woken {
    concerned: Concerned,
    first: u8,
}

impl<D: Disk, B: Since> Hub<D, B> {
    // Ends the turn of a landing, at which the device is home, or out once more; and wakes those whom the landing concerns.
    fn come_home(
        &self,
        pass: &mut Pass<Contents<D, B>>,
        contents: Contents<D, B>,
        mine: Option<u64>,
        claim: Option<u64>,
        woken: &Woken,
        is_home: bool,
    )
        requires lock { pass.old.lock ≡ self.now.name }
        requires holds { pass.old.holds ≡ true }
        requires carries { pass.old.carries ≡ true }
        requires grown { IsPrefix pass.old.seen contents.list }
        requires short { length contents.list < 2 ^ 64 }
        requires mine { IfSome mine (λ k. k < length contents.list) }
        requires waits { WaitByClaim pass.old.waiting pass.old.claim claim contents.waiting }
        ensures seen { pass.new.seen ≡ contents.list }
        ensures told { IsHubHistory pass.new.seen }
        ensures order { made pass.new ≡ with_mine mine pass.new.seen (made pass.old) }
        ensures made { (k : ℕ) (x : _)
            → Makes pass.new k x ↔ (Makes pass.old k x ⊎ ((mine ≡ Some k) × (slice_get pass.new.seen k ≡ Some x))) }
        ensures kept { (pass.new.lock ≡ pass.old.lock) × (pass.new.parts ≡ pass.old.parts) }
        ensures carries { pass.new.carries ≡ is_out contents.list }
        ensures claim { pass.new.claim ≡ claim }
        ensures idle { pass.new.holds ≡ false }
    {
        self.places.note_next(&woken.concerned, is_home);
        contents.is_told();
        self.lock.give(pass, contents, mine, claim);
        self.places
            .notify_landed(&woken.concerned, woken.first, is_home);
    }

    // Puts the device back that the pass carries, with the events of its batch. Where the call's own entry is among them, the
    // device is lifted again at the same hold, for those that wait.
    fn land<R: Wait>(
        &self,
        rt: &R,
        pass: &mut Pass<Contents<D, B>>,
        log: PipelinedLog<D>,
        at: Pos,
        request: &Request,
        since: u64,
    ) -> Option<(Pos, Option<Flight<D>>)>
        requires pass { IsCarrier self.now pass.old }
        requires client { is_declared_client request.now.client pass.old.seen }
        requires written { IsWrittenWith D.tells D.content
            (LeavesSince D.moment D.left_since B.moment B.left) B.least D.faults_of pass.old.seen log (Ok at) }
        requires appends { are_appends (flight_of pass.old.seen) ≡ true }
        requires claim { pass.old.claim ≡ Some request.now.client }
        ensures lands { LandsOwn D.tells (LeavesSince D.moment D.left_since B.moment B.left) B.least D.faults_of self.now
            request.now since result pass.old pass.new }
        ensures alone { LeadsStill (Some request.now.client) self.now.parts None (lift_found result) pass.old pass.new }
        ensures claim { pass.new.claim ≡ (if is_some result then None else Some request.now.client) }
    {
        let mut contents = self.lock.hold(rt, pass);
        let concerned = contents.concerned(log.laid_len());
        let first = self.places.link(&concerned, request.client());
        let woken = Woken { concerned, first };
        contents.batch_waits();
        contents.land_written(log, at);
        let Some((place, at)) = contents.appended(request, since) else {
            let claim = Some(u64::from(request.client()));
            self.come_home(pass, contents, None, claim, &woken, true);
            return None;
        };
        let lifted = contents.lift();
        self.come_home(pass, contents, Some(place), None, &woken, lifted.is_none());
        Some((at, lifted))
    }

    // Puts the device back that the pass carries, with the events of a batch of others, and notes that its lift was the
    // pass's. Where the call goes on, the device is lifted again at the same hold.
    fn land_others<R: Wait>(
        &self,
        rt: &R,
        pass: &mut Pass<Contents<D, B>>,
        flight: Flight<D>,
        at: Pos,
        leader: u8,
        goes_on: bool,
    ) -> Option<Flight<D>>
        requires pass { IsCarrier self.now pass.old }
        requires written { IsWrittenWith D.tells D.content
            (LeavesSince D.moment D.left_since B.moment B.left) B.least D.faults_of pass.old.seen flight.log (Ok at) }
        requires appends { are_appends (flight_of pass.old.seen) ≡ true }
        requires lift { IsLiftAt flight.lift pass.old.seen }
        requires claim { pass.old.claim ≡ None }
        ensures lands { HasLanded D.tells
            (LeavesSince D.moment D.left_since B.moment B.left) B.least D.faults_of self.now result pass.old pass.new }
        ensures makes { done_by pass.new ≡ done_by pass.old }
        ensures claim { pass.new.claim ≡ None }
        ensures last { goes_on ≡ false → result ≡ None }
        ensures alone { (of : Option ℕ) → LeadsStill of self.now.parts (Some flight.lift) (lift_of result) pass.old pass.new }
    {
        let Flight { log, lift } = flight;
        let mut contents = self.lock.hold(rt, pass);
        let concerned = contents.concerned(log.laid_len());
        let first = self.places.link(&concerned, leader);
        let woken = Woken { concerned, first };
        contents.batch_waits();
        contents.land_written(log, at);
        if !goes_on {
            self.come_home(pass, contents, Some(lift), None, &woken, true);
            return None;
        }
        let lifted = contents.lift();
        self.come_home(pass, contents, Some(lift), None, &woken, lifted.is_none());
        lifted
    }

    // Puts the device back that the pass carries, and that failed at a batch of others; and notes that its lift was the pass's.
    fn lose<R: Wait>(
        &self,
        rt: &R,
        pass: &mut Pass<Contents<D, B>>,
        flight: Flight<D>,
        failed: Failed,
    )
        requires pass { IsCarrier self.now pass.old }
        requires written { IsWrittenWith D.tells D.content
            (LeavesSince D.moment D.left_since B.moment B.left) B.least D.faults_of pass.old.seen flight.log (Err failed) }
        requires lift { IsLiftAt flight.lift pass.old.seen }
        requires claim { pass.old.claim ≡ None }
        ensures led { LedOn self.now pass.old pass.new }
        ensures claim { pass.new.claim ≡ None }
        ensures alone { (of : Option ℕ) → LeadsStill of self.now.parts (Some flight.lift) None pass.old pass.new }
    {
        let Flight { log, lift } = flight;
        let mut contents = self.lock.hold(rt, pass);
        contents.land_failed(log, failed);
        contents.is_told();
        self.lock.give(pass, contents, Some(lift), None);
        self.places.notify_all();
    }

    // Puts the device back that the pass carries, and that failed.
    fn fail<R: Wait>(
        &self,
        rt: &R,
        pass: &mut Pass<Contents<D, B>>,
        log: PipelinedLog<D>,
        failed: Failed,
        request: &Request,
    ) -> AppendRefusal
        requires pass { IsCarrier self.now pass.old }
        requires client { is_declared_client request.now.client pass.old.seen }
        requires written { IsWrittenWith D.tells D.content
            (LeavesSince D.moment D.left_since B.moment B.left) B.least D.faults_of pass.old.seen log (Err failed) }
        requires claim { pass.old.claim ≡ Some request.now.client }
        ensures refused { OwnTurn pass.old pass.new
            (AppendDoes request.now.client request.now.number request.now.entry (Err result)) }
        ensures cause { FailsAfter pass.old.seen pass.new.seen
            × KeepsMade pass.old pass.new
            × ((at : ℕ) → result ≢ AppendRefusal.Stopped at)
            × (result ≢ AppendRefusal.Memory) }
        ensures in_turn { pass.old.parts ≡ self.now.parts
            → IsRunningFor request.now.client request.now.number request.now.entry pass.old.seen
            → comes_early result ≡ false }
        ensures alone { LeadsStill (Some request.now.client) self.now.parts None None pass.old pass.new }
        ensures kept { IsIdle self.now pass.new × (pass.new.parts ≡ pass.old.parts) }
    {
        let mut contents = self.lock.hold(rt, pass);
        let len = contents.len();
        contents.land_failed(log, failed);
        let (refusal, own) = contents.fail(request, len);
        contents.is_told();
        self.lock.give(pass, contents, own, None);
        self.places.notify_all();
        refusal
    }

    // Writes a batch of others, outside the turn, and puts the device back, or lifts it again where the call is to go on.
    fn write_on<R: Wait>(
        &self,
        rt: &R,
        pass: &mut Pass<Contents<D, B>>,
        flight: Flight<D>,
        leader: u8,
        goes_on: bool,
    ) -> Option<Flight<D>>
        requires pass { IsCarrier self.now pass.old }
        requires out { IsOutWith D.tells
            (LeavesSince D.moment D.left_since B.moment B.left) B.least D.faults_of pass.old.seen flight.log }
        requires appends { are_appends (flight_of pass.old.seen) ≡ true }
        requires lift { IsLiftAt flight.lift pass.old.seen }
        requires claim { pass.old.claim ≡ None }
        ensures led { LeadsOn D.tells
            (LeavesSince D.moment D.left_since B.moment B.left) B.least D.faults_of self.now result pass.old pass.new }
        ensures claim { pass.new.claim ≡ None }
        ensures alone { (of : Option ℕ) → LeadsStill of self.now.parts (Some flight.lift) (lift_of result) pass.old pass.new }
        ensures last { goes_on ≡ false → result ≡ None }
    {
        let mut flight = flight;
        match write_batch::<D, B>(&mut flight.log) {
            Ok(at) => self.land_others(rt, pass, flight, at, leader, goes_on),
            Err(failed) => {
                self.lose(rt, pass, flight, failed);
                None
            }
        }
    }

    // Writes batches of others, so many at most, while the device is lifted again, and puts it back.
    fn lead_on<R: Wait>(
        &self,
        rt: &R,
        pass: &mut Pass<Contents<D, B>>,
        lifted: Option<Flight<D>>,
        leader: u8,
    )
        requires told { IsHubHistory pass.old.seen }
        requires claim { pass.old.claim ≡ None }
        requires leaves { MayLeadOn D.tells
            (LeavesSince D.moment D.left_since B.moment B.left) B.least D.faults_of self.now lifted pass.old }
        ensures led { LedOn self.now pass.old pass.new }
        ensures claim { pass.new.claim ≡ None }
        ensures alone { (of : Option ℕ) → LeadsStill of self.now.parts (lift_of lifted) None pass.old pass.new }
    {
        let mut lifted = lifted;
        for _batch in 1..MOST_BATCHES {
            let Some(flight) = lifted else {
                return;
            };
            lifted = self.write_on(rt, pass, flight, leader, true);
        }
        let Some(flight) = lifted else {
            return;
        };
        let lifted = self.write_on(rt, pass, flight, leader, false);
        let None = lifted else {
            unreachable!();
        };
    }

    /// Writes the batch of the device that the pass carries, outside the turn, and puts the device back. Where the call's own
    /// entry was in it, the call writes further batches of those that wait: the device doesn't wait for another to wake. The
    /// position of its entry, once it is in the log.
    pub(crate) fn write_out<R: Wait>(
        &self,
        rt: &R,
        pass: &mut Pass<Contents<D, B>>,
        flight: Flight<D>,
        request: &Request,
        since: u64,
    ) -> Result<Option<Pos>, AppendRefusal>
        requires pass { IsCarrier self.now pass.old }
        requires client { is_declared_client request.now.client pass.old.seen }
        requires out { IsOutWith D.tells
            (LeavesSince D.moment D.left_since B.moment B.left) B.least D.faults_of pass.old.seen flight.log }
        requires appends { are_appends (flight_of pass.old.seen) ≡ true }
        requires claim { pass.old.claim ≡ Some request.now.client }
        ensures wrote { WritesOut self.now request.now since result pass.old pass.new }
        ensures in_turn { pass.old.parts ≡ self.now.parts
            → IsRunningFor request.now.client request.now.number request.now.entry pass.old.seen
            → IfErr result (λ e. comes_early e ≡ false) }
        ensures alone { LeadsStill (Some request.now.client) self.now.parts None None pass.old pass.new }
        ensures kept { IsFree self.now pass.new × (pass.new.parts ≡ pass.old.parts) }
        ensures claim { pass.new.claim ≡ claim_written request.now.client result }
    {
        self.places.note_lift();
        let Flight { mut log, lift: _ } = flight;
        match write_batch::<D, B>(&mut log) {
            Ok(at) => match self.land(rt, pass, log, at, request, since) {
                Some((at, lifted)) => {
                    self.lead_on(rt, pass, lifted, request.client());
                    Ok(Some(at))
                }
                None => Ok(None),
            },
            Err(failed) => Err(self.fail(rt, pass, log, failed, request)),
        }
    }
}
