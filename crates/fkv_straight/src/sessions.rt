//! A session's machine, with what its straight calls go by.
ghost use Rattle.std.specs.Prelude.{◌≡◌, ◌<◌, ◌≤◌, ℕ, IfSome, IfNone, false, true, length};
ghost use Rattle.fkv_base.specs.Limits.{last_serial, max_pending, max_sessions};
ghost use Rattle.fkv_map.specs.declared.operations.Call.{Call};
ghost use Rattle.fkv_map.specs.declared.operations.Call.TheVariants as call;
ghost use Rattle.fkv_epoch.specs.Claiming.{takes_action};
ghost use Rattle.fkv_plane.specs.declared.asks.Ask.TheVariants.{Done};
ghost use Rattle.fkv_session.specs.declared.answers.Told.{Told};
ghost use Rattle.fkv_session.specs.declared.sessions.Sitting.TheVariants.{Turns};
ghost use Rattle.fkv_session.specs.Alike.{StandAlike, lasting};
ghost use Rattle.fkv_session.specs.AsksLeft.{session_asks_left};
ghost use Rattle.fkv_session.specs.Sessions.{is_busy, session_ask, session_begun, session_given, session_next};
ghost use Rattle.fkv_straight.specs.Course.{GoesBy};
ghost use Rattle.fkv_straight.specs.Standing.{IsCaughtUp, begins};
ghost use Rattle.fkv_straight.specs.Hot.{HasLeft};
ghost use Rattle.fkv_straight.specs.Mailbox.{MayLook};
ghost use Rattle.fkv_straight.specs.declared.hot.Due.{Due};
ghost use Rattle.fkv_straight.specs.declared.sessions.Hot.TheVariants.{Ended as HasEnded, Left, Stayed as HasStayed};
ghost use Rattle.fkv_straight.specs.declared.sessions.Went.TheVariants.{Ended, Stopped, Stayed};

use crate::calls::go_by;
use crate::going::Going;
use crate::handing::catch_up;
use crate::hot::{Due, go_due, go_hot};
use crate::lines::Line;
use crate::mailbox::{Asker, asking_read, poll_asker};
use crate::polling::poll_by;
use crate::refreshing::refresh;
use fkv_base::Serial;
use fkv_map::{Call, Op};
use fkv_plane::{Action, Ask};
use fkv_session::{Finished, Session, Told, law_of_standing};
use std::marker::Model;

/// What has come of a call that was to go straight.
#[derive(Clone, Copy)]
pub enum Went {
    /// It has gone to its end, and is told this.
    Ended(Told),
    /// It has met something unusual: the machine has to catch up with the line.
    Stopped,
    /// It may not go straight, and has made no step.
    Stayed,
}

/// What has come of the hot part of a call.
#[derive(Clone, Copy)]
pub enum Hot {
    /// The call has gone to its end, and is told this.
    Ended(Told),
    /// This is left of it.
    Left(Due),
    /// It has none, and no step was made.
    Stayed,
}

/// A session's machine, and what its straight calls go by. That is looked up at the first straight call. A refresh, or a call by the machine, drops it. A
/// contract sees it as the machine.
#[derive(Drop)]
pub struct StraightSession {
    machine: Session,
    /// None where it isn't looked up, and where no call may go straight.
    going: Option<Going>,
}

impl Model for StraightSession {
    ghost use Rattle.std.specs.Prelude.{IfSome};
    ghost use Rattle.fkv_session.specs.Sessions.{Sitter};
    ghost use Rattle.fkv_straight.specs.Course.{GoesBy};

    ghost Value = { Sitter };

    ghost view = { λ m. m.machine };

    ghost invariant = { λ m. IfSome m.going (λ its. GoesBy m.machine.seat m.machine.state its) };
}

impl StraightSession {
    /// The session of this machine.
    pub fn new(machine: Session) -> StraightSession
        ensures { result ≡ machine }
    {
        StraightSession {
            machine,
            going: None,
        }
    }

    /// The session's number.
    #[inline(always)]
    pub fn number(&self) -> usize
        ensures value { result ≡ self.now.seat.number }
        ensures below { result < max_sessions }
    {
        self.machine.number()
    }

    /// What the last poll has finished, in the order of acceptance.
    pub fn finished(&self) -> &[Finished]
        ensures value { result.now ≡ self.now.state.finished }
        ensures fits { length result.now ≤ max_pending }
    {
        self.machine.finished()
    }

    /// The last serial that the session has given, 0 if it has given none.
    pub fn serial(&self) -> Serial
        ensures value { result.0 ≡ self.now.state.serial }
        ensures within { result.0 ≤ last_serial }
    {
        self.machine.serial()
    }

    /// Begins a call by the machine, as `fkv_session::Session::begin` does.
    pub fn begin(&mut self, call: Call) -> Ask<Told>
        ensures next { self.new ≡ record self.old { state = session_begun self.old.seat self.old.state call } }
        ensures ask { result ≡ session_ask self.old.seat self.new.state }
    {
        self.going = None;
        self.machine.begin(call)
    }

    /// Goes on with the reply to the machine's ask, as `fkv_session::Session::go_on` does.
    pub fn go_on(&mut self, reply: u64) -> Ask<Told>
        ensures next { self.new ≡ record self.old { state = session_next self.old.seat self.old.state reply } }
        ensures ask { result ≡ session_ask self.old.seat self.new.state }
        ensures fewer { takes_action (session_ask self.old.seat self.old.state) ≡ false → 0 < session_asks_left self.old.seat self.old.state
            → session_asks_left self.old.seat self.new.state < session_asks_left self.old.seat self.old.state }
    {
        self.going = None;
        self.machine.go_on(reply)
    }

    /// Gets the action of a drain slot that the machine claimed, as `fkv_session::Session::take` does.
    pub fn take(&mut self, action: Action) -> Ask<Told>
        ensures next { self.new ≡ record self.old { state = session_given self.old.seat self.old.state action } }
        ensures ask { result ≡ session_ask self.old.seat self.new.state }
        ensures fewer { (its : Told) → self.old.state.step ≡ Turns its → takes_action (session_ask self.old.seat self.old.state) ≡ true
            → session_asks_left self.old.seat self.new.state < session_asks_left self.old.seat self.old.state }
    {
        self.going = None;
        self.machine.take(action)
    }

    /// What its straight calls go by. Nothing before the first of them, behind a refresh, and behind a call that the
    /// machine has made.
    #[inline(always)]
    pub fn goes_by(&self) -> Option<&Going>
        ensures { IfSome result (λ its. GoesBy self.now.seat self.now.state its.now) }
    {
        self.going.as_ref()
    }

    /// Looks up what straight calls go by, where it isn't known.
    #[inline(always)]
    fn look(&mut self)
        ensures { self.new ≡ self.old }
    {
        if self.going.is_none() {
            self.going = Going::look(&self.machine);
        }
    }

    /// Makes the steps of an operation, each the one that the machine's table asks for, up to its answer or to where anything unusual is met.
    #[inline(always)]
    fn go<L: Line>(&mut self, line: &mut L, op: Op) -> Went
        requires idle { is_busy (L.stands line.old).step ≡ false }
        requires seat { self.old.seat ≡ L.seat line.old }
        requires alike { lasting self.old.state ≡ lasting (L.stands line.old) }
        ensures seat { L.seat line.new ≡ L.seat line.old }
        ensures machine { self.new.seat ≡ self.old.seat }
        ensures ended { (told : Told) → result ≡ Ended told
            → L.led line.old (call.Op op) line.new × (Done told ≡ session_ask (L.seat line.old) (L.stands line.new))
            × IsCaughtUp self.new.state (L.stands line.new) }
        ensures stopped { result ≡ Stopped
            → L.led line.old (call.Op op) line.new × (self.new ≡ self.old)
            × StandAlike (begins self.old.seat self.old.state (call.Op op)) (begins (L.seat line.old) (L.stands line.old) (call.Op op)) }
        ensures stayed { result ≡ Stayed → (line.new ≡ line.old) × (self.new ≡ self.old) }
    {
        self.look();
        let Some(going) = &self.going else {
            return Went::Stayed;
        };
        let lets = going.lets(&self.machine, op);
        if !lets {
            return Went::Stayed;
        }
        let straight = go_by(line, &mut self.machine, going, op);
        let Some(told) = straight else {
            law_of_standing();
            return Went::Stopped;
        };
        Went::Ended(told)
    }

    /// Makes the steps of a refresh, each the one that the machine's table asks for, to its end. Where the session sleeps or a request waits it makes none.
    #[inline(never)]
    fn refresh<L: Line>(&mut self, line: &mut L) -> Went
        requires idle { is_busy (L.stands line.old).step ≡ false }
        requires seat { self.old.seat ≡ L.seat line.old }
        requires alike { lasting self.old.state ≡ lasting (L.stands line.old) }
        ensures seat { L.seat line.new ≡ L.seat line.old }
        ensures machine { self.new.seat ≡ self.old.seat }
        ensures ended { (told : Told) → result ≡ Ended told
            → L.led line.old call.Refresh line.new × (Done told ≡ session_ask (L.seat line.old) (L.stands line.new))
            × IsCaughtUp self.new.state (L.stands line.new) }
        ensures whole { result ≡ Stopped → ⊥ }
        ensures stayed { result ≡ Stayed → (line.new ≡ line.old) × (self.new ≡ self.old) }
    {
        let awake = self.machine.is_awake();
        if !awake || self.machine.pending() != 0 {
            return Went::Stayed;
        }
        self.going = None;
        let told = refresh(line, &mut self.machine);
        Went::Ended(told)
    }

    /// Makes the steps of a poll in which one update waits, and that for nothing but the poll. In any other it makes none.
    fn poll_lone<L: Line>(&mut self, line: &mut L) -> Went
        requires idle { is_busy (L.stands line.old).step ≡ false }
        requires seat { self.old.seat ≡ L.seat line.old }
        requires alike { lasting self.old.state ≡ lasting (L.stands line.old) }
        ensures seat { L.seat line.new ≡ L.seat line.old }
        ensures machine { self.new.seat ≡ self.old.seat }
        ensures ended { (told : Told) → result ≡ Ended told
            → L.led line.old call.Poll line.new × (Done told ≡ session_ask (L.seat line.old) (L.stands line.new))
            × IsCaughtUp self.new.state (L.stands line.new) }
        ensures stopped { result ≡ Stopped
            → L.led line.old call.Poll line.new × (self.new ≡ self.old)
            × StandAlike (begins self.old.seat self.old.state call.Poll) (begins (L.seat line.old) (L.stands line.old) call.Poll) }
        ensures stayed { result ≡ Stayed → (line.new ≡ line.old) × (self.new ≡ self.old) }
    {
        self.look();
        let Some(going) = &self.going else {
            return Went::Stayed;
        };
        let lone = going.lone(&self.machine);
        let Some(its) = lone else {
            return Went::Stayed;
        };
        let straight = poll_by(line, &mut self.machine, going, its);
        let Some(told) = straight else {
            law_of_standing();
            return Went::Stopped;
        };
        Went::Ended(told)
    }

    /// Makes the steps of a poll in which this read alone waits, and has asked for a record of the device.
    fn poll_asker<L: Line>(&mut self, line: &mut L, its: Asker) -> Went
        requires idle { is_busy (L.stands line.old).step ≡ false }
        requires seat { self.old.seat ≡ L.seat line.old }
        requires alike { lasting self.old.state ≡ lasting (L.stands line.old) }
        requires may { MayLook self.old.state its }
        ensures seat { L.seat line.new ≡ L.seat line.old }
        ensures machine { self.new.seat ≡ self.old.seat }
        ensures ended { (told : Told) → result ≡ Ended told
            → L.led line.old call.Poll line.new × (Done told ≡ session_ask (L.seat line.old) (L.stands line.new))
            × IsCaughtUp self.new.state (L.stands line.new) }
        ensures stopped { result ≡ Stopped
            → L.led line.old call.Poll line.new × (self.new ≡ self.old)
            × StandAlike (begins self.old.seat self.old.state call.Poll) (begins (L.seat line.old) (L.stands line.old) call.Poll) }
        ensures stayed { result ≡ Stayed → ⊥ }
    {
        let straight = poll_asker(line, &mut self.machine, its);
        let Some(told) = straight else {
            law_of_standing();
            return Went::Stopped;
        };
        Went::Ended(told)
    }

    /// Makes the steps of a poll, each the one that the machine's table asks for, up to its answer or to where anything unusual is met. It may go straight
    /// where one request alone waits: a read that has asked for a record of the device, or an update that waits for nothing but the poll.
    #[inline(never)]
    fn poll<L: Line>(&mut self, line: &mut L) -> Went
        requires idle { is_busy (L.stands line.old).step ≡ false }
        requires seat { self.old.seat ≡ L.seat line.old }
        requires alike { lasting self.old.state ≡ lasting (L.stands line.old) }
        ensures seat { L.seat line.new ≡ L.seat line.old }
        ensures machine { self.new.seat ≡ self.old.seat }
        ensures ended { (told : Told) → result ≡ Ended told
            → L.led line.old call.Poll line.new × (Done told ≡ session_ask (L.seat line.old) (L.stands line.new))
            × IsCaughtUp self.new.state (L.stands line.new) }
        ensures stopped { result ≡ Stopped
            → L.led line.old call.Poll line.new × (self.new ≡ self.old)
            × StandAlike (begins self.old.seat self.old.state call.Poll) (begins (L.seat line.old) (L.stands line.old) call.Poll) }
        ensures stayed { result ≡ Stayed → (line.new ≡ line.old) × (self.new ≡ self.old) }
    {
        let reader = asking_read(&self.machine);
        match reader {
            Some(its) => self.poll_asker(line, its),
            None => self.poll_lone(line),
        }
    }

    /// Makes the steps of a call, each the one that the machine's table asks for, up to its end or to where anything unusual is met. An operation goes straight
    /// where the session doesn't refuse it, a refresh where no request waits, and a poll where one alone does: a read that has asked for a record of the
    /// device, or an update that waits for nothing else.
    #[inline(always)]
    pub fn run<L: Line>(&mut self, line: &mut L, call: Call) -> Went
        requires idle { is_busy (L.stands line.old).step ≡ false }
        requires seat { self.old.seat ≡ L.seat line.old }
        requires alike { lasting self.old.state ≡ lasting (L.stands line.old) }
        ensures seat { L.seat line.new ≡ L.seat line.old }
        ensures machine { self.new.seat ≡ self.old.seat }
        ensures ended { (told : Told) → result ≡ Ended told
            → L.led line.old call line.new × (Done told ≡ session_ask (L.seat line.old) (L.stands line.new)) × IsCaughtUp self.new.state (L.stands line.new) }
        ensures stopped { result ≡ Stopped
            → L.led line.old call line.new × (self.new ≡ self.old)
            × StandAlike (begins self.old.seat self.old.state call) (begins (L.seat line.old) (L.stands line.old) call) }
        ensures stayed { result ≡ Stayed → (line.new ≡ line.old) × (self.new ≡ self.old) }
    {
        match call {
            Call::Op(op) => self.go(line, op),
            Call::Refresh => self.refresh(line),
            Call::Poll => self.poll(line),
            _ => Went::Stayed,
        }
    }

    /// Makes the hot part of an operation's call: each of its steps is the one that the machine's table asks for. In prepare a call has none, nor has
    /// it where it may not go straight, or what it goes by isn't looked up.
    #[inline(always)]
    pub fn run_hot<L: Line>(&mut self, line: &mut L, op: Op) -> Hot
        requires idle { is_busy (L.stands line.old).step ≡ false }
        requires seat { self.old.seat ≡ L.seat line.old }
        requires alike { lasting self.old.state ≡ lasting (L.stands line.old) }
        ensures seat { L.seat line.new ≡ L.seat line.old }
        ensures machine { self.new.seat ≡ self.old.seat }
        ensures ended { (told : Told) → result ≡ HasEnded told
            → L.led line.old (call.Op op) line.new × (Done told ≡ session_ask (L.seat line.old) (L.stands line.new))
            × IsCaughtUp self.new.state (L.stands line.new) }
        ensures left { (due : Due) → result ≡ Left due
            → L.led line.old (call.Op op) line.new × (self.new ≡ self.old) × HasLeft self.old.seat self.old.state op due (L.kept line.new) (L.stands line.new) }
        ensures begins { (due : Due) → result ≡ Left due
            → StandAlike (begins self.old.seat self.old.state (call.Op op)) (begins (L.seat line.old) (L.stands line.old) (call.Op op)) }
        ensures stayed { result ≡ HasStayed → (line.new ≡ line.old) × (self.new ≡ self.old) }
    {
        let Some(going) = &self.going else {
            return Hot::Stayed;
        };
        let lets = going.lets(&self.machine, op);
        if !lets || going.is_preparing {
            return Hot::Stayed;
        }
        let straight = go_hot(line, &mut self.machine, going, op);
        let told = match straight {
            Ok(its) => its,
            Err(due) => {
                law_of_standing();
                return Hot::Left(due);
            }
        };
        Hot::Ended(told)
    }

    /// Makes the steps that are left of an operation's call, up to its answer. None where anything unusual is met: the machine has to catch up with
    /// the line then.
    #[inline(always)]
    pub fn run_due<L: Line>(&mut self, line: &mut L, op: Op, due: Due) -> Option<Told>
        requires seat { self.old.seat ≡ L.seat line.old }
        requires left { HasLeft self.old.seat self.old.state op due (L.kept line.old) (L.stands line.old) }
        ensures seat { L.seat line.new ≡ L.seat line.old }
        ensures led { (start : L) (call : Call) → L.led start call line.old → L.led start call line.new }
        ensures machine { self.new.seat ≡ self.old.seat }
        ensures ended { IfSome result (λ told. (Done told ≡ session_ask (L.seat line.old) (L.stands line.new))
            × IsCaughtUp self.new.state (L.stands line.new)) }
        ensures stopped { IfNone result (self.new ≡ self.old) }
    {
        let Some(going) = &self.going else {
            return None;
        };
        let lets = going.lets(&self.machine, op);
        if !lets {
            return None;
        }
        go_due(line, &mut self.machine, going, op, due)
    }

    /// Begins the call anew by the machine and tells it the replies that have come, with no step on a word: then it stands like the line.
    /// Gives what it asks there.
    pub fn catch_up<L: Line>(&mut self, line: &L, call: Call) -> Ask<Told>
        requires seat { self.old.seat ≡ L.seat line.now }
        requires led { (start : L) × L.led start call line.now
            × StandAlike (begins self.old.seat self.old.state call) (begins (L.seat start) (L.stands start) call) }
        ensures seat { self.new.seat ≡ L.seat line.now }
        ensures alike { StandAlike self.new.state (L.stands line.now) }
        ensures ask { result ≡ session_ask (L.seat line.now) (L.stands line.now) }
    {
        self.going = None;
        catch_up(line, &mut self.machine, call)
    }
}
