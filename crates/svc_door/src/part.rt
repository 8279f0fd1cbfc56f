//! One part at the door.
ghost use Rattle.std.specs.Prelude.{IfSome};
ghost use Rattle.svc_house.specs.Mail.{posted_by};
ghost use Rattle.svc_door.specs.Connection.{HasPostedLast};

use crate::connection::Connection;
use crate::greeting::greet;
use crate::listener::Listener;
use crate::rests::{after_refusal, sooner};
use mio::net::{UnixListener, UnixStream};
use mio::{Interest, Registry, Token};
use std::io;
use std::sync::Wait;
use svc_house::ControlSender;

/// A part: its two listeners, and its control connection, if there is one.
#[derive(Drop)]
pub struct DoorPart {
    /// The number of its life.
    pub number: u64,
    /// The token of its listeners and of its connection, which their events name.
    pub token: Token,
    /// When it has a turn without an event. `None`: only at an event.
    pub due: Option<u64>,
    control: Listener,
    ok: Listener,
    sender: ControlSender,
    connection: Option<Connection<UnixStream>>,
    ghost posted: { ∥ IfSome connection (HasPostedLast (posted_by sender)) ∥₁ },
}

impl DoorPart {
    ghost use Rattle.std.specs.IoError.{error_kind};
    ghost use Rattle.std.specs.Prelude.{◌≡◌, ◌↔◌, ◌≤◌, IsTrue, IsNone, IsSome, IsSomeAnd, Some, None, IfErr, OnOk};
    ghost use Rattle.std.specs.Prelude.{OnErr};
    ghost use Rattle.svc_mail.specs.Ends.{IsSameSender};
    ghost use Rattle.svc_house.specs.Mail.{posted_by, sender_in};
    ghost use Rattle.svc_door.specs.Connection.{ConnectionState};
    ghost use Rattle.svc_door.specs.Listening.{IsSame};
    ghost use Rattle.svc_door.specs.Looks.{LooksAgainAt, HasClosed};
    ghost use Rattle.svc_door.specs.Turns.{GoesOnWith, HasTurn, Serves, TakesTurn};

    /// Returns a part with no connection.
    pub fn new(
        number: u64,
        token: Token,
        sender: ControlSender,
        control: UnixListener,
        ok: UnixListener,
    ) -> DoorPart
        // The part has what it is given: its bytes go to this sender, and its events will name this token.
        ensures number { result.number ≡ number }
        ensures token { result.token ≡ token }
        ensures sender { result.sender ≡ sender }

        // It waits for an event: it has no connection, and is not due at any time.
        ensures due { result.due ≡ None }
        ensures connection { result.connection ≡ None }

        // Its listeners have these sockets, which `register` makes the registry watch.
        ensures listeners { (result.control.socket ≡ control) × (result.ok.socket ≡ ok) }
    {
        DoorPart {
            number,
            token,
            due: None,
            control: Listener::new(control),
            ok: Listener::new(ok),
            sender,
            connection: None,
        }
    }

    /// Makes the registry watch both listeners.
    pub fn register(&mut self, registry: &Registry) -> io::Result<()>
        // Even if it fails, the part keeps its token, its number, its sender, its connection and its sockets, and is
        // due as before.
        ensures token { self.new.token ≡ self.old.token }
        ensures number { self.new.number ≡ self.old.number }
        ensures sender { self.new.sender ≡ self.old.sender }
        ensures due { self.new.due ≡ self.old.due }
        ensures connection { self.new.connection ≡ self.old.connection }
        ensures sockets { (self.new.control.socket ≡ self.old.control.socket)
            × (self.new.ok.socket ≡ self.old.ok.socket) }

        // If it succeeds, the events of both listeners name the token of the part.
        ensures watched { OnOk result ((self.new.control.watched ≡ Some self.old.token)
            × (self.new.ok.watched ≡ Some self.old.token)) }
    {
        self.control.register(registry, self.token)?;
        self.ok.register(registry, self.token)
    }

    /// Returns the sender. Closes the listeners and the connection.
    pub fn into_sender(self) -> ControlSender
        ensures { result ≡ self.sender }
    {
        let DoorPart { sender, .. } = self;
        sender
    }

    /// Returns whether the part has its turn now.
    pub fn is_due(&self, now: u64) -> bool
        ensures { IsTrue result ↔ IsSomeAnd self.now.due (λ due. due ≤ now) }
    {
        match self.due {
            Some(due) => due <= now,
            None => false,
        }
    }

    /// Accepts some connections to `ok`, and closes them. Then continues with the control connection, or begins with
    /// the next one: at most 4096 bytes of one connection. Sets when the part has its next turn.
    ///
    /// A part with a connection is due at some time. If the connection that it had is over, it is due at once.
    pub fn turn<R: Wait>(&mut self, rt: &R, registry: &Registry, now: u64)
        // A part that has a connection, or has lost the one that it had, does not depend on an event for its next turn.
        ensures due { IsSome self.new.connection → IsSome self.new.due }
        ensures next { HasClosed self.old.connection self.new.connection
            → IsSomeAnd self.new.due (λ due. due ≤ now) }

        // This turn alone decides when the part is due again. The bytes that it posts are the next ones of its
        // connection.
        ensures takes { TakesTurn (posted_by self.old.sender) (posted_by self.new.sender) now
            self.new.ok self.new.control self.old.connection self.new.connection self.new.due }

        // The part keeps its number, its token and its listeners, and posts through the same sender.
        ensures same_sender { IsSameSender (sender_in self.old.sender) (sender_in self.new.sender) }
        ensures number { self.new.number ≡ self.old.number }
        ensures token { self.new.token ≡ self.old.token }
        ensures listeners { IsSame self.old.control self.new.control × IsSame self.old.ok self.new.ok }
    {
        let greeted = greet(&mut self.ok, now);
        let served = self.serve(rt, registry, now);
        self.due = sooner(greeted, served);
    }

    fn serve<R: Wait>(&mut self, rt: &R, registry: &Registry, now: u64) -> Option<u64>
        // The result is when the part is due for its connection. There is such a time as long as there is a connection,
        // and it is now if the one that there was is over.
        ensures due { IsSome self.new.connection → IsSome result }
        ensures next { HasClosed self.old.connection self.new.connection → result ≡ Some now }

        // Either there is no connection and nothing was posted, or the connection had its turn.
        ensures serves { Serves (posted_by self.old.sender) (posted_by self.new.sender) now
            self.new.control self.old.connection self.new.connection result }

        // The part keeps its number, its token and its listeners, and posts through the same sender. The listener `ok`
        // is not asked.
        ensures same_sender { IsSameSender (sender_in self.old.sender) (sender_in self.new.sender) }
        ensures number { self.new.number ≡ self.old.number }
        ensures token { self.new.token ≡ self.old.token }
        ensures listeners { IsSame self.old.control self.new.control × (self.new.ok ≡ self.old.ok) }
    {
        match self.connect(registry, now) {
            Ok(()) => Some(self.hear(rt, now)),
            Err(fault) => after_refusal(&fault, now),
        }
    }

    // Provides a connection to continue with: the one that there is, or the next one that comes.
    fn connect(&mut self, registry: &Registry, now: u64) -> io::Result<()>
        // If it succeeds, the part has a connection. If it had one before, this is as it was.
        ensures with_one { OnOk result ((connection : ConnectionState)
            × (self.new.connection ≡ Some connection) × GoesOnWith now self.old.connection connection) }

        // If it fails, there was no connection, and there is none. The listener keeps the kind of the error, which
        // decides when it is asked again.
        ensures none { OnErr result ((self.old.connection ≡ None) × (self.new.connection ≡ None)) }
        ensures refused { IfErr result (λ fault. self.new.control.refused ≡ Some (error_kind fault)) }

        // Nothing is posted. The part keeps its number, its token and its listeners, and `ok` is not asked.
        ensures sender { self.new.sender ≡ self.old.sender }
        ensures number { self.new.number ≡ self.old.number }
        ensures token { self.new.token ≡ self.old.token }
        ensures listeners { IsSame self.old.control self.new.control × (self.new.ok ≡ self.old.ok) }
    {
        if self.connection.is_none() {
            let stream = self.control.accept()?;
            self.begin(stream, registry, now);
        }
        Ok(())
    }

    fn begin(&mut self, mut stream: UnixStream, registry: &Registry, now: u64)
        ensures begins { (connection : ConnectionState)
            × (self.new.connection ≡ Some connection) × GoesOnWith now None connection }
        ensures sender { self.new.sender ≡ self.old.sender }
        ensures number { self.new.number ≡ self.old.number }
        ensures token { self.new.token ≡ self.old.token }
        ensures listeners { (self.new.control ≡ self.old.control) × (self.new.ok ≡ self.old.ok) }
    {
        let watched = registry
            .register(&mut stream, self.token, Interest::READABLE)
            .is_ok();
        self.connection = Some(Connection::new(stream, watched, now));
    }

    // Continues with the connection. If there is none any more, the next one is looked for at once.
    fn hear<R: Wait>(&mut self, rt: &R, now: u64) -> u64
        // If the connection stays, the result is when the door looks at it again. If there is none any more, the result
        // is now.
        ensures over { IsNone self.new.connection → result ≡ now }
        ensures looks { LooksAgainAt self.old.connection self.new.connection now result }

        // If there was a connection, it had its turn, and posted its next bytes.
        ensures hears { (old : ConnectionState) → self.old.connection ≡ Some old
            → HasTurn (posted_by self.old.sender) (posted_by self.new.sender) now old self.new.connection result }

        // The part keeps its number, its token and its listeners, which are not asked, and posts through the same
        // sender.
        ensures same_sender { IsSameSender (sender_in self.old.sender) (sender_in self.new.sender) }
        ensures number { self.new.number ≡ self.old.number }
        ensures token { self.new.token ≡ self.old.token }
        ensures listeners { (self.new.control ≡ self.old.control) × (self.new.ok ≡ self.old.ok) }
    {
        let Some(connection) = &mut self.connection else {
            return now;
        };
        let turn = connection.turn(rt, &mut self.sender, now);
        match connection.next_look(turn, now) {
            Some(due) => due,
            None => {
                self.connection = None;
                now
            }
        }
    }
}
