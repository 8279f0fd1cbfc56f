//! What a writer has, between two calls.
ghost use Rattle.std.specs.Prelude.{◌≡◌, ◌++◌, ◌∷◌, [], drop, None, IfOk, IfErr};
ghost use Rattle.left_right.specs.Sides.{view};
ghost use Rattle.svc_station.specs.Owed.{Adds, with_owed};
ghost use Rattle.svc_station.specs.Shown.{IsShown, IsPending, origin_of};

use crate::appender::Appender;
use crate::note::Note;
use crate::prefix::Prefix;
use crate::reader::Reader;
use crate::rule::{Introduced, Look, ShownWriter};
use crate::shown::Noted;
use std::alloc::AllocError;
use std::sync::Wait;
use sup_core::{Event, Machine};

/// Nothing is pending. What is shown is the whole history, or all of it but the last event, which was refused.
pub struct WriterState {
    pub(crate) inner: ShownWriter,
    pub(crate) appender: Appender,
    pub(crate) prefix: Prefix,
    // The event that was added, and that there was no room to publish.
    pub(crate) owed: Option<Event>,
    ghost pending: { drop inner.behind inner.log.items ≡ [] },
    ghost shown: { IsShown inner.desk.shown.value },
    ghost same: { inner.desk.shown.value.prefix ≡ prefix },
    ghost book: { appender.prefix.seen.book ≡ prefix.seen.book },
    ghost owes: { appender.prefix.seen.log ≡ with_owed prefix.seen.log owed },
    ghost knows: { view inner.desk.place ≡ origin_of inner.desk.shown.value },
}

// Adds an event after the published ones. If this event is owed, it was added before. The appender comes back as it was
// if another event is owed, or if there is no room.
fn add_once(
    appender: Appender,
    owed: Option<Event>,
    event: Event,
) -> Result<Appender, (Appender, Option<Event>)>
    ensures book { IfOk result (λ added. added.prefix.seen.book ≡ appender.prefix.seen.book) }
    ensures added { IfOk result (λ added. Adds event owed appender.prefix.seen.log added.prefix.seen.log) }
    ensures back { IfErr result (λ back. (back.0.prefix ≡ appender.prefix) × (back.1 ≡ owed)) }
{
    match owed {
        None => match appender.add(event) {
            (added, true) => Ok(added),
            (appender, false) => Err((appender, None)),
        },
        Some(earlier) if earlier == event => Ok(appender),
        Some(earlier) => Err((appender, Some(earlier))),
    }
}

// Shows the one event that is pending. The history `next` ends in it.
fn show<R: Wait>(rt: &R, inner: ShownWriter, appender: Appender, next: Prefix) -> WriterState
    // What is shown follows the rule of the station, and this end knows the station. One event is pending, and the
    // appender has added it.
    requires shown { IsShown inner.desk.shown.value }
    requires knows { view inner.desk.place ≡ origin_of inner.desk.shown.value }
    requires appender { appender.prefix ≡ next }
    requires pending { IsPending inner.desk.shown.value next (drop inner.behind inner.log.items) }

    // The whole history is shown, and no event is owed.
    ensures prefix { result.prefix ≡ next }
    ensures appender { result.appender.prefix ≡ next }
    ensures owed { result.owed ≡ None }

    // The station stays the same.
    ensures station { origin_of result.inner.desk.shown.value ≡ origin_of inner.desk.shown.value }
{
    let (inner, published) = inner.publish_as::<Look, R>(rt);
    match published {
        Ok(()) => WriterState {
            inner,
            appender,
            prefix: next,
            owed: None,
        },
        Err(_refused) => unreachable!(),
    }
}

impl WriterState {
    ghost use Rattle.std.specs.Prelude.{◌≡◌, ◌↔◌, [], ◌∷◌, ◌++◌, drop, true, IfOk, OnOk, OnErr, false};
    ghost use Rattle.sup_core.specs.History.{state_of};
    ghost use Rattle.sup_core.specs.Rules.{takes, IsEvent};
    ghost use Rattle.svc_station.specs.Owed.{MayOwe};
    ghost use Rattle.svc_station.specs.WriterStates.{IsSameState, added_on, state_station, history_on};
    ghost use Rattle.svc_station.specs.Origins.{origin_in};
    ghost use mathlib.Core.List.{IsPrefix};

    // Makes room for all later operations by a first one without an event, so no later append grows.
    pub(crate) fn with_room<R: Wait>(
        rt: &R,
        inner: ShownWriter,
        appender: Appender,
        prefix: Prefix,
    ) -> Result<WriterState, AllocError>
        // What is shown follows the rule of the station, and is all that was added. Nothing is pending, and this end
        // does not know the station yet.
        requires shown { IsShown inner.desk.shown.value × (inner.desk.shown.value.prefix ≡ prefix) }
        requires pending { drop inner.behind inner.log.items ≡ [] }
        requires appender { appender.prefix ≡ prefix }
        requires stranger { (view inner.desk.place).knows ≡ false }

        // If there is memory, the station and its history are as before, and no event is owed.
        ensures prefix { IfOk result (λ state. state.prefix ≡ prefix) }
        ensures appender { IfOk result (λ state. state.appender.prefix ≡ prefix) }
        ensures station { IfOk result (λ state. state_station state ≡ origin_of inner.desk.shown.value) }
    {
        let mut inner = inner;
        let nothing = Noted::of(None, prefix.again());
        match inner.append(nothing) {
            Ok(()) => {
                let (inner, published) = inner.publish_as::<Look, R>(rt);
                match published {
                    Ok(()) => Ok(WriterState {
                        inner,
                        appender,
                        prefix,
                        owed: None,
                    }),
                    Err(_refused) => unreachable!(),
                }
            }
            Err(_nothing) => {
                inner.take(rt);
                Err(AllocError)
            }
        }
    }

    // Makes the reader with this number, which knows the history so far.
    pub(crate) fn reader(&mut self, number: usize) -> Result<Reader, AllocError>
        ensures same { IsSameState self.old self.new }
        ensures appender { self.new.appender ≡ self.old.appender }
        ensures station { IfOk result (λ reader. origin_in reader.known ≡ state_station self.old) }
        ensures prefix { IfOk result (λ reader. reader.known.prefix ≡ self.old.prefix) }
        ensures number { IfOk result (λ reader. reader.number ≡ number) }
    {
        let mut inner = self.inner.factory().reader()?;
        inner.learn::<Introduced>(self.inner.tell::<Introduced>());
        Ok(Reader::over(inner, Note::of(self.inner.published()), number))
    }

    pub(crate) fn close<R: Wait>(self, rt: &R) {
        let WriterState {
            inner,
            appender: _appender,
            prefix: _prefix,
            owed: _owed,
        } = self;
        inner.take(rt);
    }

    pub(crate) fn machine(&self) -> Machine
        ensures { result ≡ state_of (history_on self.now) }
    {
        self.inner.published().trace.state()
    }

    // Publishes an event that the machine takes. `AllocError` is returned if there is no room for the operation, or if
    // another event is owed: what is published is then as before. The next call for the same event that finds room
    // publishes it.
    pub(crate) fn publish<R: Wait>(
        self,
        rt: &R,
        event: Event,
    ) -> (WriterState, Result<(), AllocError>)
        requires event { IsEvent event }
        requires taken { takes (history_on self) event ≡ true }

        // The station stays the same. If it succeeds, the event comes after those that were published. If it fails,
        // nothing more is published.
        ensures same { state_station result.0 ≡ state_station self }
        ensures published { OnOk result.1 (result.0.prefix.seen.log ≡ self.prefix.seen.log ++ event ∷ []) }
        ensures refused { OnErr result.1 (result.0.prefix.seen.log ≡ self.prefix.seen.log) }

        // If it succeeds, all events that were added are published. If it fails, either nothing was added, or the
        // events that are added are those that are published, followed by this one.
        ensures whole { OnOk result.1 (added_on result.0 ≡ result.0.prefix.seen.log) }
        ensures owed { OnErr result.1 (MayOwe event (added_on self) self.prefix.seen.log (added_on result.0)) }
    {
        let WriterState {
            mut inner,
            appender,
            prefix,
            owed,
        } = self;
        let entry = event;
        let refused = event;
        let appender = match add_once(appender, owed, event) {
            Ok(added) => added,
            Err((appender, owed)) => {
                return (
                    WriterState {
                        inner,
                        appender,
                        prefix,
                        owed,
                    },
                    Err(AllocError),
                );
            }
        };
        let next = appender.prefix.again();
        let operation = Noted::of(Some(entry), next.again());
        match inner.append(operation) {
            Ok(()) => (show(rt, inner, appender, next), Ok(())),
            Err(_operation) => (
                WriterState {
                    inner,
                    appender,
                    prefix,
                    owed: Some(refused),
                },
                Err(AllocError),
            ),
        }
    }

    // Returns whether all events that were added are shown.
    pub(crate) fn is_whole(&self) -> bool
        ensures { (result ≡ true) ↔ (added_on self.now ≡ self.now.prefix.seen.log) }
    {
        self.owed.is_none()
    }

    // Looks into the book: the other is a beginning of all events that were added.
    pub(crate) fn look(self, other: &Prefix) -> WriterState
        requires { other.now.seen.book ≡ self.prefix.seen.book }
        ensures same { IsSameState self result }
        ensures added { added_on result ≡ added_on self }
        ensures begins { IsPrefix other.now.seen.log (added_on self) }
    {
        let WriterState {
            inner,
            appender,
            prefix,
            owed,
        } = self;
        let appender = appender.look(other);
        WriterState {
            inner,
            appender,
            prefix,
            owed,
        }
    }
}
