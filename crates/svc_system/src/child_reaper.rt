//! The thread that waits for the children of a service.
use cmd_base::SystemClock;
use std::alloc::{AllocError, Global};
use std::process::{Child, SystemProcess};
use std::sync::atomic::{AtomicBool, Ordering};
use std::sync::{Arc, Mutex, OnceLock, Wait};
use std::time::Clock;
use svc_house::{News, Notifier};
use svc_record::ending_of;
use svc_world::Death;
use tai_status::TimeSource;

/// The place for a child's death.
pub(crate) type DeathSlot = Arc<OnceLock<Death>, Global>;

/// A child that is handed to the reaper, and the place for its death.
#[derive(Drop)]
pub(crate) struct WatchedChild {
    pub(crate) child: Child<SystemProcess>,
    pub(crate) death: DeathSlot,
}

/// What the slot and the reaper share: the child that is handed over, and the notifier that the reaper waits for.
#[derive(Drop)]
struct SlotState {
    watched: Mutex<Option<WatchedChild>>,
    closed: AtomicBool,
    notifier: Notifier,
}

/// Hands the children of a service to their reaper. The reaper ends once this is dropped.
pub(crate) struct ChildSlot {
    state: Arc<SlotState, Global>,
}

impl Drop for ChildSlot {
    fn drop(self) {
        let ChildSlot { state } = self;
        state.notifier.notify(News::raise(&state.closed));
    }
}

impl ChildSlot {
    /// Hands a child over.
    pub(crate) fn put<R: Wait>(&self, rt: &R, watched: WatchedChild) {
        let news = News::put(rt, &self.state.watched, watched);
        self.state.notifier.notify(news);
    }
}

/// Reaps the children of one service, in a thread of its own.
#[derive(Drop)]
pub struct ChildReaper {
    state: Arc<SlotState, Global>,
    // What the service waits for.
    notifier: Arc<Notifier, Global>,
}

impl ChildReaper {
    /// Makes a reaper, and the slot through which children are handed to it.
    pub(crate) fn open(
        alloc: Global,
        notifier: Arc<Notifier, Global>,
    ) -> Result<(ChildSlot, ChildReaper), AllocError> {
        let state = SlotState {
            watched: Mutex::new(None),
            closed: AtomicBool::new(false),
            notifier: Notifier::new(),
        };
        let state = Arc::new(alloc, state)?;
        let theirs = Arc::try_clone(&state)?;
        Ok((
            ChildSlot { state },
            ChildReaper {
                state: theirs,
                notifier,
            },
        ))
    }

    /// Waits for each child of the service, puts its death in its place, and then notifies the service. Returns once
    /// the service has dropped its children's slot and the child that the reaper waits for has died.
    pub fn run<R: Wait + Clock + Copy + Drop>(self, rt: R) {
        let ChildReaper { state, notifier } = self;
        let mut clock = SystemClock::new(rt);
        for _ in rt.forever() {
            let handed = state.watched.lock(&rt).take();
            match handed {
                Some(WatchedChild { mut child, death }) => {
                    let ending = ending_of(child.wait());
                    let label = clock.now();
                    notifier.notify(News::set(&rt, &death, Death { ending, label }));
                }
                None if state.closed.load(Ordering::SeqCst) => return,
                None => state.notifier.wait(&rt, None),
            }
        }
    }
}
