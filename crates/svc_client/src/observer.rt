//! What looks at services.
use crate::services::Services;
use std::marker::Model;
use tai_status::TimeSource;

/// Services, and the clock that is read when they are looked at. Contracts see what was asked of the services, and what
/// the clock returned.
#[derive(Drop)]
pub struct Observer<S: Services, C: TimeSource> {
    pub services: S,
    pub clock: C,
}

impl<S: Services, C: TimeSource> Model for Observer<S, C> {
    ghost use Rattle.svc_client.specs.Sight.{Sight, sight};

    ghost Value = { Sight };

    ghost view = { λ observer. sight (S.calls observer.services) (C.readings observer.clock) };
}
