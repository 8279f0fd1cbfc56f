//! How long a process has lived.
ghost use Rattle.std.specs.Prelude.{◌≡◌};
ghost use Rattle.svc_client.specs.Process.{age_at};

/// Returns how many ticks, at least, a process has lived that began at a tick. `now` is the present reading of the
/// clock that stops while the computer sleeps, and `first` an earlier one. This process began at the tick `own`, before
/// that earlier reading.
pub(crate) fn age_at(began: u64, own: u64, first: u64, now: u64) -> u128
    ensures { result ≡ age_at began own first now }
{
    let awake = u128::from(own) + u128::from(now.saturating_sub(first));
    u128::from(now).max(awake).saturating_sub(u128::from(began))
}
