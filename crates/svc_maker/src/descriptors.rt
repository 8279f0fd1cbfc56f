//! Whether this process has enough descriptors for one more part.
ghost use Rattle.std.specs.Prelude.{◌≡◌};
ghost use Rattle.svc_maker.specs.Descriptors.{are_too_few};

/// The number of sockets of a part.
const SOCKETS: u128 = 2;

/// Returns whether too few descriptors are allowed for the sockets of one more part. `taken` descriptors are taken, and
/// `waiting` parts wait for their sockets.
pub(crate) fn are_too_few(taken: u64, waiting: u64, allowed: u64) -> bool
    ensures { result ≡ are_too_few taken waiting allowed }
{
    let wanted = u128::from(taken) + SOCKETS * (u128::from(waiting) + 1);
    u128::from(allowed) < wanted
}
