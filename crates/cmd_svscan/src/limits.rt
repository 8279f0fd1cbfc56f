//! What the system allows this process.
use libc::types::rlimit;
use libc::{RLIMIT_NOFILE, getrlimit};

/// Returns how many descriptors this process may have open.
pub(crate) fn allowed_descriptors() -> u64 {
    let mut limit = rlimit {
        rlim_cur: 0,
        rlim_max: 0,
    };
    if getrlimit(RLIMIT_NOFILE, &mut limit) == 0 {
        limit.rlim_cur
    } else {
        u64::MAX
    }
}
