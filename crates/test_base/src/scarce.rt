//! Memory that runs out after a number of growths.
use std::alloc::{AllocError, Allocator, Global};
use std::cell::Cell;
use std::test::Fail;

/// How many growths are still granted, and whether one was refused.
#[derive(Clone, Copy, Debug)]
struct Budget {
    left: u64,
    refused: bool,
}

/// Memory that grants a number of growths, and refuses the next one and each later one. Memory that is freed does not
/// count. It grants all growths until that number is set.
pub struct Scarce<B: Allocator> {
    inner: B,
    budget: Cell<Budget>,
}

impl<B: Allocator> Scarce<B> {
    /// Returns memory that is taken from another, and grants what that one grants.
    pub fn new(inner: B) -> Scarce<B> {
        Scarce {
            inner,
            budget: Cell::new(Budget {
                left: u64::MAX,
                refused: false,
            }),
        }
    }

    /// Grants this many growths from now on.
    pub fn give(&self, growths: u64) {
        self.budget.set(Budget {
            left: growths,
            refused: false,
        });
    }

    /// Returns whether it refused a growth since the number was set. Grants all growths from now on.
    pub fn lift(&self) -> bool {
        let Budget { left: _, refused } = self.budget.get();
        self.budget.set(Budget {
            left: u64::MAX,
            refused,
        });
        refused
    }
}

impl Scarce<Global> {
    /// Returns the underlying memory, which refuses nothing.
    pub fn ample(&self) -> Global {
        self.inner
    }
}

impl<B: Allocator> Drop for Scarce<B> {
    fn drop(self) {
        let Self {
            inner: _,
            budget: _,
        } = self;
    }
}

/// Counts a growth, and returns whether it is refused.
fn is_refused(budget: &Cell<Budget>) -> bool {
    let Budget { left, refused } = budget.get();
    budget.set(Budget {
        left: left.saturating_sub(1),
        refused: refused || left == 0,
    });
    left == 0
}

unsafe impl<B: Allocator> Allocator for Scarce<B> {
    ghost dealloc_token = { λ scarce ty ptr. B.dealloc_token scarce.inner ty ptr };

    fn allocate(&self, size: usize, align: usize) -> Result<*mut u8, AllocError> {
        if is_refused(&self.budget) {
            return Err(AllocError);
        }
        self.inner.allocate(size, align)
    }

    unsafe fn deallocate(&self, ptr: *mut u8, size: usize, align: usize) {
        self.inner.deallocate(ptr, size, align);
    }
}

/// The most growths of one call.
const MOST_GROWTHS: u64 = 10_000;

/// Makes a trial with no growth, with one, with two, and so on, up to the first that meets no refusal. A trial gets the
/// memory, and the number of growths that its call may make. It returns whether one was refused.
pub fn refuse_in_turn<F: Fn(&Scarce<Global>, u64) -> Result<bool, Fail>>(
    alloc: Global,
    trial: F,
) -> Result<(), Fail>
    requires { F.IsAlwaysCallable trial }
{
    for growths in 0..MOST_GROWTHS {
        let memory = Scarce::new(alloc);
        if !trial(&memory, growths)? {
            return check("it grows", growths > 0);
        }
    }
    Err(Fail::new("it never has enough"))
}

/// Fails with this text if a condition does not hold.
pub fn check(what: &str, holds: bool) -> Result<(), Fail> {
    if holds { Ok(()) } else { Err(Fail::new(what)) }
}
