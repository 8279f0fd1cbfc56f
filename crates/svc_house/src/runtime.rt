//! What the threads of services need from the runtime.
use std::sync::Wait;
use std::thread::Threads;
use std::time::Clock;

/// What the threads of services need from the runtime: it starts threads and is moved into each of them, waits, and
/// reads the running clock.
pub trait Runtime: Threads + Wait + Clock + Copy + Drop + Send + 'static {}

impl<R: Threads + Wait + Clock + Copy + Drop + Send + 'static> Runtime for R {}
