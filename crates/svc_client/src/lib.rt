//! A client's side of services: what it asks of their folders, sockets and files.
//!
//! [`Services`] is what a client asks of services. Each call and its result are in one history, in order.
//! [`SystemServices`] asks this system, and takes no memory. [`Traces`] reads the traces of services. An [`Observer`] has
//! services and the clock that is read when they are looked at.
#![tactic(auto)]

mod notice;
mod observer;
mod process;
mod services;
mod system;
mod traces;

pub use notice::{NOTICE_BYTES, Notice, NoticeText};
pub use observer::Observer;
pub use services::{Services, Unreached};
pub use system::SystemServices;
pub use traces::Traces;
