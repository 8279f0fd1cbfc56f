//! The loop of one service: it publishes what happens, and then asks the world for what that asks for.
//!
//! A `House` joins a machine that is published at a station (`svc_station`), the control bytes of an `Inbox`, and a
//! `World` of processes, a status file and a clock. `House::turn` finds one event, publishes it, and asks the world
//! what supervise's table says. Contracts see a house as `Standing` (specs/Standing), and what one turn does as
//! `IsTurn` (specs/Turn).
//!
//! Some facts are in no contract, and only tested. A poll returns what happened: a world that never returns anything
//! meets the clauses. Calls succeed when there is enough memory.
#![tactic(auto)]

mod audit;
mod call;
mod control_sender;
mod find;
mod gate;
mod house;
mod inbox;
mod mail_inbox;
mod news;
mod notifier;
mod pending;
mod request;
mod runtime;
mod turned;
mod wind;
mod world;

pub use audit::last_reading;
pub use call::{Call, StartAnswer};
pub use control_sender::ControlSender;
pub use gate::{Gate, OpenGate};
pub use house::House;
pub use inbox::Inbox;
pub use mail_inbox::MailInbox;
pub use news::News;
pub use notifier::Notifier;
pub use pending::Pending;
pub use runtime::Runtime;
pub use turned::{HouseFault, Turned};
pub use wind::{NotWound, WindFault};
pub use world::World;
