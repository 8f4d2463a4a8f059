//! Hand-over between threads: a relay has two seats that send and one that receives. What is taken is what
//! was put, each item once, and in the order of each sender.
#![tactic(auto)]

mod bounded;
mod count;
mod finished;
mod laws;
mod memory;
mod rule;
mod seats;
mod traits;
mod waiting;
mod waiting_rule;
mod waiting_seats;

pub use bounded::{finish, relay};
pub use finished::Finished;
pub use laws::{each_step_keeps_order, in_every_schedule};
pub use memory::{MemoryRecv, MemorySend};
pub use seats::{RecvSeat, SendSeat};
pub use traits::{Receives, Sends, Waits};
pub use waiting::{finish_waiting, waiting_relay};
pub use waiting_seats::{WaitRecv, WaitSend};
