//! Ends of channels for tests and for programs that lines drive: two sides that open a channel, and three nodes in a
//! row (row.rt); stores whose saves fail, gauges, proxies that cut connections; the numbers of a line, refusals as
//! numbers. It has no tests: a crate with tests is proved twice.
#![tactic(auto)]

mod ends;
mod failing_records;
mod failing_store;
mod gauge;
mod line;
mod payment;
mod proxy;
mod refusal;
mod row;
mod watch;

pub use ends::{
    CHEAP, FUNDEE, FUNDER, Range, Side, boxed, config, fundee_side, funder_side, htlc, messages_of,
    offer, open_spec, played, push, stored,
};
pub use failing_records::FailingRecords;
pub use failing_store::FailingStore;
pub use gauge::{CONTINUE, Gauge, Gauged, HOLD, NoHook, Watch};
pub use line::{at, bytes_of, code, numbers, wide};
pub use payment::{AMOUNT, FEE, SECRET, order, preimage};
pub use proxy::{OpenProxy, Proxy, loopback};
pub use refusal::code_of;
pub use row::{A0, B0, B1, C0, ENDS, End, row_config};
pub use watch::{counted, is_refused, state_word, value_of};
