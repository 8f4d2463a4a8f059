//! What channels of toy nodes are opened with, in the demo, in programs that drive nodes and in tests.
#![tactic(auto)]

mod settings;

pub use settings::{KEYS, POLICY, SHORT_IDS, TXIDS, fit_config, fit_spec};
