//! An object served on TCP: a broker with a keeper of attributes answers connections, one after the
//! other or at the same time.
#![tactic(auto)]

mod ahead;
mod announcing;
mod connections;
mod fault;
mod leaving;
mod listener;
mod loopback;
mod memory;
mod misses;
mod moving;
mod object;
mod options;
pub mod partings;
mod polled_loopback;
mod polled_stream;
mod serving;
mod serving_many;
mod side;
mod tally;
mod totals;

pub use announcing::serving_line;
pub use connections::serve_connections;
pub use fault::ServeFault;
pub use listener::{BlockingListener, Closing};
pub use loopback::Loopback;
pub use options::ServeOptions;
pub use polled_loopback::PolledLoopback;
pub use polled_stream::PolledStream;
pub use serving::{serve, serve_table};
pub use serving_many::serve_table_at_once;
pub use side::Side;
pub use totals::Totals;
