// The watch over a drive: opened, told of waits and of moves seen, and closed.
#![tactic(auto)]

mod fault;
mod follow;
mod growing;
#[cfg(test)]
mod tests;
mod watch;

pub use fault::WatchFault;
pub use follow::{Followed, Stop};
pub use watch::{Reply, Slip, Watch, open};
