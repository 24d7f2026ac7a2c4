//! The core of the enqueuer: what members give in a world, the least world, and the desk that workers share.
#![tactic(auto)]

mod desk;
mod history;
mod impacts;
mod job;
mod joined;
mod laws;
mod readers;
mod waking;
mod worklist;

pub use desk::Desk;
pub use history::{Entry, History};
pub use impacts::Impacts;
pub use job::Job;
pub use joined::{JoinRefused, Joined};
pub use laws::{least_is_one, schedule_free};

#[cfg(test)]
mod tests;
