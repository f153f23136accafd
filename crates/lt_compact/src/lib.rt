//! Jobs: deals and rewritings, in steps.
#![tactic(auto)]

mod choosing;
mod faults;
mod filling;
mod giving;
mod job;
mod laws;
mod planning;
mod scanning;
mod share;
mod sharing;
mod step;
mod taking;

pub use faults::JobFault;
pub use job::Job;
pub use laws::{jobs_begin, jobs_commit, jobs_fit, jobs_outlast, plans_tell, steps_keep};
pub use step::Stepped;
