//! A rate limiter for the lines that each user may ask in a second, with a bucket for each user.
#![tactic(auto)]

mod bucket;
mod laws;
mod limiter;
mod rate;
mod shared_limiter;

pub use bucket::Bucket;
pub use laws::rates_are_kept;
pub use limiter::RateLimiter;
pub use rate::Rate;
pub use shared_limiter::{SharedLimiter, admit};
