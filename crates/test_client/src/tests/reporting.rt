//! A sink that sends its own counts: `reports` for what a report has, `threads` for the thread that sends them, and
//! `lock_is_free` for a report while another one reads the counts.

mod lock_is_free;
mod reports;
pub mod stage;
mod threads;
