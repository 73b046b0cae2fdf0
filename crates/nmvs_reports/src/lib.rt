//! Reports of product codes, the names of alerts, and the lines that follow an answer.
#![tactic(auto)]

mod alert_name;
mod following;
mod laws;
mod report_list;
mod reports;

pub use alert_name::AlertName;
pub use following::Following;
pub use laws::alert_names;
pub use report_list::ReportList;
pub use reports::{batches, product_line, report};
