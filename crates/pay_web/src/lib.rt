//! The pages of customer service over HTTP: what a request asks for, and how it is answered. [`Site`] is the service that a connection of
//! `http_server` calls; the pages themselves come from a [`Pages`]. Nothing is changed by any request to it. [`StaffSite`] is the same with
//! clerks, who may correct accounts: what puts their corrections is a [`Corrects`].
#![tactic(auto)]

mod asked;
mod correction;
mod corrects;
mod fields;
mod forms;
mod gate;
mod hosts;
pub mod laws;
mod pages;
mod posting;
mod question;
mod site;
mod staff;
mod staff_site;
mod telling;
mod wish;

pub use asked::Asked;
pub use corrects::{Corrects, Viewer};
pub use pages::{PageFault, Pages};
pub use site::Site;
pub use staff::Staff;
pub use staff_site::StaffSite;
