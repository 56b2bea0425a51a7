//! What is so after any history of commands and closes: closes agree with each other and with what was accepted, payments less refunds
//! come to what is due, and what was archived is restored. No program waits for these laws: they stand beside [`pay_close`].
#![tactic(auto)]

pub mod laws;
