//! A caller's loop for locks alone: sections are planned, published and run, again where they were refused.
//!
//! A structure that serves no map may take any thunk that fits what was read. Each request of its table is a ticket for
//! one section: what the section does is chosen when it is attempted. `attempting` has one attempt of a ticket, `tries`
//! its publication, `runs` its run, and `serving` the loop. `tickets` has a worker's tickets.
#![tactic(auto)]

mod attempting;
mod runs;
mod serving;
mod tickets;
mod tries;

pub use attempting::attempt_section;
pub use serving::spend_ticket;
pub use tickets::{Tickets, make_tickets, tickets_of};

// Passed on to the layers above, so that they needn't name these libraries themselves.
pub use attempts;
