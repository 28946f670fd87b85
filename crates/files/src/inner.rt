// Files read into lent room, and refusals put on standard output.
pub mod printing;
pub mod reading;
pub mod telling;
