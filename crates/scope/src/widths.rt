// How many words an entry of each list has.

pub const SCOPE_WIDTH: usize = 4;

pub const BINDING_WIDTH: usize = 7;

pub const CARRIED_WIDTH: usize = 4;

pub const RECORDED_WIDTH: usize = 5;

pub const FINDING_WIDTH: usize = 7;

// And how many an event has, or a finding, in the log that the walks write.
pub const LOGGED_WIDTH: usize = 6;
