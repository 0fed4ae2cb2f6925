// The places of the parameters among the thirteen, of which alpha is the first.
pub const ALPHA: usize = crate::ALPHA - crate::ALPHA;

pub const UPPER_WEIGHT: usize = crate::UPPER_WEIGHT - crate::ALPHA;

pub const LOWER_WEIGHT: usize = crate::LOWER_WEIGHT - crate::ALPHA;

pub const STEP: usize = crate::STEP - crate::ALPHA;

pub const NO_FALL: usize = crate::NO_FALL - crate::ALPHA;

pub const HORIZON: usize = crate::HORIZON - crate::ALPHA;

pub const LONG_HORIZON: usize = crate::LONG_HORIZON - crate::ALPHA;

pub const ADD_ON: usize = crate::ADD_ON - crate::ALPHA;

pub const LEAST_MARGIN: usize = crate::LEAST_MARGIN - crate::ALPHA;

pub const GREATEST_MARGIN: usize = crate::GREATEST_MARGIN - crate::ALPHA;

pub const LEAST_CONCENTRATION: usize = crate::LEAST_CONCENTRATION - crate::ALPHA;

pub const GREATEST_CONCENTRATION: usize = crate::GREATEST_CONCENTRATION - crate::ALPHA;

pub const MONITORED: usize = crate::MONITORED - crate::ALPHA;
