// The limits of a sheet. `specs/Limits.antt` has the same numbers for the contracts.
pub const MAX_STEPS: usize = 256;

pub const MAX_BENCHES: u8 = 16;

pub const MAX_MINUTES: u16 = 9_999;

pub const MAX_FEE: u32 = 100_000;

// What stands in the target of step 0, which has none, here as in a file. No sheet has a step of this number.
pub const NO_TARGET: u16 = 65_535;
