ghost use Rattle.std.specs.Prelude.{◌≡◌};

/// The most inputs of a system, and the most outputs.
pub const PORTS: usize = 4;

/// The most rows of the expanded net of a system.
pub const NET_ROWS: usize = 24;

/// The most terms of a system.
pub const EQUATION_TERMS: usize = 400;

/// The greatest lag of a term, in moments.
pub const LONGEST_LAG: u8 = 12;

/// The most coefficients of a transfer function, above and below.
pub const COEFFICIENTS: usize = 13;

/// The most second-order sections of a cascade.
pub const SECTIONS: usize = 8;

/// The most states of a state space.
pub const STATES: usize = 16;

/// The most reflection coefficients of a lattice.
pub const REFLECTIONS: usize = 11;

/// The numbers that the limits of a system are.
pub fn equation_limits_are_these()
    ensures ports { PORTS ≡ 4 }
    ensures rows { NET_ROWS ≡ 24 }
    ensures terms { EQUATION_TERMS ≡ 400 }
    ensures lag { LONGEST_LAG ≡ 12 }
{}

/// The numbers that the limits of the four forms are.
pub fn form_limits_are_these()
    ensures coefficients { COEFFICIENTS ≡ 13 }
    ensures sections { SECTIONS ≡ 8 }
    ensures states { STATES ≡ 16 }
    ensures reflections { REFLECTIONS ≡ 11 }
{}
