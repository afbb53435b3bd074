// Codes: tables of coefficients over a field, symbols, re-encoding, recovery and decoding.
#![tactic(auto)]

pub mod code;
