// What days of kept runs are drawn from: a seed's numbers, chains with their records and settings, and the requests of a day.
#![tactic(auto)]

pub mod asks;
pub mod chance;
pub mod parts;
pub mod plans;
