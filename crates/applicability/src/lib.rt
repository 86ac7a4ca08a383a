// What a step asks, by its ground literals: conditions (conditions), and that no two of its events interfere (interference).
#![tactic(auto)]

pub mod conditions;
pub mod interference;
