// Facts as they are held in lent memory: rows of 8 bytes (rows), their key tuples (keys), the facts of an instance (instances), the index
// by which they are found (index), and weights of instances (weighing).
#![tactic(auto)]

pub mod index;
pub mod instances;
pub mod keys;
pub mod rows;
pub mod weighing;
