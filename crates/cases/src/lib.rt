// Worked cases about the definitions, proved as equations. There is no code here.
#![tactic(auto)]
