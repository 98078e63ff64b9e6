// The shape of a table: the nodes, the sections and their records, written into lent buffers.
#![tactic(auto)]

pub mod making;
pub mod nodes;
pub mod sections;
