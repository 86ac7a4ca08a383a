// The limits of a domain file, and those of a run. The definitions have them under the same names (maxRelations ..).
pub const MAX_FILE: usize = 65535;

pub const MAX_RELATIONS: usize = 64;

// Of a literal or of a component.
pub const MAX_ARGUMENTS: usize = 6;

pub const MAX_ACTIONS: usize = 64;

// Of an action.
pub const MAX_VARIABLES: usize = 16;

// Of an action.
pub const MAX_LITERALS: usize = 64;

pub const MAX_COMPONENTS: usize = 16;

pub const MAX_OBJECTS: usize = 64;

pub const MAX_FACTS: usize = 1024;

// Lasting actions that are open.
pub const MAX_RUNNING: usize = 32;

// Of a step.
pub const MAX_EVENTS: usize = 16;
