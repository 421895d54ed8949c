// The limits of a written tree, which are a script's, in 16 bits as room and height are counted.
pub const MAX_NODES: u16 = script::limits::MAX_NODES as u16;

pub const MAX_HEIGHT: u16 = script::limits::MAX_HEIGHT as u16;
