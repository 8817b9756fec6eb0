// The rows of a table.
use packet::Region;

// What is decided of the packets in a region. A book's Rule has the same fields, but only decides what no rule before it holds: as one
// type, rules could be passed for rows.
#[derive(Clone, Copy, PartialEq, Eq, Debug)]
pub struct Row {
    pub region: Region,
    pub decision: u8,
}
