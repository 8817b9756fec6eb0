// A rule of a book.
use packet::Region;

// Every packet of the region gets the decision, unless a rule before this one holds the packet.
#[derive(Clone, Copy, PartialEq, Eq, Debug)]
pub struct Rule {
    pub region: Region,
    pub decision: u8,
}
