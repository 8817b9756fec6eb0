// Which line of two rule texts decides a packet.
//
// The first text wins unless it is silent on the packet. The answer is the line itself, borrowed from its text; nothing is stored.
// The contract of `winner` fixes which text it is and where the line stands in it, and that the line's rule decides as the first
// text's rules over the second's do. Rests on text.
#![tactic(auto)]

pub mod winning;

pub use winning::{Of, WinnerFault, WinningLine, winner};
