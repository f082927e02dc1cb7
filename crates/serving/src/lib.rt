// What a runner asks for: send, receive, trap, the nine requests, and the ending that they can cause.
// `m` and `me` stay two parameters, as the rules' functions have them.
#![tactic(auto)]

pub mod ending;
pub mod receive;
pub mod requests;
pub mod send;
pub mod trap;
