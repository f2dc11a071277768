//! Sessions of a table's passes: what all of them answer is what one sorted map answers, at points of one history.
//!
//! A call of a pass says what that pass has seen. Who reads the replies of many clients wants to know what they come to together: there is
//! one history, which has the event of each call of each pass at a place of its own, and each reply is what the map answers at its place.
//!
//! ```text
//!   pass 0      insert 5: inserted                        get 6: found
//!   pass 1                          insert 6: inserted                  scan 0 to 9: rows 5 6
//!   history     insert 5            insert 6              get 6         look at 5, look at 6, look beyond
//!   map         5                   5 6                   5 6           5 6
//! ```
//!
//! A pass does its commands one after another, so their places are in the order of its session, and after all that it had seen when that
//! began. What strangers do in time is not told: two passes know of each other what a mark tells them, or a reply.
//!
//! The table may refuse a command for want of room or of turns; then an insert, a removal or a get has no place. A scan has the places of
//! its looks, also where it was refused after some. Where a table has one pass, its places are all there are, and its session is that of
//! one sorted map, from the first command to the last.
//!
//! Nothing here runs: these are laws, for the program's own theorems to cite.
#![tactic(auto)]

mod laws;

pub use art_server;
pub use laws::{
    closed_alone, commands_are_points, sessions_alone_are_one_map, sessions_are_one_map,
};
