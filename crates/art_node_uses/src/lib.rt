//! Tests of the four layouts, and of nodes whatever their layout.
//!
//! What the layouts share is tested by functions over any `NodeKind`: `kinds` has them, and `fills` calls them at each
//! layout. Beside them stand worked words of each layout, and of nodes that grow and shrink.
#![tactic(auto)]

#[cfg(test)]
mod fills;
#[cfg(test)]
mod kinds;
#[cfg(test)]
mod node16;
#[cfg(test)]
mod node256;
#[cfg(test)]
mod node4;
#[cfg(test)]
mod node48;
#[cfg(test)]
mod nodes;
#[cfg(test)]
mod plans;
#[cfg(test)]
mod searches;
