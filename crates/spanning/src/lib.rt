//! The mathematics of spanning trees of marked joins: cross joins, and which tables a depth-first search can begin at that walks
//! precisely the marks. There is no code here.
#![tactic(auto)]
