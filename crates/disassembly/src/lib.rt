//! The mathematics of taking a join graph apart: walks, connected graphs and articulation tables, the rising depth-first
//! search, and the build list that taking tables away in its order gives. There is no code here.
#![tactic(auto)]
