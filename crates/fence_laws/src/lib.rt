//! Calls that are barriers for every hart (membarrier(2)): which stores have entered memory when such a call has
//! returned, and who sees them.
#![tactic(auto)]
