//! A session runs in a thread of its own: all that its job holds may be given to another thread, and the hub be shared.
#![tactic(auto)]
