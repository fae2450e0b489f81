//! The marked examples, as one list under one law. No code.
#![tactic(auto)]
