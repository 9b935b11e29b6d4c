//! Laws of views: the answers to operations and the files that they leave are those that the files alone determine.
#![tactic(auto)]
