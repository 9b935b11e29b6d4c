//! Invariants of a session of lanes by its journal, and laws that each step keeps them: sends and takes, an end, a
//! cancel, the CLOSE of a due grant, and the release of a lane. It has only laws, generic in the calls; the definitions
//! are in `specs/`.
#![tactic(auto)]
