//! States of plans, each with the move or the site that an independent model gives: they test the definitions of
//! `plan_model`, and no code.
#![tactic(auto)]
