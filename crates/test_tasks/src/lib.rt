//! Tests of the shared session by the public calls of `sftp_tasks`, and of the texts of scripts that are refused.
#![tactic(auto)]

#[cfg(test)]
mod nested_half;
#[cfg(test)]
mod one_thread;
#[cfg(test)]
mod texts;
