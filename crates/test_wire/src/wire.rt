//! Tests of frames, requests and replies.
mod frames;
mod replies;
mod requests;
