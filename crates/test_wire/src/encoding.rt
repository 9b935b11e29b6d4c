//! Tests of the data types of RFC 4251.
mod labels;
mod lists;
mod numbers;
mod readers;
mod texts;
mod values;
mod writers;
