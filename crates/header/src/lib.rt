// A message up to the end of its field table (unmarshal.rs): the first 12 bytes, one field, the table of fields. Document 01, port order 5.
#![tactic(auto)]

pub mod fixed_header;
pub mod header_field;
pub mod header_fields;
