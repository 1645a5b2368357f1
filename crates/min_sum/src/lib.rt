// Min-sum over any numbers that stand for confidences: what the decoders of all types share. (Rust: decode_ms, over the trait DecodeFrom)

#![tactic(auto)]

pub mod layout;
pub mod marks;
pub mod refusals;
