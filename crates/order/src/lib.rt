// The order form's other side: an order's bytes go in, and the answer's text comes out.
#![tactic(auto)]

pub mod answer;
mod asking;
mod form;
mod text;
