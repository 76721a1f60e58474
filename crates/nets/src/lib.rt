#![tactic(auto)]

// A net over any space: the layer that decodes through nodes.
pub mod edit;
mod gather;
pub mod layer;
pub mod methods;
pub mod net;
pub mod texts;
