//! What a model declares: its inputs and outputs, its covers with their rows, and its instances.
pub(crate) mod cover;
pub(crate) mod declarations;
pub(crate) mod instance;
